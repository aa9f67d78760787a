//! Runs of universes that stay in the range, and runs that leave it. The range has the coordinates
//! from -2^62 to 2^62 - 1 and the generations up to 2^63.

use crate::tests::universes::{GLIDER, of_runs};
use plane::{COORDINATE_LIMIT, Cell, GENERATION_LIMIT, Refusal};
use std::process::Abort;
use std::test::Fail;
use universe::Universe;

// Asserts for each start and number of generations whether they stay in the range.
fn assert_judged<R: AllocGlobal + Abort>(
    rt: &R,
    universe: &mut Universe,
    rows: &[(u64, u64, bool)],
) -> Result<(), Fail> {
    for (start, generations, stays) in rows {
        let judged = universe.judge_range(rt.alloc(), *start, *generations);
        let expected = if *stays { Ok(()) } else { Err(Refusal::TooFar) };
        assert_eq!(rt; judged, expected);
    }
    Ok(())
}

#[test]
fn glider_may_go_to_the_edge_of_the_range(rt: HostRuntime) -> Result<(), Fail> {
    let mut glider = of_runs(&rt, b"B3/S23", &GLIDER, 1024)?;
    // Its cells lie from 0 to 2. Its square, of level 4, lies from -8 to 7.
    let far = 1 << 62;
    let rows = [
        (0, 0, true),
        (0, 1 << 61, true),
        (0, far - 8, true),
        (0, far - 7, true),
        (0, far - 3, true),
        (0, far - 2, false),
        (0, u64::MAX, false),
        (far, far - 3, true),
        (GENERATION_LIMIT - 100, 100, true),
        (GENERATION_LIMIT - 100, 101, false),
        (u64::MAX, 1, false),
    ];
    assert_judged(&rt, &mut glider, &rows)?;
    let population = glider.population(rt.alloc())?;
    assert_eq!(rt; population, 5);
    Ok(())
}

// One cell in the last column, so its square is the whole range.
const AT_THE_EDGE: [(Cell, u64); 1] = [(
    Cell {
        x: COORDINATE_LIMIT - 1,
        y: 0,
    },
    1,
)];

#[test]
fn cell_at_the_edge_of_the_range_stays_there(rt: HostRuntime) -> Result<(), Fail> {
    let mut cell = of_runs(&rt, b"B3/S23", &AT_THE_EDGE, 1024)?;
    let rows = [
        (0, 0, true),
        (GENERATION_LIMIT, 0, true),
        (GENERATION_LIMIT + 1, 0, false),
        (0, 1, false),
    ];
    assert_judged(&rt, &mut cell, &rows)
}

#[test]
fn nothing_goes_on_to_the_last_generation(rt: HostRuntime) -> Result<(), Fail> {
    let mut nothing = of_runs(&rt, b"B3/S23", &[], 1024)?;
    let rows = [
        (0, GENERATION_LIMIT, true),
        (1, GENERATION_LIMIT, false),
        (GENERATION_LIMIT, 0, true),
    ];
    assert_judged(&rt, &mut nothing, &rows)
}
