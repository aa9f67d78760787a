//! Universes that come as far as they get, and that rest on the way.

use crate::tests::universes::{GLIDER, LIMITS, R_PENTOMINO, in_range, of_runs, one_worker};
use plane::{Memory, Refusal, Window};
use std::alloc::Global;
use std::process::Abort;
use std::test::Fail;
use std::thread::Threads;
use universe::{Advance, RootedStill, Universe};
use viewport::picture;

fn advanced<R: Threads + Sync + AllocGlobal>(
    rt: &R,
    universe: Universe,
    generations: u64,
) -> Result<Advance, Refusal> {
    let there = in_range(rt.alloc(), universe, generations)?;
    Ok(there.advance(&one_worker(rt), generations)?)
}

// The universe so many generations later, where no table is too small.
fn reached<R: Threads + Sync + AllocGlobal + Abort>(
    rt: &R,
    universe: Universe,
    generations: u64,
) -> Result<Universe, Fail> {
    match advanced(rt, universe, generations)? {
        Advance::Done(later) => Ok(later),
        Advance::Stuck { done, .. } => panic!(rt; "stuck after {done} generations"),
    }
}

// The universe at the last generation that was reached, and how many were done until then.
fn stuck<R: Threads + Sync + AllocGlobal + Abort>(
    rt: &R,
    universe: Universe,
    generations: u64,
) -> Result<(Universe, u64), Fail> {
    match advanced(rt, universe, generations)? {
        Advance::Done(_) => panic!(rt; "all {generations} generations were reached"),
        Advance::Stuck { there, done } => Ok((there, done)),
    }
}

// The picture of a square of cells, of which this is the upper left one.
fn drawn(alloc: Global, cells: &RootedStill, corner: i64, side: u32) -> Result<Memory, Fail> {
    let window = Window::new(corner, corner, side, side)?;
    let mut drawn = Memory::with_room(alloc, 1 << 17)?;
    picture(cells.still(), cells.root(), &window, &mut drawn)?;
    Ok(drawn)
}

// Asserts that both have the same live cells, which lie from -128 to 127.
fn assert_same_cells<R: AllocGlobal + Abort>(
    rt: &R,
    cells: &RootedStill,
    others: &RootedStill,
) -> Result<(), Fail> {
    let bounds = cells.bounds(rt.alloc())?;
    assert_eq!(rt; others.bounds(rt.alloc()), Ok(bounds));
    let picture = drawn(rt.alloc(), cells, -128, 256)?;
    let other = drawn(rt.alloc(), others, -128, 256)?;
    assert!(rt; picture.bytes() == other.bytes());
    Ok(())
}

#[test]
fn glider_comes_one_cell_right_and_down(rt: HostRuntime) -> Result<(), Fail> {
    let start = of_runs(&rt, b"B3/S23", &GLIDER, 4096)?;
    let there = reached(&rt, start, 4)?.rest();
    let picture = drawn(rt.alloc(), there.cells(), 0, 5)?;
    let moved: &[u8] = b".....\n..*..\n...*.\n.***.\n.....\n";
    assert!(rt; picture.bytes() == moved);
    Ok(())
}

// By this rule the R-pentomino has one leaf after a generation. Generation 240 has 288 different
// leaves, and there is room for 256 in the fewest slots.
const MAZE: &[u8] = b"B3/S12345";

#[test]
fn stuck_in_the_fewest_slots(rt: HostRuntime) -> Result<(), Fail> {
    let few = of_runs(&rt, MAZE, &R_PENTOMINO, 1024)?;
    let (there, done) = stuck(&rt, few, 240)?;
    assert!(rt; done > 0 && done < 240);
    let many = of_runs(&rt, MAZE, &R_PENTOMINO, 4194304)?;
    let (there, same) = (there.rest(), reached(&rt, many, done)?.rest());
    assert_same_cells(&rt, there.cells(), same.cells())?;
    // It is stuck again at once, also after a rest.
    let (_, more) = stuck(&rt, there.resume(rt.alloc())?, 1)?;
    assert_eq!(rt; more, 0);
    Ok(())
}

#[test]
fn rest_changes_no_answer(rt: HostRuntime) -> Result<(), Fail> {
    for limit in LIMITS {
        let mut universe = of_runs(&rt, b"B3/S23", &R_PENTOMINO, limit)?;
        for (generations, population) in [(64, 69), (36, 121), (100, 120), (100, 168), (803, 116)] {
            universe = reached(&rt, universe, generations)?;
            let resting = universe.rest();
            universe = resting.resume(rt.alloc())?;
            let count = universe.population(rt.alloc())?;
            assert_eq!(rt; count, population);
        }
    }
    Ok(())
}

#[test]
fn only_the_table_of_the_cells_goes_on(rt: HostRuntime) -> Result<(), Fail> {
    let start = of_runs(&rt, b"B3/S23", &R_PENTOMINO, 4194304)?;
    let universe = reached(&rt, start, 1103)?;
    let pairs = universe.pairs();
    let resting = universe.rest().without_others(rt.alloc());
    let population = resting.population(rt.alloc())?;
    assert_eq!(rt; population, 116);
    let bounds = resting.bounds(rt.alloc())?;
    let mut universe = resting.resume(rt.alloc())?;
    assert!(rt; universe.pairs() < pairs);
    let same = universe.bounds(rt.alloc())?;
    assert_eq!(rt; bounds, same);
    Ok(())
}
