//! Universes some generations on, at tables of several sizes. The populations were found apart from
//! this program.

ghost use Rattle.std.specs.Prelude.{◌<◌, ◌^◌, IfOk};
ghost use Rattle.plane.specs.Runs.{AreRuns, runs_plane};
ghost use Rattle.plane.specs.Square.{IsSame, empty};
ghost use Rattle.universe.specs.Cells.{live_cells, rule_of};
ghost use Rattle.universe.specs.StaysWithinRoot.{StaysWithinRoot};

use plane::{Bounds, Cell, Refusal};
use rule_text::Rule;
use squares::{Build, Sq, Squares, runs_to_square};
use std::alloc::Global;
use std::process::Abort;
use std::test::Fail;
use std::thread::Threads;
use table_core::Shape;
use universe::Universe;
use worker_split::{OpenGate, Team};

// Live cells as runs: rising, disjoint and in the range.
#[derive(Clone, Copy)]
struct Runs<'a> {
    runs: &'a [(Cell, u64)],
}

impl Build for Runs<'_> {
    ghost live = { λ s. runs_plane s.runs.now };

    ghost is_lawful = { λ s. AreRuns s.runs.now };

    fn build<S: Squares>(&self, alloc: Global, book: &mut S) -> Result<Sq, Refusal> {
        runs_to_square(alloc, book, self.runs)
    }
}

pub(crate) const R_PENTOMINO: [(Cell, u64); 3] = [
    (Cell { x: 1, y: 0 }, 2),
    (Cell { x: 0, y: 1 }, 2),
    (Cell { x: 1, y: 2 }, 1),
];

pub(crate) const GLIDER: [(Cell, u64); 3] = [
    (Cell { x: 1, y: 0 }, 1),
    (Cell { x: 2, y: 1 }, 1),
    (Cell { x: 0, y: 2 }, 3),
];

const ONE_CELL: [(Cell, u64); 1] = [(Cell { x: 0, y: 0 }, 1)];

/// A team of one worker.
pub(crate) fn one_worker<R: AllocGlobal>(rt: &R) -> Team<'_, R, OpenGate> {
    Team {
        runtime: rt,
        alloc: rt.alloc(),
        workers: 1,
        gate: &OpenGate,
    }
}

/// The universe, if so many generations of it stay in the range.
pub(crate) fn in_range(
    alloc: Global,
    mut universe: Universe,
    generations: u64,
) -> Result<Universe, Refusal>
    ensures held { IfOk result
        (λ same. StaysWithinRoot (rule_of same) (live_cells same) generations) }
    ensures short { IfOk result
        (λ same. (IsSame (live_cells same) empty → ⊥) → generations < 2 ^ 63) }
{
    universe.judge_range(alloc, 0, generations)?;
    Ok(universe)
}

// The universe so many generations later.
fn later<R: Threads + Sync + AllocGlobal>(
    rt: &R,
    universe: Universe,
    generations: u64,
) -> Result<Universe, Refusal> {
    in_range(rt.alloc(), universe, generations)?.after(&one_worker(rt), generations)
}

/// Goes on by so many generations, again and again, and asserts the population that each comes to.
pub(crate) fn assert_comes_to<R: Threads + Sync + Abort + AllocGlobal>(
    rt: &R,
    start: Universe,
    reports: &[(u64, u128)],
) -> Result<(), Fail> {
    let mut universe = start;
    for (generations, population) in reports {
        universe = later(rt, universe, *generations)?;
        let count = universe.population(rt.alloc())?;
        assert_eq!(rt; count, *population);
    }
    Ok(())
}

/// The universe of these runs, with so many pair slots at most.
pub(crate) fn of_runs<R: Abort + AllocGlobal>(
    rt: &R,
    rule: &[u8],
    runs: &[(Cell, u64)],
    limit: u32,
) -> Result<Universe, Fail>
    requires { AreRuns runs.now }
{
    assert!(rt; Shape::is_pair_count(limit));
    let rule = Rule::read(rule)?;
    Ok(Universe::of(rt.alloc(), &rule, &Runs { runs }, 0, limit)?)
}

/// Few slots, so that tables grow, are swept and let go, and steps are halved; some; and many.
pub(crate) const LIMITS: [u32; 4] = [4096, 16384, 65536, 4194304];

#[test]
fn r_pentomino_at_some_generations(rt: HostRuntime) -> Result<(), Fail> {
    let reports = [
        (0, 5),
        (1, 6),
        (1, 7),
        (2, 8),
        (60, 69),
        (236, 168),
        (1, 167),
        (802, 116),
    ];
    for limit in LIMITS {
        let start = of_runs(&rt, b"B3/S23", &R_PENTOMINO, limit)?;
        assert_comes_to(&rt, start, &reports)?;
    }
    Ok(())
}

#[test]
fn r_pentomino_at_each_generation(rt: HostRuntime) -> Result<(), Fail> {
    for limit in LIMITS {
        let mut universe = of_runs(&rt, b"B3/S23", &R_PENTOMINO, limit)?;
        for _ in 0..100usize {
            universe = later(&rt, universe, 1)?;
        }
        assert_comes_to(&rt, universe, &[(0, 121)])?;
    }
    Ok(())
}

#[test]
fn glider_far_away(rt: HostRuntime) -> Result<(), Fail> {
    let universe = of_runs(&rt, b"B3/S23", &GLIDER, 4096)?;
    let mut universe = later(&rt, universe, 1 << 40)?;
    let bounds = universe.bounds(rt.alloc())?;
    let far = 1 << 38;
    let there = Bounds {
        left: far,
        top: far,
        right: far + 2,
        bottom: far + 2,
    };
    assert_eq!(rt; bounds, Some(there));
    assert_comes_to(&rt, universe, &[(0, 5), (1 << 38, 5)])
}

#[test]
fn replicator(rt: HostRuntime) -> Result<(), Fail> {
    let start = of_runs(&rt, b"B1357/S1357", &ONE_CELL, 16384)?;
    assert_comes_to(&rt, start, &[(1 << 20, 8), (1, 64)])
}

#[test]
fn tables_are_let_go(rt: HostRuntime) -> Result<(), Fail> {
    let mut universe = of_runs(&rt, b"B3/S23", &GLIDER, 16384)?;
    for exponent in 0..12u32 {
        universe = later(&rt, universe, 1 << exponent)?;
        assert!(rt; universe.pairs() <= 16384);
    }
    assert_eq!(rt; universe.pairs(), 16384);
    assert_comes_to(&rt, universe, &[(0, 5)])
}

#[test]
fn words_at_rest(rt: HostRuntime) -> Result<(), Fail> {
    let universe = of_runs(&rt, b"B3/S23", &R_PENTOMINO, 4096)?;
    let mut universe = later(&rt, universe, 1103)?;
    let bounds = universe.bounds(rt.alloc())?;
    assert_eq!(rt; universe.into_still().bounds(rt.alloc())?, bounds);
    Ok(())
}

#[test]
fn nothing_stays_nothing(rt: HostRuntime) -> Result<(), Fail> {
    let universe = of_runs(&rt, b"B3/S23", &[], 1024)?;
    assert!(rt; universe.is_empty());
    let universe = later(&rt, universe, 1 << 62)?;
    assert!(rt; universe.is_empty());
    Ok(())
}
