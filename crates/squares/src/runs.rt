//! The square of some runs of live cells, or of a set of cells.

ghost use Rattle.std.specs.Prelude.{◌≡◌, ◌-◌, ◌^◌, ◌≤◌, ◌↔◌, ℕ, IfOk, IfErr, map};
ghost use Rattle.std.specs.List.{AllByRecursion};
ghost use Rattle.std.specs.List.Sorted.{IsPermutation};
ghost use Rattle.plane.specs.Centred.{IsSmallestLevel};
ghost use Rattle.plane.specs.CellSet.{IsCellSet};
ghost use Rattle.plane.specs.Listing.{plane_of};
ghost use Rattle.plane.specs.Runs.{IsRun, runs_plane};
ghost use Rattle.squares.specs.Book.{AddsSquares, LacksMemoryOr, MayRefuse};
ghost use Rattle.squares.specs.Roots.{IsRootOf};
ghost use Rattle.squares.specs.Spans.{FitsInRoot, single_run};
ghost use Rattle.squares.specs.Strips.{AreInReadingOrder};

use crate::book::Squares;
use crate::spans::distance;
use crate::sq::{HIGHEST_ROOT_LEVEL, Sq, half_side, level_around};
use crate::strips::{RunSequence, ordered_runs_to_square};
use plane::{Cell, CellSet, Refusal};
use std::alloc::{AllocError, Global};

// How far the run goes from (0,0), to the left, to the right, up or down.
fn reach(run: (Cell, u64)) -> u64
    requires { IsRun run }
    ensures range { result ≤ 2 ^ 62 }
    ensures fits { (half : ℕ) → FitsInRoot half run ↔ (result ≤ half) }
{
    let (cell, count) = run;
    let far = half_side(HIGHEST_ROOT_LEVEL);
    let (x, y) = (distance(cell.x, far), distance(cell.y, far));
    let across = u64::max(far.saturating_sub(x), (x + count).saturating_sub(far));
    let down = u64::max(far.saturating_sub(y), (y + 1).saturating_sub(far));
    across.max(down)
}

// How far the runs go from (0,0).
fn reach_of_all(runs: &[(Cell, u64)]) -> u64
    requires { AllByRecursion IsRun runs.now }
    ensures range { result ≤ 2 ^ 62 }
    ensures fit { (half : ℕ) → AllByRecursion (FitsInRoot half) runs.now ↔ (result ≤ half) }
{
    let mut farthest = 0;
    for run in runs {
        farthest = u64::max(farthest, reach(*run));
    }
    farthest
}

// The smallest level of at least 4 whose square around (0,0) has all the runs.
fn smallest_level(runs: &[(Cell, u64)]) -> u8
    requires { AllByRecursion IsRun runs.now }
    ensures smallest { IsSmallestLevel result (runs_plane runs.now) }
    ensures fits { AllByRecursion (FitsInRoot (2 ^ (result - 1))) runs.now }
    ensures high { result ≤ HIGHEST_ROOT_LEVEL }
{
    level_around(reach_of_all(runs))
}

// The runs in the order of reading.
fn sorted_runs(alloc: Global, runs: &[(Cell, u64)]) -> Result<Vec<(Cell, u64)>, AllocError>
    ensures order { IfOk result (λ sorted. AreInReadingOrder sorted.items) }
    ensures same { IfOk result (λ sorted. IsPermutation runs.now sorted.items) }
{
    let mut sorted = Vec::new(alloc);
    sorted.extend_from_slice(runs)?;
    sorted.sort()?;
    Ok(sorted)
}

// Runs of a slice that are left.
#[derive(Drop)]
struct SliceRuns<'a> {
    runs: &'a [(Cell, u64)],
}

impl RunSequence for SliceRuns<'_> {
    ghost left = { λ slice. slice.runs.now };

    fn next_run(&mut self) -> Option<(Cell, u64)> {
        let (first, rest) = self.runs.split_first()?;
        self.runs = rest;
        Some(*first)
    }
}

/// The square of the runs' cells, at the smallest level of at least 4 around (0,0): a square of
/// level n has the cells from -2^(n-1) to 2^(n-1) - 1, so the level is at most 63. `NoMemory` where
/// memory ran out, and what the book refuses.
pub fn runs_to_square<S: Squares>(
    alloc: Global,
    book: &mut S,
    runs: &[(Cell, u64)],
) -> Result<Sq, Refusal>
    requires { AllByRecursion IsRun runs.now }
    ensures ok { IfOk result (IsRootOf (S.book book.new) (runs_plane runs.now)) }
    ensures high { IfOk result (λ sq. sq.level ≤ HIGHEST_ROOT_LEVEL) }
    ensures refusal { IfErr result (LacksMemoryOr (MayRefuse (S.book book.new))) }
    ensures adds { AddsSquares (S.book book.old) (S.book book.new) }
{
    let sorted = sorted_runs(alloc, runs)?;
    let level = smallest_level(&sorted);
    ordered_runs_to_square(alloc, book, SliceRuns { runs: &sorted }, level)
}

// Each cell of the set as a run.
fn runs_of(alloc: Global, cells: &CellSet) -> Result<Vec<(Cell, u64)>, AllocError>
    ensures ok { IfOk result (λ runs. runs.items ≡ map single_run cells.now) }
    ensures set { IsCellSet cells.now }
{
    let mut runs = Vec::new(alloc);
    for cell in cells.iter() {
        runs.push((*cell, 1))?;
    }
    Ok(runs)
}

/// The square of the set's cells, at the smallest level of at least 4 around (0,0), so at most 63.
/// `NoMemory` where memory ran out, and what the book refuses.
pub fn cells_to_square<S: Squares>(
    alloc: Global,
    book: &mut S,
    cells: &CellSet,
) -> Result<Sq, Refusal>
    ensures ok { IfOk result (IsRootOf (S.book book.new) (plane_of cells.now)) }
    ensures high { IfOk result (λ sq. sq.level ≤ HIGHEST_ROOT_LEVEL) }
    ensures refusal { IfErr result (LacksMemoryOr (MayRefuse (S.book book.new))) }
    ensures adds { AddsSquares (S.book book.old) (S.book book.new) }
{
    let runs = runs_of(alloc, cells)?;
    runs_to_square(alloc, book, &runs)
}
