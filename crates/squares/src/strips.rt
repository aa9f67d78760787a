//! The square of runs that come in the order of reading, made of rows of squares.

ghost use Rattle.std.specs.Prelude.{◌≡◌, ◌↔◌, ◌≤◌, ◌+◌, ◌*◌, ◌-◌, ◌^◌, ℕ, List, [], ◌∷◌, map, IfErr, IfOk, IsTrue, MatchOption, OnOk, ⊤};
ghost use Rattle.std.specs.List.{AllByRecursion};
ghost use Rattle.plane.specs.Runs.{runs_plane};
ghost use Rattle.plane.specs.Square.{IsSame};
ghost use Rattle.plane.specs.declared.cell.Cell.{Cell as LiveCell};
ghost use Rattle.squares.specs.declared.sq.TheConstants.{HIGHEST_ROOT_LEVEL};
ghost use Rattle.squares.specs.Book.{AddsSquares, IsKnown, LacksMemoryOr, MayRefuse};
ghost use Rattle.squares.specs.Roots.{square_plane};
ghost use Rattle.squares.specs.Spans.{FitsInRoot, in_spans, marked, span_of};
ghost use Rattle.squares.specs.SquareRows.{IsRow};
ghost use Rattle.squares.specs.Strips.{AreInReadingOrder, AreLeft, AreTaken, IsTaken, spans_left};

use crate::book::Squares;
use crate::leaf_rows::leaf_row;
use crate::spans::Span;
use crate::sq::{Sq, half_side, side};
use crate::square_rows::{Segment, empty_row, join_rows, square_at};
use plane::{Cell, LEAF_LEVEL, Refusal};
use std::alloc::{AllocError, Global};

/// Runs of live cells, one after the other.
pub trait RunSequence {
    // The runs that are left.
    ghost left: { Self → List (LiveCell × ℕ) };

    /// The next run: its first cell, and how many cells it has from there to the right.
    fn next_run(&mut self) -> Option<(Cell, u64)>
        ensures { MatchOption result
            ((left self.old ≡ []) × (left self.new ≡ []))
            (λ run. left self.old ≡ run ∷ left self.new) };
}

// The spans of the runs that are left, of which the next one is known.
#[derive(Drop)]
struct Strips<R> {
    half: u64,
    next: Option<Span>,
    runs: R,
}

// The span of the next run in a square of this half side around (0,0).
fn next_span<R: RunSequence>(runs: &mut R, half: u64) -> Option<Span>
    requires half { half ≤ 2 ^ 62 }
    requires fit { AllByRecursion (FitsInRoot half) (R.left runs.old) }
    ensures fit { AllByRecursion (FitsInRoot half) (R.left runs.new) }
    ensures ended { result ≡ None → R.left runs.new ≡ [] }
    ensures spans { spans_left half result (R.left runs.new) ≡ map (span_of half) (R.left runs.old) }
{
    let run = runs.next_run()?;
    Some(Span::of(run, half))
}

// The next spans that lie above this row.
fn take_spans<R: RunSequence + Drop>(
    alloc: Global,
    strips: &mut Strips<R>,
    bottom: u64,
) -> Result<Vec<Span>, AllocError>
    requires left { AreLeft strips.old.half 0 strips.old.next (R.left strips.old.runs) }
    ensures left { OnOk result
        (AreLeft strips.new.half bottom strips.new.next (R.left strips.new.runs)) }
    ensures taken { IfOk result (λ spans. IsTaken bottom
        (spans_left strips.old.half strips.old.next (R.left strips.old.runs))
        (spans_left strips.new.half strips.new.next (R.left strips.new.runs)) spans.items) }
{
    let mut spans = Vec::new(alloc);
    while let Some(span) = strips.next {
        if span.row >= bottom {
            break;
        }
        spans.push(span)?;
        strips.next = next_span(&mut strips.runs, strips.half);
    }
    Ok(spans)
}

// Whether there is no next span, or it lies in the row or below.
fn lies_below(next: Option<Span>, row: u64) -> bool
    ensures { IsTrue result ↔ MatchOption next ⊤ (λ span. row ≤ span.row) }
{
    match next {
        Some(span) => row <= span.row,
        None => true,
    }
}

// The row of the squares of this level whose first row of cells is `top`.
fn strip_row<S: Squares, R: RunSequence + Drop>(
    alloc: Global,
    book: &mut S,
    strips: &mut Strips<R>,
    level: u8,
    top: u64,
    width: u64,
) -> Result<Vec<Segment>, Refusal>
    requires level { (3 ≤ level) × (level ≤ HIGHEST_ROOT_LEVEL) }
    requires tall { top + 2 ^ level ≤ 2 ^ HIGHEST_ROOT_LEVEL }
    requires wide { width ≤ 2 ^ (HIGHEST_ROOT_LEVEL - level) }
    requires left { AreLeft strips.old.half top strips.old.next (R.left strips.old.runs) }
    ensures ok { IfOk result (λ row. IsRow (S.book book.new) level width top
        (marked (in_spans (spans_left strips.old.half strips.old.next (R.left strips.old.runs))))
        row.items) }
    ensures left { OnOk result (AreLeft strips.new.half (top + 2 ^ level) strips.new.next
        (R.left strips.new.runs)) }
    ensures taken { OnOk result (AreTaken (top + 2 ^ level)
        (spans_left strips.old.half strips.old.next (R.left strips.old.runs))
        (spans_left strips.new.half strips.new.next (R.left strips.new.runs))) }
    ensures refusal { IfErr result (LacksMemoryOr (MayRefuse (S.book book.new))) }
    ensures adds { AddsSquares (S.book book.old) (S.book book.new) }
{
    let bottom = top + side(level);
    if lies_below(strips.next, bottom) {
        return Ok(empty_row(alloc, level, width)?);
    }
    if level == LEAF_LEVEL {
        let spans = take_spans(alloc, strips, bottom)?;
        return leaf_row(alloc, book, &spans, top, width);
    }
    let middle = top + half_side(level);
    let upper = strip_row(alloc, book, strips, level - 1, top, 2 * width)?;
    let lower = strip_row(alloc, book, strips, level - 1, middle, 2 * width)?;
    join_rows(alloc, book, &upper, &lower, width)
}

/// The square of this level around (0,0) that has the cells of the runs, which come in the order of
/// reading. Runs may share cells. `NoMemory` where memory ran out, and what the book refuses.
pub fn ordered_runs_to_square<S: Squares, R: RunSequence + Drop>(
    alloc: Global,
    book: &mut S,
    mut runs: R,
    level: u8,
) -> Result<Sq, Refusal>
    requires level { (4 ≤ level) × (level ≤ HIGHEST_ROOT_LEVEL) }
    requires fit { AllByRecursion (FitsInRoot (2 ^ (level - 1))) (R.left runs) }
    requires order { AreInReadingOrder (R.left runs) }
    ensures known { IfOk result (IsKnown (S.book book.new) level) }
    ensures cells { IfOk result (λ sq.
        IsSame (square_plane (S.book book.new) sq) (runs_plane (R.left runs))) }
    ensures refusal { IfErr result (LacksMemoryOr (MayRefuse (S.book book.new))) }
    ensures adds { AddsSquares (S.book book.old) (S.book book.new) }
{
    let half = half_side(level);
    let next = next_span(&mut runs, half);
    let mut strips = Strips { half, next, runs };
    let row = strip_row(alloc, book, &mut strips, level, 0, 1)?;
    Ok(square_at(&row, 0))
}
