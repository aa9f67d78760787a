//! The row of leaves that the spans of eight rows of cells make.

ghost use Rattle.std.specs.Prelude.{◌≡◌, ◌+◌, ◌*◌, ◌^◌, ◌<◌, ◌≤◌, ◌==◌, ◌&&◌, ℕ, IfErr, IfOk, IfSome, length, slice_get};
ghost use Rattle.std.specs.List.{AllByRecursion};
ghost use Rattle.plane.specs.Square.{bit};
ghost use Rattle.squares.specs.Book.{AddsSquares, LacksMemoryOr, MayRefuse};
ghost use Rattle.squares.specs.Spans.{in_spans, marked};
ghost use Rattle.squares.specs.SquareRows.{IsRow};
ghost use Rattle.squares.specs.Strips.{AreInOrder, ArePassed, ArePassedIn, EndsBefore, IsSameUpTo};

use crate::book::Squares;
use crate::spans::Span;
use crate::square_rows::Segment;
use plane::Refusal;
use std::alloc::Global;

// The cells of a leaf, and the column up to which each leaf of the strip has the same.
#[derive(Clone, Copy)]
struct LeafColumn {
    word: u64,
    end: u64,
}

// How many spans lie above the row, or in it and before this cell, where so many do.
fn pass_spans(spans: &[Span], from: usize, row: u64, left: u64) -> usize
    requires within { from ≤ length spans.now }
    requires passed { ArePassed spans.now from row left }
    ensures within { result ≤ length spans.now }
    ensures passed { ArePassed spans.now result row left }
    ensures next { IfSome (slice_get spans.now result) (λ span. ¬ EndsBefore row left span) }
{
    let mut at = from;
    while at < spans.len() && spans[at].ends_before(row, left) {
        at += 1;
    }
    at
}

// The bits of the row's cells in the leaf that begins so far to the right and down.
fn row_bits(spans: &[Span], row: u64, left: u64, top: u64) -> u64
    requires order { AreInOrder spans.now }
    requires rows { AllByRecursion (λ span. row ≤ span.row) spans.now }
    requires wide { left + 8 < 2 ^ 64 }
    requires tall { top + 8 < 2 ^ 64 }
    ensures { (x y : ℕ) → x < 8 → y < 8 →
        bit result (8 * y + x) ≡ ((y + top == row) && in_spans spans.now (x + left) row) }
{
    let mut word = 0;
    for span in spans {
        if span.begins_behind(row, left + 7) {
            break;
        }
        word |= span.bits_in(left, top);
    }
    word
}

// The column up to which each leaf has the same cells of the row as the one in this column.
fn same_up_to(spans: &[Span], row: u64, column: u64) -> u64
    requires order { AreInOrder spans.now }
    requires next { IfSome (slice_get spans.now 0) (λ span. ¬ EndsBefore row (8 * column) span) }
    requires wide { 8 * column + 8 < 2 ^ 64 }
    ensures behind { column < result }
    ensures same { IsSameUpTo spans.now row column result }
{
    if spans.is_empty() {
        return u64::MAX;
    }
    let span = spans[0];
    if span.row > row {
        return u64::MAX;
    }
    let end = if span.first > 8 * column {
        span.first / 8
    } else {
        span.end / 8
    };
    end.max(column + 1)
}

// The leaf in a column of the strip of eight rows that begins at `top`. Of each row, so many spans
// as `passed` says end before the column.
fn leaf_column(spans: &[Span], passed: &mut [usize; 8], top: u64, column: u64) -> LeafColumn
    requires order { AreInOrder spans.now }
    requires wide { 8 * column + 8 < 2 ^ 64 }
    requires tall { top + 8 < 2 ^ 64 }
    requires passed { ArePassedIn spans.now passed.old top column }
    ensures word { (x y : ℕ) → x < 8 → y < 8 →
        bit result.word (8 * y + x) ≡ in_spans spans.now (x + 8 * column) (y + top) }
    ensures behind { column < result.end }
    ensures same { (y : ℕ) → y < 8 → IsSameUpTo spans.now (y + top) column result.end }
    ensures passed { ArePassedIn spans.now passed.new top column }
{
    let left = 8 * column;
    let mut word = 0;
    let mut end = u64::MAX;
    for y in 0..8 {
        let row = y as u64 + top;
        let count = pass_spans(spans, passed[y], row, left);
        passed[y] = count;
        let rest = &spans[count..];
        word |= row_bits(rest, row, left, top);
        end = end.min(same_up_to(rest, row, column));
    }
    LeafColumn { word, end }
}

/// The row of the leaves of the strip of eight rows that begins at `top`.
pub(crate) fn leaf_row<S: Squares>(
    alloc: Global,
    book: &mut S,
    spans: &[Span],
    top: u64,
    width: u64,
) -> Result<Vec<Segment>, Refusal>
    requires order { AreInOrder spans.now }
    requires wide { width ≤ 2 ^ 60 }
    requires tall { top + 8 < 2 ^ 64 }
    ensures ok { IfOk result (λ row.
        IsRow (S.book book.new) 3 width top (marked (in_spans spans.now)) row.items) }
    ensures refusal { IfErr result (LacksMemoryOr (MayRefuse (S.book book.new))) }
    ensures adds { AddsSquares (S.book book.old) (S.book book.new) }
{
    let mut row = Vec::new(alloc);
    let mut passed = [0; 8];
    let mut column = 0;
    while column < width {
        let leaf = leaf_column(spans, &mut passed, top, column);
        let end = leaf.end.min(width);
        let sq = book.leaf(leaf.word)?;
        row.push(Segment { end, sq })?;
        column = end;
    }
    Ok(row)
}
