//! Live cells of one row of a square, counted from its upper left corner, and what a leaf has of
//! them.

ghost use Rattle.std.specs.Prelude.{◌≡◌, ℕ, ◌+◌, ◌*◌, ◌^◌, ◌<◌, ◌≤◌, ◌↔◌, IsTrue, false, MatchOption, pos, ◌+ℤ◌, ◌-ℤ◌, ◌≤ℤ◌, ◌<ℤ◌, unsigned_abs};
ghost use Rattle.plane.specs.Square.{bit};
ghost use Rattle.squares.specs.Strips.{BeginsBehind, EndsBefore};
ghost use Rattle.squares.specs.Spans.{FitsInRoot, in_span, span_of};

use plane::Cell;

/// Live cells of one row of a square, from the first up to the end, which is not one of them. Rows
/// and cells are counted from the square's upper left corner.
#[derive(Clone, Copy)]
pub(crate) struct Span {
    pub(crate) row: u64,
    pub(crate) first: u64,
    pub(crate) end: u64,
}

/// The distance of a coordinate from the left or upper side of a square of this half side round
/// (0,0).
pub(crate) fn distance(coordinate: i64, half: u64) -> u64
    requires half { half ≤ 2 ^ 62 }
    requires low { (pos 0 -ℤ pos half) ≤ℤ coordinate }
    requires high { coordinate <ℤ pos (2 ^ 62) }
    ensures sum { pos result ≡ coordinate +ℤ pos half }
    ensures value { result ≡ unsigned_abs (coordinate +ℤ pos half) }
{
    (coordinate + half as i64) as u64
}

impl Span {
    /// The run, counted from a corner so far to the left of and above (0,0).
    pub(crate) fn of(run: (Cell, u64), half: u64) -> Self
        requires half { half ≤ 2 ^ 62 }
        requires fits { FitsInRoot half run }
        ensures { result ≡ span_of half run }
    {
        let (cell, count) = run;
        let first = distance(cell.x, half);
        Span {
            row: distance(cell.y, half),
            first,
            end: first + count,
        }
    }

    // What the part of a square has of the span, counted from the part's upper left corner.
    fn clip(self, left: u64, top: u64, side: u64) -> Option<Span>
        requires wide { left + side < 2 ^ 64 }
        requires tall { top + side < 2 ^ 64 }
        ensures { MatchOption result
            ((x y : ℕ) → x < side → y < side → in_span (x + left) (y + top) self ≡ false)
            (λ part. (x y : ℕ) → x < side → y < side →
            in_span x y part ≡ in_span (x + left) (y + top) self) }
    {
        if self.row < top
            || top + side <= self.row
            || self.end <= left
            || left + side <= self.first
        {
            return None;
        }
        Some(Span {
            row: self.row - top,
            first: self.first.saturating_sub(left),
            end: self.end - left,
        })
    }

    /// Whether it lies above the row, or in it and before this cell.
    pub(crate) fn ends_before(self, row: u64, left: u64) -> bool
        ensures { IsTrue result ↔ EndsBefore row left self }
    {
        self.row < row || self.row == row && self.end <= left
    }

    /// Whether it lies below the row, or in it and behind this cell.
    pub(crate) fn begins_behind(self, row: u64, last: u64) -> bool
        ensures { IsTrue result ↔ BeginsBehind row last self }
    {
        self.row > row || self.row == row && self.first > last
    }

    /// The bits of the cells that it has of the leaf that begins so far to the right and down.
    pub(crate) fn bits_in(self, left: u64, top: u64) -> u64
        requires wide { left + 8 < 2 ^ 64 }
        requires tall { top + 8 < 2 ^ 64 }
        ensures { (x y : ℕ) → x < 8 → y < 8 →
            bit result (8 * y + x) ≡ in_span (x + left) (y + top) self }
    {
        match self.clip(left, top, 8) {
            Some(part) => part.bits(),
            None => 0,
        }
    }

    // The bits of the cells that it has of a leaf.
    fn bits(self) -> u64
        ensures { (x y : ℕ) → x < 8 → y < 8 → bit result (8 * y + x) ≡ in_span x y self }
    {
        let end = self.end.min(8);
        if self.row >= 8 || self.first >= end {
            return 0;
        }
        let ones = (1u64 << (end - self.first)) - 1;
        ones << (8 * self.row + self.first)
    }
}
