//! The first row of a square with a live cell.

ghost use Rattle.std.specs.Prelude.{◌≤◌, ◌^◌};
ghost use Rattle.plane.specs.Centred.{centred};
ghost use Rattle.plane.specs.Square.{bits_plane};
ghost use Rattle.squares.specs.Book.{IsKnown};
ghost use Rattle.squares.specs.declared.sq.TheConstants.{HIGHEST_ROOT_LEVEL};
ghost use Rattle.viewport.specs.Halves.{side_by_side};
ghost use Rattle.viewport.specs.Rows.{IsFirstRow, IsFirstRowBelow};

use crate::sides::{row_at, rows_above, signed_half_side};
use squares::{LEAF_LEVEL, Look, Sq, half_side, side};

/// The first row, from row y on downwards, in which a square of a level up to 63 has a live cell.
/// Empty squares are passed over, so that its time follows what the square has near the rows from y
/// to that one, and not how many rows lie between.
pub fn first_row<B: Look>(book: &B, sq: Sq, y: i64) -> Option<i64>
    requires known { IsKnown (B.book book.now) sq.level sq }
    requires level { sq.level ≤ HIGHEST_ROOT_LEVEL }
    ensures { IsFirstRow (centred sq.level ((B.book book.now).cells sq)) y result }
{
    let half = signed_half_side(sq.level);
    if y >= half {
        return None;
    }
    let from = rows_above(y, half);
    let row = first_row_below(book, sq, from, side(sq.level))?;
    Some(row_at(row, half))
}

// The first row with a live cell among those from `from` to before `end`, counted from the square's
// top.
#[cycle(first_row_below)]
fn first_row_below<B: Look>(book: &B, sq: Sq, from: u64, end: u64) -> Option<u64>
    requires known { IsKnown (B.book book.now) sq.level sq }
    requires level { sq.level ≤ HIGHEST_ROOT_LEVEL }
    ensures { IsFirstRowBelow ((B.book book.now).cells sq) from end result }
{
    if sq.is_empty() || end <= from {
        return None;
    }
    if sq.level == LEAF_LEVEL {
        return first_leaf_row(book.bits(sq), from, end);
    }
    let half = half_side(sq.level);
    let [nw, ne, sw, se] = book.parts(sq);
    let upper = first_row_beside(book, nw, ne, from, end.min(half));
    if upper.is_some() {
        return upper;
    }
    let from = from.saturating_sub(half);
    let end = end.saturating_sub(half);
    let lower = first_row_beside(book, sw, se, from, end)?;
    Some(lower + half)
}

// The same of two squares beside one another.
#[cycle(first_row_below)]
fn first_row_beside<B: Look>(book: &B, left: Sq, right: Sq, from: u64, end: u64) -> Option<u64>
    requires left { IsKnown (B.book book.now) left.level left }
    requires right { IsKnown (B.book book.now) left.level right }
    requires level { left.level ≤ HIGHEST_ROOT_LEVEL }
    ensures { IsFirstRowBelow (side_by_side (2 ^ left.level)
        ((B.book book.now).cells left) ((B.book book.now).cells right)) from end result }
{
    let found = first_row_below(book, left, from, end);
    first_row_below(book, right, from, found.unwrap_or(end)).or(found)
}

// The first row of a leaf with a live cell among those from `from` to before `end`.
fn first_leaf_row(word: u64, from: u64, end: u64) -> Option<u64>
    ensures { IsFirstRowBelow (bits_plane word) from end result }
{
    if from >= 8 {
        return None;
    }
    let rest = word >> (8 * from);
    if rest == 0 {
        return None;
    }
    let row = from + u64::from(rest.trailing_zeros() / 8);
    if row < end { Some(row) } else { None }
}
