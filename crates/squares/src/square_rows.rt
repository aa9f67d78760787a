//! Rows of squares of one level, and the row that two of them make.

ghost use Rattle.std.specs.Prelude.{◌≡◌, [], ◌∷◌, ◌+◌, ◌*◌, ◌^◌, ◌<◌, ◌≤◌, ℕ, IfErr, IfOk, IfSome, length, slice_get, take};
ghost use Rattle.std.specs.List.{AllByRecursion};
ghost use Rattle.squares.specs.Book.{AddsSquares, LacksMemoryOr, MayRefuse, numbered};
ghost use Rattle.squares.specs.SquareRows.{AreQuartersIn, ArePassedBy, EndsBy, HasColumns, HaveQuarters, IsJoined, square_at};

use crate::book::Squares;
use crate::sq::Sq;
use plane::Refusal;
use std::alloc::{AllocError, Global};

/// One square again and again, from the end of the segment before up to this column, which is not
/// one of them. Columns are counted from the left, in squares of the row's level.
#[derive(Clone, Copy)]
pub(crate) struct Segment {
    pub(crate) end: u64,
    pub(crate) sq: Sq,
}

// The quarters of the square in a column, and the column up to which each square has the same.
#[derive(Clone, Copy)]
struct SquareColumn {
    quarters: [Sq; 4],
    end: u64,
}

// The index of the segment that has the column, where those before `from` end before it.
fn index_at(row: &[Segment], from: usize, column: u64) -> usize
    requires within { from ≤ length row.now }
    requires columns { HasColumns (column + 1) row.now }
    requires passed { AllByRecursion (EndsBy column) (take from row.now) }
    ensures within { result < length row.now }
    ensures passed { AllByRecursion (EndsBy column) (take result row.now) }
    ensures behind { IfSome (slice_get row.now result) (λ segment. column < segment.end) }
{
    let mut at = from;
    while row[at].end <= column {
        at += 1;
    }
    at
}

/// The square in a column that the row has.
pub(crate) fn square_at(row: &[Segment], column: u64) -> Sq
    requires { HasColumns (column + 1) row.now }
    ensures { square_at row.now column ≡ Some result }
{
    row[index_at(row, 0, column)].sq
}

// The quarters of the square in a column of the row that two rows make. In both, the segments
// before `from` end before these quarters.
fn square_column(
    upper: &[Segment],
    lower: &[Segment],
    from: &mut [usize; 2],
    column: u64,
) -> SquareColumn
    requires wide { 2 * column + 2 < 2 ^ 64 }
    requires upper { HasColumns (2 * column + 2) upper.now }
    requires lower { HasColumns (2 * column + 2) lower.now }
    requires passed { ArePassedBy upper.now lower.now from.old column }
    ensures behind { column < result.end }
    ensures quarters { (other : ℕ) → column ≤ other → other < result.end →
        AreQuartersIn upper.now lower.now other result.quarters }
    ensures passed { ArePassedBy upper.now lower.now from.new (column + 1) }
{
    let left = 2 * column;
    let nw = index_at(upper, from[0], left);
    let ne = index_at(upper, nw, left + 1);
    let sw = index_at(lower, from[1], left);
    let se = index_at(lower, sw, left + 1);
    *from = [ne, se];
    let same = upper[nw].end.min(lower[sw].end) / 2;
    SquareColumn {
        quarters: [upper[nw].sq, upper[ne].sq, lower[sw].sq, lower[se].sq],
        end: same.max(column + 1),
    }
}

/// The row of the squares that two rows of squares make, one above the other.
pub(crate) fn join_rows<S: Squares>(
    alloc: Global,
    book: &mut S,
    upper: &[Segment],
    lower: &[Segment],
    width: u64,
) -> Result<Vec<Segment>, Refusal>
    requires wide { width ≤ 2 ^ 60 }
    requires quarters { HaveQuarters (S.book book.old) width upper.now lower.now }
    ensures ok { IfOk result (λ row.
        IsJoined (S.book book.old) (S.book book.new) upper.now lower.now width row.items) }
    ensures refusal { IfErr result (LacksMemoryOr (MayRefuse (S.book book.new))) }
    ensures adds { AddsSquares (S.book book.old) (S.book book.new) }
{
    let mut row = Vec::new(alloc);
    let mut from = [0; 2];
    let mut column = 0;
    while column < width {
        let next = square_column(upper, lower, &mut from, column);
        let end = next.end.min(width);
        let sq = book.quad(next.quarters)?;
        row.push(Segment { end, sq })?;
        column = end;
    }
    Ok(row)
}

/// The row of empty squares of this level.
pub(crate) fn empty_row(alloc: Global, level: u8, width: u64) -> Result<Vec<Segment>, AllocError>
    ensures { IfOk result (λ row. row.items ≡ record { end = width; sq = numbered level 0 } ∷ []) }
{
    let mut row = Vec::new(alloc);
    row.push(Segment {
        end: width,
        sq: Sq::empty(level),
    })?;
    Ok(row)
}
