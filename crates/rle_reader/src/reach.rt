//! How far from 0 the cells of a pattern lie.

ghost use Rattle.std.specs.Prelude.{◌⊎◌, pos, neg_ℤ, ◌^◌, ◌≤ℤ◌, ◌<ℤ◌, ◌≤◌};
ghost use Rattle.plane.specs.Limits.{coordinate_limit};
ghost use Rattle.plane.specs.Range.{IsInRange};
ghost use Rattle.rle_reader.specs.Range.{IsWithinReach};

use plane::{COORDINATE_LIMIT, Cell};

/// The half side of a square around (0, 0) in which the cells lie that are neither left of this
/// corner nor above it, in columns up to the one before `right` and in rows of the range up to
/// `row`.
pub(crate) fn reach_of(corner: Cell, right: i64, row: i64) -> u64
    requires corner { IsInRange corner }
    requires right { IsWithinReach right }
    requires row { IsWithinReach row }
    ensures bound { result ≤ 2 ^ 62 }
    ensures left { neg_ℤ (pos result) ≤ℤ corner.x }
    ensures top { neg_ℤ (pos result) ≤ℤ corner.y }
    ensures right { right ≤ℤ pos result }
    ensures bottom { (row <ℤ pos result) ⊎ (coordinate_limit ≤ℤ pos result) }
{
    let bottom = row_behind(row);
    let left = farther(0, corner.x);
    let top = farther(left, corner.y);
    farther(farther(top, right), bottom)
}

/// The column that is farther to the right.
pub(crate) fn rightmost(column: i64, other: i64) -> i64
    requires column { IsWithinReach column }
    requires other { IsWithinReach other }
    ensures within { IsWithinReach result }
    ensures column { column ≤ℤ result }
    ensures other { other ≤ℤ result }
{
    if column < other { other } else { column }
}

// The row behind this one, or the limit if that is nearer.
fn row_behind(row: i64) -> i64
    requires { IsWithinReach row }
    ensures within { IsWithinReach result }
    ensures behind { (row <ℤ result) ⊎ (coordinate_limit ≤ℤ result) }
{
    if row < COORDINATE_LIMIT { row + 1 } else { row }
}

// How far from 0 the coordinate is, or a number that is larger.
fn farther(number: u64, coordinate: i64) -> u64
    requires number { number ≤ 2 ^ 62 }
    requires coordinate { IsWithinReach coordinate }
    ensures bound { result ≤ 2 ^ 62 }
    ensures more { number ≤ result }
    ensures low { neg_ℤ (pos result) ≤ℤ coordinate }
    ensures high { coordinate ≤ℤ pos result }
{
    number.max(coordinate.unsigned_abs())
}
