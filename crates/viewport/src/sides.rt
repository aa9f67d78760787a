//! The sides of squares, and where a column or a row lies in one.

ghost use Rattle.std.specs.Prelude.{◌≡◌, ◌≤◌, ◌<◌, ◌-◌, ◌^◌, pos, ◌+ℤ◌, ◌-ℤ◌, ◌≤ℤ◌, ◌<ℤ◌};
ghost use Rattle.std.specs.Int.{int_max};
ghost use Rattle.viewport.specs.Offsets.{IsOffsetIn};
ghost use Rattle.squares.specs.declared.sq.TheConstants.{HIGHEST_ROOT_LEVEL};

use squares::half_side;

/// Half the side of a square of this level, as a coordinate.
pub(crate) fn signed_half_side(level: u8) -> i64
    requires low { 1 ≤ level }
    requires high { level ≤ HIGHEST_ROOT_LEVEL }
    ensures side { result ≡ pos (2 ^ (level - 1)) }
    ensures small { 2 ^ (level - 1) ≤ 2 ^ 62 }
{
    half_side(level) as i64
}

/// How far a column or a row lies from the left side or from the top of a square of this level, if
/// the square has it.
pub(crate) fn offset_in(z: i64, level: u8) -> Option<u64>
    requires low { 1 ≤ level }
    requires high { level ≤ HIGHEST_ROOT_LEVEL }
    ensures { IsOffsetIn level z result }
{
    let half = signed_half_side(level);
    if z < -half || z >= half {
        return None;
    }
    Some((z + half) as u64)
}

/// How many rows lie above row y, from the top on.
pub(crate) fn rows_above(y: i64, half: i64) -> u64
    requires low { pos 0 ≤ℤ half }
    requires high { half ≤ℤ pos (2 ^ 62) }
    requires below { y <ℤ half }
    ensures { pos result ≡ int_max (pos 0) (y +ℤ half) }
{
    if y < -half { 0 } else { (y + half) as u64 }
}

/// The row that has so many rows above it, counted from (0,0).
pub(crate) fn row_at(row: u64, half: i64) -> i64
    requires low { pos 0 ≤ℤ half }
    requires high { half ≤ℤ pos (2 ^ 62) }
    requires row { row < 2 ^ 63 }
    ensures { result ≡ pos row -ℤ half }
{
    row as i64 - half
}
