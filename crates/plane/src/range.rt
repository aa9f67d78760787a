//! The range of coordinates and generations, and which runs stay within it.

ghost use Rattle.std.specs.Prelude.{◌≡◌, ◌↔◌, ◌+ℤ◌, ◌-ℤ◌, pos, IsTrue, IfOk, IfErr};
ghost use Rattle.std.specs.Option.{option_map, SomeIff};
ghost use Rattle.plane.specs.Range.{widened, IsBoxInRange, IsCoordinate, StaysWithin};

use crate::cell::Bounds;
use crate::refusal::Refusal;

/// Coordinates lie in `-COORDINATE_LIMIT` to `COORDINATE_LIMIT - 1`.
pub const COORDINATE_LIMIT: i64 = 1 << 62;

/// The last generation that a run may reach.
pub const GENERATION_LIMIT: u64 = 1 << 63;

/// The largest number of live cells in an RLE file.
pub const LIVE_CELL_LIMIT: u64 = 1 << 28;

/// Whether a cell may have this coordinate.
pub fn is_coordinate(z: i64) -> bool
    ensures { IsTrue result ↔ IsCoordinate z }
{
    -COORDINATE_LIMIT <= z && z < COORDINATE_LIMIT
}

// The coordinate at this distance to the left or above, if it is in the range.
fn before(z: i64, by: u64) -> Option<i64>
    ensures { SomeIff result (IsCoordinate (z -ℤ pos by)) (z -ℤ pos by) }
{
    let moved = z.checked_sub_unsigned(by)?;
    if is_coordinate(moved) {
        Some(moved)
    } else {
        None
    }
}

// The coordinate at this distance to the right or below, if it is in the range.
fn behind(z: i64, by: u64) -> Option<i64>
    ensures { SomeIff result (IsCoordinate (z +ℤ pos by)) (z +ℤ pos by) }
{
    let moved = z.checked_add_unsigned(by)?;
    if is_coordinate(moved) {
        Some(moved)
    } else {
        None
    }
}

// The box with so many more cells on each side, if it lies in the range.
fn widen(bounds: Bounds, by: u64) -> Option<Bounds>
    ensures { SomeIff result (IsBoxInRange (widened by bounds)) (widened by bounds) }
{
    Some(Bounds {
        left: before(bounds.left, by)?,
        top: before(bounds.top, by)?,
        right: behind(bounds.right, by)?,
        bottom: behind(bounds.bottom, by)?,
    })
}

/// Judges whether a run stays in the range. Live cells spread by at most one cell a generation, so
/// the answer is the box of the cells, if there are any, widened by one for each generation.
/// `TooFar` if that box leaves the range of coordinates, or if the last generation is above the
/// limit.
pub fn reach(
    bounds: Option<Bounds>,
    start: u64,
    generations: u64,
) -> Result<Option<Bounds>, Refusal>
    ensures ok { IfOk result (λ reached. StaysWithin bounds start generations
        × (reached ≡ option_map (widened generations) bounds)) }
    ensures too_far { IfErr result (λ refusal.
        (refusal ≡ Refusal.TooFar) × ¬ StaysWithin bounds start generations) }
{
    match start.checked_add(generations) {
        Some(last) if last <= GENERATION_LIMIT => match bounds {
            Some(bounds) => match widen(bounds, generations) {
                Some(reached) => Ok(Some(reached)),
                None => Err(Refusal::TooFar),
            },
            None => Ok(None),
        },
        _ => Err(Refusal::TooFar),
    }
}
