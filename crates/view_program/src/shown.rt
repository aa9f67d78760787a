//! The rectangle of cells that is shown.

ghost use Rattle.std.specs.Prelude.{◌≡◌, IfErr, IfOk};
ghost use Rattle.std.specs.Option.{SomeIff};
ghost use Rattle.pattern_picture.specs.Scale.{IsShownSide};
ghost use Rattle.program_parts.specs.WindowText.{HasNoWindow, IsWindowOf, rectangle_of};
ghost use Rattle.view_program.specs.Shown.{CanBeShown, last_of, rectangle_shown, sides_of};

use plane::{Bounds, Refusal};
use program_parts::WindowNumbers;

// Sides of a rectangle that is shown lie from -SIDE_LIMIT to SIDE_LIMIT.
const SIDE_LIMIT: i64 = 1 << 62;

/// The sides of the window that has these numbers, if one is asked for. `WindowTooLarge` where it
/// has no cells, or a side that is too far away.
pub(crate) fn window_asked(numbers: Option<WindowNumbers>) -> Result<Option<Bounds>, Refusal>
    ensures ok { IfOk result (IsWindowOf CanBeShown sides_of numbers) }
    ensures err { IfErr result (λ refusal.
        (refusal ≡ Refusal.WindowTooLarge) × HasNoWindow CanBeShown numbers) }
{
    let Some(numbers) = numbers else {
        return Ok(None);
    };
    match sides(numbers) {
        Some(sides) => Ok(Some(sides)),
        None => Err(Refusal::WindowTooLarge),
    }
}

// The sides of the window that has these numbers, if it can be shown.
fn sides(numbers: WindowNumbers) -> Option<Bounds>
    ensures { SomeIff result (CanBeShown (rectangle_of numbers))
        (sides_of (rectangle_of numbers)) }
{
    Some(Bounds {
        left: numbers.x,
        top: numbers.y,
        right: last_of(numbers.x, numbers.width)?,
        bottom: last_of(numbers.y, numbers.height)?,
    })
}

// The last of so many coordinates from the first on, if there are any, and all can be shown.
fn last_of(first: i64, count: u64) -> Option<i64>
    ensures { SomeIff result (IsShownSide first (last_of first count)) (last_of first count) }
{
    if first < -SIDE_LIMIT {
        return None;
    }
    let last = first.checked_add_unsigned(count.checked_sub(1)?)?;
    if last <= SIDE_LIMIT { Some(last) } else { None }
}

/// The rectangle that is shown: the window, else the bounding box, else the cell (0,0).
pub(crate) fn rectangle_shown(window: Option<Bounds>, bounds: Option<Bounds>) -> Bounds
    ensures { result ≡ rectangle_shown window bounds }
{
    window.or(bounds).unwrap_or(ORIGIN)
}

// The cell (0,0).
const ORIGIN: Bounds = Bounds {
    left: 0,
    top: 0,
    right: 0,
    bottom: 0,
};
