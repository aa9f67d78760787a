//! Where a pattern lies, and whether RLE can hold it.

ghost use Rattle.std.specs.Prelude.{◌≡◌, ◌^◌, ◌<◌, ◌≤◌, ◌↔◌, IfOk, IsOk, IsOkUnless, SomeIff};
ghost use Rattle.pattern_writers.specs.Frame.{FitsRle, HasRoom, band_row, frame_of, side};

use plane::{Bounds, Cell, Refusal};

// A box that is written has sides below this.
const RLE_SIDE_LIMIT: u64 = 1 << 31;

/// How many bands the rows of a frame are cut into.
pub(crate) const BANDS: u64 = 64;

/// Where a pattern lies: its upper left corner and its two sides.
#[derive(Clone, Copy)]
pub(crate) struct Frame {
    pub corner: Cell,
    pub width: u64,
    pub height: u64,
}

impl Frame {
    /// The frame of a box, or of no cells. `BoxTooLarge` if a side is 2^31 or more.
    pub(crate) fn of(bounds: Option<Bounds>) -> Result<Self, Refusal>
        ensures frame { IfOk result (λ frame. frame ≡ frame_of bounds) }
        ensures fits { IsOk result ↔ FitsRle bounds }
        ensures too_large { IsOkUnless result Refusal.BoxTooLarge }
    {
        let Some(bounds) = bounds else {
            return Ok(Frame {
                corner: Cell { y: 0, x: 0 },
                width: 0,
                height: 0,
            });
        };
        let (Some(width), Some(height)) = (
            side(bounds.left, bounds.right),
            side(bounds.top, bounds.bottom),
        ) else {
            return Err(Refusal::BoxTooLarge);
        };
        Ok(Frame {
            corner: Cell {
                y: bounds.top,
                x: bounds.left,
            },
            width,
            height,
        })
    }

    /// The row that a band begins with, or the row after the last one.
    pub(crate) fn band_row(self, band: u64) -> i64
        requires band { band ≤ 64 }
        requires room { HasRoom self }
        ensures { result ≡ band_row self band }
    {
        self.corner.y + (self.height * band / BANDS) as i64
    }
}

// How many columns or rows there are from the first to the last, if that is below the limit.
fn side(first: i64, last: i64) -> Option<u64>
    ensures { SomeIff result (side first last < 2 ^ 31) (side first last) }
{
    let steps = last.abs_diff(first);
    if steps < RLE_SIDE_LIMIT - 1 {
        Some(steps + 1)
    } else {
        None
    }
}
