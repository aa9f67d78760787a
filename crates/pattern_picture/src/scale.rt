//! At what scale a picture shows a rectangle of cells.

ghost use Rattle.std.specs.Prelude.{◌≡◌, ◌≤◌, ◌<◌, ℕ};
ghost use Rattle.pattern_picture.specs.Scale.{IsScale, IsShown, IsShownSide, IsSize, block_at, block_span, blocks_of, longer_side};

use plane::Bounds;
use viewport::Blocks;

// The most pixels on a side of a cell.
const ZOOM_LIMIT: u32 = 16;

/// How large a picture shows cells: blocks of 2^exponent by 2^exponent cells, each as `zoom` by
/// `zoom` pixels.
#[derive(Clone, Copy, Debug, PartialEq, Eq)]
pub struct Scale {
    pub exponent: u8,
    pub zoom: u32,
}

impl Scale {
    /// The largest scale at which a picture of a rectangle has at most `size` pixels on each side,
    /// 16 to 4096. A cell has at most 16 pixels on a side. Where not every cell has a pixel of its
    /// own, every block has one pixel, and the blocks are as small as can be. The rectangle's sides
    /// lie from -2^62 to 2^62.
    pub fn of(shown: Bounds, size: u32) -> Scale
        requires shown { IsShown shown }
        requires size { IsSize size }
        ensures { IsScale shown size result }
    {
        let exponent = smallest_exponent(shown, size);
        if exponent > 0 {
            return Scale { exponent, zoom: 1 };
        }
        let pixels = u64::from(size) / longer_side(0, shown);
        Scale {
            exponent,
            zoom: ZOOM_LIMIT.min(pixels as u32),
        }
    }

    /// The blocks that a picture of a rectangle shows at this scale: from that of the upper left
    /// cell to that of the lower right one.
    pub fn blocks(self, shown: Bounds) -> Blocks
        requires shown { IsShown shown }
        requires exponent { self.exponent ≤ 62 }
        requires sides { longer_side self.exponent shown ≤ 4096 }
        ensures { result ≡ blocks_of self.exponent shown }
    {
        Blocks {
            exponent: self.exponent,
            left: block_at(self.exponent, shown.left),
            top: block_at(self.exponent, shown.top),
            width: block_span(self.exponent, shown.left, shown.right) as u32,
            height: block_span(self.exponent, shown.top, shown.bottom) as u32,
        }
    }
}

// The smallest exponent at which a picture with one pixel for each block has at most `size` pixels
// on each side.
fn smallest_exponent(shown: Bounds, size: u32) -> u8
    requires shown { IsShown shown }
    requires size { IsSize size }
    ensures limit { result ≤ 62 }
    ensures fits { longer_side result shown ≤ size }
    ensures smallest { (other : ℕ) → other < result → size < longer_side other shown }
{
    let mut exponent = 0;
    while longer_side(exponent, shown) > u64::from(size) {
        exponent += 1;
    }
    exponent
}

// How many blocks of 2^exponent cells the longer side of the rectangle has.
fn longer_side(exponent: u8, shown: Bounds) -> u64
    requires exponent { exponent ≤ 62 }
    requires shown { IsShown shown }
    ensures value { result ≡ longer_side exponent shown }
    ensures some { 1 ≤ result }
{
    block_span(exponent, shown.left, shown.right).max(block_span(exponent, shown.top, shown.bottom))
}

// How many blocks of 2^exponent cells there are from that of the first coordinate to that of the
// last.
fn block_span(exponent: u8, first: i64, last: i64) -> u64
    requires exponent { exponent ≤ 62 }
    requires side { IsShownSide first last }
    ensures value { result ≡ block_span exponent first last }
    ensures some { 1 ≤ result }
{
    block_at(exponent, last).abs_diff(block_at(exponent, first)) + 1
}

// The block of 2^exponent cells in which a coordinate lies.
fn block_at(exponent: u8, z: i64) -> i64
    requires { exponent ≤ 62 }
    ensures { result ≡ block_at exponent z }
{
    z >> exponent
}
