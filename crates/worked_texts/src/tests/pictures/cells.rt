//! Pictures of cells.

ghost use Rattle.std.specs.Prelude.{◌≡◌, ◌≤◌, ◌*◌, length, IfOk, IsTrue};
ghost use Rattle.pattern_picture.specs.Scale.{IsShown, IsSize};
ghost use Rattle.png_writer.specs.Picture.{IsSide};

use crate::tests::assert_same;
use crate::tests::pictures::length_and_checksum;
use pattern_picture::Drawing;
use plane::{Bounds, Refusal};
use png_writer::{IMAGE_SIDE_LIMIT, Image};
use rule_text::Rule;
use squares::{PlainBook, join_leaves};
use std::alloc::Global;
use std::process::Abort;

// The cells of the quarters, as bits: 36 of them live.
const LEAVES: [u64; 4] = [
    0x8040_0000_0000_0001,
    0x0102_0408_1020_4080,
    0xffff_0000_0000_00ff,
    0x0000_0000_0000_0001,
];

// Draws these cells, and asserts the length of the file and the checksum of its last pixels.
fn assert_drawn<R: Abort + AllocGlobal>(
    rt: &R,
    shown: Bounds,
    size: u32,
    expected: (usize, u32),
) -> Result<(), Refusal>
    requires shown { IsShown shown }
    requires size { IsSize size }
{
    let drawing = drawing_of(rt.alloc(), shown, size)?;
    let image = image_of(rt, &drawing)?;
    let (length, checksum) = expected;
    let found = length_and_checksum(rt.alloc(), &image);
    assert_same(rt, found, Ok((length, Some(checksum))));
    Ok(())
}

fn drawing_of(alloc: Global, shown: Bounds, size: u32) -> Result<Drawing, Refusal>
    requires shown { IsShown shown }
    requires size { IsSize size }
{
    let mut book = PlainBook::new(alloc, Rule::dead(), 0);
    let sq = join_leaves(&mut book, LEAVES)?;
    Drawing::of(alloc, &book, sq, shown, size)
}

// The pixels of a drawing.
fn image_of<R: Abort + AllocGlobal>(rt: &R, drawing: &Drawing) -> Result<Image, Refusal>
    ensures { IfOk result (λ image. 1 ≤ length image.rows) }
{
    let (zoom, width, height) = (
        drawing.scale.zoom,
        drawing.blocks.width,
        drawing.blocks.height,
    );
    assert!(rt; is_side(zoom, width) && is_side(zoom, height));
    assert_eq!(rt;
        drawing.shades.len() as u64,
        u64::from(width) * u64::from(height)
    );
    Image::zoomed(rt.alloc(), drawing.shades.as_slice(), width, height, zoom)
}

// Whether a picture may have so many blocks on a side, each of so many pixels.
fn is_side(zoom: u32, blocks: u32) -> bool
    ensures { IsTrue result → IsSide (zoom * blocks) }
{
    let pixels = u64::from(zoom) * u64::from(blocks);
    1 <= pixels && pixels <= u64::from(IMAGE_SIDE_LIMIT)
}

const fn sides(left: i64, top: i64, right: i64, bottom: i64) -> Bounds
    ensures { result ≡ record { left = left; top = top; right = right; bottom = bottom } }
{
    Bounds {
        left,
        top,
        right,
        bottom,
    }
}

#[test]
fn cells_as_squares_of_pixels(rt: HostRuntime) -> Result<(), Refusal> {
    let all = sides(-8, -8, 7, 7);
    assert_drawn(&rt, all, 16, (109, 0xdfe9_b4f3))?;
    assert_drawn(&rt, all, 37, (128, 0xe63a_e817))?;
    assert_drawn(&rt, sides(-3, -2, 1, 2), 16, (92, 0x8de6_a592))?;
    assert_drawn(&rt, all, 4096, (779, 0xacc3_5aa7))?;
    assert_drawn(&rt, sides(-9, 3, -9, 3), 16, (71, 0xcc57_9dcd))
}

#[test]
fn blocks_as_pixels(rt: HostRuntime) -> Result<(), Refusal> {
    let far = 1 << 62;
    assert_drawn(&rt, sides(-8, -8, 8, 7), 16, (101, 0xfbc1_3687))?;
    assert_drawn(&rt, sides(-100, -100, 100, 99), 16, (82, 0x20c0_b365))?;
    assert_drawn(&rt, sides(-40, -1, 1000, 2), 100, (81, 0xb4e0_c089))?;
    assert_drawn(&rt, sides(-far, -far, far, far), 16, (82, 0x38cc_d082))
}
