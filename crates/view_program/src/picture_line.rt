//! The line that says what a pixel is.

ghost use Rattle.std.specs.Prelude.{◌≡◌, ◌≤◌, ◌+◌, ◌^◌, ◌++◌, OnErr, OnOk, length};
ghost use Rattle.std.specs.Io.KnownBytes.{Appends};
ghost use Rattle.plane.specs.Device.{AppendsBeginning, TellsFailure};
ghost use Rattle.pattern_picture.specs.Scale.{IsShown, longer_side};
ghost use Rattle.view_program.specs.PictureLine.{picture_line, pixel_words, product_words, scale_words};

use pattern_picture::Scale;
use plane::{Bounds, Refusal, Sink, TextLine, write_all};

// Room for four numbers of up to 40 digits and the words between them.
const LINE_ROOM: usize = 224;

/// Writes one line with the name of a picture, its columns and rows, and what a pixel is, for a
/// rectangle that is shown at this scale. `WriteFailed` if the sink failed.
pub(crate) fn write_picture_line<W: Sink>(
    out: &mut W,
    name: &str,
    shown: Bounds,
    scale: Scale,
) -> Result<(), Refusal>
    requires shown { IsShown shown }
    requires exponent { scale.exponent ≤ 62 }
    requires zoom { scale.zoom ≤ 16 }
    requires sides { longer_side scale.exponent shown ≤ 4096 }
    ensures written { OnOk result (Appends (W.taken out.old) (W.taken out.new)
        (picture_line name.now shown scale)) }
    ensures beginning { OnErr result (AppendsBeginning (W.taken out.old) (W.taken out.new)
        (picture_line name.now shown scale)) }
    ensures failure { TellsFailure (W.failure_count out.old) (W.failure_count out.new) result }
{
    let line = scale_words(shown, scale);
    write_all(out, name.as_bytes())?;
    line.write_to(out)
}

// What stands behind the name of a picture: its size, and what a pixel is.
fn scale_words(shown: Bounds, scale: Scale) -> TextLine<LINE_ROOM>
    requires shown { IsShown shown }
    requires exponent { scale.exponent ≤ 62 }
    requires zoom { scale.zoom ≤ 16 }
    requires sides { longer_side scale.exponent shown ≤ 4096 }
    ensures { result ≡ scale_words shown scale }
{
    let blocks = scale.blocks(shown);
    let mut line = TextLine::new();
    line.push(": ");
    push_product(
        &mut line,
        u64::from(scale.zoom * blocks.width),
        u64::from(scale.zoom * blocks.height),
    );
    line.push(" pixels, ");
    push_pixel(&mut line, scale);
    line.push("\n");
    line
}

// Adds how many pixels a cell has, or how many cells a pixel.
fn push_pixel(line: &mut TextLine<LINE_ROOM>, scale: Scale)
    requires exponent { scale.exponent ≤ 62 }
    requires room { length line.old + 97 ≤ 224 }
    ensures text { line.new ≡ line.old ++ pixel_words scale }
    ensures short { length line.new ≤ length line.old + 97 }
{
    if scale.exponent == 0 {
        push_product(line, u64::from(scale.zoom), u64::from(scale.zoom));
        line.push(" pixels a cell");
    } else {
        let side = block_side(scale.exponent);
        push_product(line, side, side);
        line.push(" cells a pixel");
    }
}

// How many cells a block has on a side.
fn block_side(exponent: u8) -> u64
    requires { exponent ≤ 62 }
    ensures { result ≡ 2 ^ exponent }
{
    1 << exponent
}

// Adds columns and rows, as `640 x 480`.
fn push_product(line: &mut TextLine<LINE_ROOM>, columns: u64, rows: u64)
    requires { length line.old + 83 ≤ 224 }
    ensures text { line.new ≡ line.old ++ product_words columns rows }
    ensures short { length line.new ≤ length line.old + 83 }
{
    line.push_number(columns);
    line.push(" x ");
    line.push_number(rows);
}
