//! The formats of pictures, and the file of a picture in memory, before any of it is written.

ghost use Rattle.std.specs.Prelude.{◌≤◌, ℕ, List, length, IfNone, IfOk, IfSome, IsOkUnless, OnOk};
ghost use Rattle.std.specs.Io.KnownBytes.{Appends};
ghost use Rattle.plane.specs.Device.{TellsFailure};
ghost use Rattle.view_program.specs.PictureFormat.{IsFitName, IsFormat, format_of};

use plane::{Refusal, Sink};
use png_writer::Image;
use program_parts::GrowingText;
use std::alloc::Global;

/// A format of pictures.
#[derive(Clone, Copy, Debug, PartialEq, Eq)]
pub enum ImageFormat {
    /// PNG, greyscale.
    Png,
}

/// How the names of such files end, for messages.
pub(crate) const ENDINGS: &str = ".png";

/// What the help says of the option that names a picture.
pub(crate) const OUTPUT_HELP: &str = "Write the picture to NAME, which ends with .png";

/// The format of a picture, by the ending of its name, if it may have this name.
pub(crate) fn format_by(name: &str) -> Option<ImageFormat>
    ensures some { IfSome result (IsFormat name.now) }
    ensures none { IfNone result (¬ IsFitName name.now) }
{
    if name.as_bytes().ends_with(b".png") {
        return Some(ImageFormat::Png);
    }
    None
}

/// The file of a picture with rows. `NoMemory` if there is no room for it.
pub fn picture_file(alloc: Global, format: ImageFormat, image: &Image) -> Result<Vec<u8>, Refusal>
    requires { 1 ≤ length image.now.rows }
    ensures ok { IfOk result (λ text.
        (format_of format).IsFile image.now.width image.now.rows text.items) }
    ensures memory { IsOkUnless result Refusal.NoMemory }
{
    let mut text = GrowingText::new(alloc);
    match write_picture(format, image, &mut text) {
        Ok(()) => Ok(text.into_bytes()),
        Err(_) => Err(Refusal::NoMemory),
    }
}

// Writes a picture with rows in a format. `WriteFailed` if the sink failed.
fn write_picture<W: Sink>(format: ImageFormat, image: &Image, file: &mut W) -> Result<(), Refusal>
    requires { 1 ≤ length image.now.rows }
    ensures written { OnOk result ((text : List ℕ)
        × (format_of format).IsFile image.now.width image.now.rows text
        × Appends (W.taken file.old) (W.taken file.new) text) }
    ensures failure { TellsFailure (W.failure_count file.old) (W.failure_count file.new) result }
{
    match format {
        ImageFormat::Png => image.write(file),
    }
}
