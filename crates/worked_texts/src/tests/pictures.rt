//! Worked examples of pictures, of rows of shades and of cells.

ghost use Rattle.std.specs.Prelude.{◌≤◌, length};

mod cells;
mod shades;

use plane::{Memory, Refusal};
use png_writer::Image;
use std::alloc::Global;

/// The length of a picture's file, and the checksum of its last chunk of pixels, if the file is
/// long enough for one.
pub(crate) fn length_and_checksum(
    alloc: Global,
    image: &Image,
) -> Result<(usize, Option<u32>), Refusal>
    requires { 1 ≤ length image.now.rows }
{
    let mut file = Memory::with_room(alloc, 140_000)?;
    image.write(&mut file)?;
    Ok((file.bytes().len(), checksum_of_pixels(file.bytes())))
}

// It stands before the last chunk, which has twelve bytes.
fn checksum_of_pixels(bytes: &[u8]) -> Option<u32> {
    let (rest, _) = bytes.split_last_chunk::<12>()?;
    let (_, checksum) = rest.split_last_chunk::<4>()?;
    Some(u32::from_be_bytes(*checksum))
}
