//! Pictures of shades, and a sink that fails while one is written.

ghost use Rattle.std.specs.Prelude.{◌≡◌, ◌*◌, length, IfOk};
ghost use Rattle.png_writer.specs.Picture.{IsSide};

use crate::tests::assert_same;
use crate::tests::pictures::length_and_checksum;
use plane::{FailAt, Memory, Refusal, Sink};
use png_writer::{IMAGE_SIDE_LIMIT, Image};
use std::alloc::{AllocError, Global};

fn shade_at(x: u32, y: u32) -> u8 {
    let mixed = x.wrapping_mul(y.wrapping_add(7));
    (mixed.wrapping_add(y.wrapping_mul(13)).wrapping_add(128) % 256) as u8
}

// The shades of so many rows, which stand behind one another.
fn shades_of(alloc: Global, width: u32, height: u32) -> Result<Vec<u8>, AllocError>
    requires width { IsSide width }
    requires height { IsSide height }
    ensures { IfOk result (λ shades. length shades.items ≡ width * height) }
{
    (0..width * height)
        .map(|place| shade_at(place % width, place / width))
        .collect(alloc)
}

fn picture(alloc: Global, width: u32, height: u32) -> Result<Image, Refusal>
    requires width { IsSide width }
    requires height { IsSide height }
    ensures { IfOk result (λ image. length image.rows ≡ height) }
{
    let shades = shades_of(alloc, width, height)?;
    Image::zoomed(alloc, shades.as_slice(), width, height, 1)
}

const THREE_BY_TWO: &[u8] = &[
    137, 80, 78, 71, 13, 10, 26, 10, 0, 0, 0, 13, 73, 72, 68, 82, 0, 0, 0, 3, 0, 0, 0, 2, 8, 0, 0,
    0, 0, 184, 31, 57, 198, 0, 0, 0, 16, 73, 68, 65, 84, 120, 1, 99, 104, 104, 239, 99, 232, 157,
    58, 23, 0, 12, 230, 3, 85, 235, 142, 35, 7, 0, 0, 0, 0, 73, 69, 78, 68, 174, 66, 96, 130,
];

fn write_small_picture<S: Sink>(alloc: Global, file: &mut S) -> Result<(), Refusal> {
    let image = picture(alloc, 3, 2)?;
    image.write(file)
}

#[test]
fn small_picture(rt: HostRuntime) -> Result<(), Refusal> {
    let mut file = Memory::with_room(rt.alloc(), THREE_BY_TWO.len())?;
    let outcome = write_small_picture(rt.alloc(), &mut file);
    assert_same(&rt, (outcome, file.bytes()), (Ok(()), THREE_BY_TWO));
    Ok(())
}

// The length of the file of a picture with these sides, and the checksum of its last chunk of
// pixels.
fn length_and_checksum_of(
    alloc: Global,
    width: u32,
    height: u32,
) -> Result<(usize, Option<u32>), Refusal>
    requires width { IsSide width }
    requires height { IsSide height }
{
    let image = picture(alloc, width, height)?;
    length_and_checksum(alloc, &image)
}

// Of one chunk, of a full one, of a byte more, of six, and of repeats of rows.
#[test]
fn larger_pictures(rt: HostRuntime) {
    for (width, height, length, checksum) in [
        (1, 1, 67, 0x4c17_d7df),
        (29, 692, 8249, 0x9d1e_7a41),
        (78, 110, 8262, 0x8b84_7d9c),
        (255, 256, 46_670, 0x68b5_383e),
        (300, 250, 46_019, 0x3beb_f398),
        (4096, 32, 6993, 0x04b4_b3f8),
    ] {
        assert!(rt;
            1 <= width && width <= IMAGE_SIDE_LIMIT && 1 <= height && height <= IMAGE_SIDE_LIMIT
        );
        let found = length_and_checksum_of(rt.alloc(), width, height);
        assert_same(&rt, found, Ok((length, Some(checksum))));
    }
}

// What is answered where this call of the sink fails, and how many have failed.
fn answer_and_failures(alloc: Global, call: u64) -> Result<(Result<(), Refusal>, u64), Refusal> {
    let mut file = FailAt::new(Memory::with_room(alloc, THREE_BY_TWO.len())?, call);
    let answer = write_small_picture(alloc, &mut file);
    Ok((answer, file.failures()))
}

// The file is written by twelve calls of the sink.
#[test]
fn a_failed_write_is_answered(rt: HostRuntime) {
    for call in 1..=13 {
        let expected = if call <= 12 {
            (Err(Refusal::WriteFailed), 1)
        } else {
            (Ok(()), 0)
        };
        let found = answer_and_failures(rt.alloc(), call);
        assert_same(&rt, (call, found), (call, Ok(expected)));
    }
}
