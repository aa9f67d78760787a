//! The text of a pattern in RLE.

ghost use Rattle.std.specs.Prelude.{◌≡◌, ◌≤◌, OnErr, OnOk, IfErr};
ghost use Rattle.plane.specs.Device.{AppendsBeginning, TellsFailure};
ghost use Rattle.squares.specs.Book.{IsKnown};
ghost use Rattle.std.specs.Io.KnownBytes.{Appends};
ghost use Rattle.pattern_writers.specs.Reading.{IsReadBackFromRle};
ghost use Rattle.pattern_writers.specs.RleText.{BeginsRle, IsTooLarge, WritesRle, items_text};
ghost use Rattle.squares.specs.Roots.{square_plane};
ghost use Rattle.squares.specs.declared.sq.TheConstants.{HIGHEST_ROOT_LEVEL};
ghost use Rattle.pattern_writers.specs.Output.{IfTaken, IsWriterRefusal};

mod bands;
mod frame;
mod framing;
mod items;
mod layout;
mod preamble;
mod row_run;

use crate::comments::begin;
use crate::output_block::put;
use arrayvec::ArrayVec;
use frame::Frame;
use framing::framed_items;
use items::Item;
use layout::write_body;
use plane::{Refusal, Sink, write_all};
use preamble::{header_line, position_line};
use rle_reader::Comments;
use rule_text::Rule;
use squares::{Look, Sq};
use std::alloc::Global;
use std::thread::Threads;

/// Writes the cells of a square of a level up to 63, whose centre corner is (0,0), with the
/// comments, the rule and the generation. It refuses `NoMemory`, or `BoxTooLarge` where a side of
/// the cells' box is 2^31 or more, both before the first byte, and `WriteFailed` where the sink
/// failed; no side was too long then, and the sink took a beginning of the text. The runs of the
/// rows are found in threads.
///
/// What the sink took is read as the same cells, rule and generation, and as the same comments
/// where none ends with a CR, if the generation is at most 2^63, there are at most 2^28 live cells
/// and each comment is a line that is kept.
pub fn write_rle<R: Threads + Sync, B: Look + Sync, V: Sink>(
    rt: &R,
    alloc: Global,
    book: &B,
    sq: Sq,
    comments: Comments<'_>,
    rule: &Rule,
    generation: u64,
    file: &mut V,
) -> Result<(), Refusal>
    requires known { IsKnown (B.book book.now) sq.level sq }
    requires level { sq.level ≤ HIGHEST_ROOT_LEVEL }
    ensures written { OnOk result (WritesRle (square_plane (B.book book.now) sq)
        comments.entry rule.now generation (V.taken file.old) (V.taken file.new)) }
    ensures read_back { OnOk result (IfTaken (V.taken file.old) (V.taken file.new)
        (IsReadBackFromRle (square_plane (B.book book.now) sq)
        comments.entry rule.now generation)) }
    ensures unfailed { OnOk result (V.failure_count file.new ≡ V.failure_count file.old) }
    ensures refused { IfErr result (IsWriterRefusal V.failure_count file.old file.new
        (IsTooLarge (square_plane (B.book book.now) sq))
        (BeginsRle (square_plane (B.book book.now) sq)
        comments.entry rule.now generation (V.taken file.old) (V.taken file.new))) }
{
    let (frame, items) = framed_items(rt, alloc, book, sq)?;
    write_items(file, frame, items.as_slice(), comments, rule, generation)
}

// Writes the text of these items in a frame.
fn write_items<V: Sink>(
    file: &mut V,
    frame: Frame,
    items: &[Item],
    comments: Comments<'_>,
    rule: &Rule,
    generation: u64,
) -> Result<(), Refusal>
    ensures written { OnOk result (Appends (V.taken file.old) (V.taken file.new)
        (items_text frame comments.entry rule.now generation items.now)) }
    ensures beginning { OnErr result (AppendsBeginning (V.taken file.old) (V.taken file.new)
        (items_text frame comments.entry rule.now generation items.now)) }
    ensures failure { TellsFailure (V.failure_count file.old) (V.failure_count file.new) result }
{
    let position = position_line(frame.corner, generation);
    let mut block = ArrayVec::new();
    begin(file, &mut block, position.as_bytes(), comments)?;
    let header = header_line(frame.width, frame.height, rule);
    put(file, &mut block, header.as_bytes())?;
    write_body(file, &mut block, items)?;
    write_all(file, block.as_slice())
}
