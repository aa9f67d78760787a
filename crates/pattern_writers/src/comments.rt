//! The beginning of a text: some lines, and those of the comments.

ghost use Rattle.std.specs.Prelude.{◌++◌, OnErr, OnOk};
ghost use Rattle.plane.specs.Device.{AppendsBeginning, TellsFailure};
ghost use Rattle.pattern_writers.specs.Output.{AppendsBuffered};
ghost use Rattle.pattern_writers.specs.RleText.{comment_lines};

use crate::output_block::{OutputBlock, put};
use plane::{Refusal, Sink};
use rle_reader::Comments;

/// Writes some lines and those of the comments.
pub(crate) fn begin<V: Sink>(
    file: &mut V,
    block: &mut OutputBlock,
    preamble: &[u8],
    comments: Comments<'_>,
) -> Result<(), Refusal>
    ensures written { OnOk result (AppendsBuffered (V.taken file.old) block.old.items
        (V.taken file.new) block.new.items (preamble.now ++ comment_lines comments.entry)) }
    ensures beginning { OnErr result (AppendsBeginning (V.taken file.old) (V.taken file.new)
        (block.old.items ++ (preamble.now ++ comment_lines comments.entry))) }
    ensures failure { TellsFailure (V.failure_count file.old) (V.failure_count file.new) result }
{
    put(file, block, preamble)?;
    write_comments(file, block, comments)
}

// Writes each comment as a line.
fn write_comments<V: Sink>(
    file: &mut V,
    block: &mut OutputBlock,
    comments: Comments<'_>,
) -> Result<(), Refusal>
    ensures written { OnOk result (AppendsBuffered (V.taken file.old) block.old.items
        (V.taken file.new) block.new.items (comment_lines comments.entry)) }
    ensures beginning { OnErr result (AppendsBeginning (V.taken file.old) (V.taken file.new)
        (block.old.items ++ comment_lines comments.entry)) }
    ensures failure { TellsFailure (V.failure_count file.old) (V.failure_count file.new) result }
{
    for comment in comments {
        put(file, block, comment)?;
        put(file, block, b"\n")?;
    }
    Ok(())
}
