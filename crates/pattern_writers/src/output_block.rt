//! Output that is handed to a sink in blocks.

ghost use Rattle.std.specs.Prelude.{◌++◌, OnErr, OnOk};
ghost use Rattle.plane.specs.Device.{AppendsBeginning, TellsFailure};
ghost use Rattle.pattern_writers.specs.Output.{AppendsBuffered};

use arrayvec::ArrayVec;
use plane::{Refusal, Sink, write_all};

// The most bytes that wait.
const BLOCK_LENGTH: usize = 4096;

/// Bytes that a sink is to get, after those that it has taken.
pub(crate) type OutputBlock = ArrayVec<u8, BLOCK_LENGTH>;

/// Puts some bytes after those of the block. Where they find no room in it, the sink gets the
/// block's bytes first, and a piece that is longer than a block itself. Where the sink failed, it
/// took a beginning of what waited and the piece.
pub(crate) fn put<V: Sink>(
    file: &mut V,
    block: &mut OutputBlock,
    piece: &[u8],
) -> Result<(), Refusal>
    ensures written { OnOk result (AppendsBuffered (V.taken file.old) block.old.items
        (V.taken file.new) block.new.items piece.now) }
    ensures beginning { OnErr result (AppendsBeginning (V.taken file.old) (V.taken file.new)
        (block.old.items ++ piece.now)) }
    ensures failure { TellsFailure (V.failure_count file.old) (V.failure_count file.new) result }
{
    if block.try_extend_from_slice(piece).is_ok() {
        return Ok(());
    }
    write_all(file, block.as_slice())?;
    block.clear();
    if block.try_extend_from_slice(piece).is_err() {
        write_all(file, piece)?;
    }
    Ok(())
}
