//! Blocks as they come from a source.

ghost use Rattle.std.specs.Prelude.{◌≡◌, ◌<◌, ℕ, List, [], length, min, IfErr, IfOk, OnErr, OnOk};
ghost use Rattle.plane.specs.Device.{HasFailed};
ghost use Rattle.plane.specs.SourceChange.{reading_of};
ghost use Rattle.pipe_lines.specs.Supply.{HasBlock, HasTaken, IsLonger, ReadsNoMore, pending_in};

use crate::buffer::Buffer;
use plane::{Refusal, Source};
use std::alloc::Global;

/// What a block is.
#[derive(Drop)]
pub enum Block {
    /// Its bytes.
    Whole(Vec<u8>),
    /// It was read, but there was no room for its bytes.
    Lost,
    /// The source ended before it did.
    Cut,
}

/// Reads a block of so many bytes. Memory is taken as they come. Where they have come, it does not
/// wait for more. `ReadFailed` where the source failed in this call; what was read until then,
/// which is no whole block, is dropped.
pub fn read_block<S: Source>(
    alloc: Global,
    buffer: &mut Buffer,
    source: &mut S,
    count: u64,
) -> Result<Block, Refusal>
    ensures block { IfOk result (HasBlock
        (reading_of S.remaining S.given S.has_ended S.failure_count source.old source.new)
        (pending_in buffer.old) (pending_in buffer.new) count) }
    ensures unread { OnErr result ((bytes : List ℕ) × HasTaken
        (reading_of S.remaining S.given S.has_ended S.failure_count source.old source.new)
        (pending_in buffer.old) (pending_in buffer.new) bytes
        × (length bytes < count) × (pending_in buffer.new ≡ [])) }
    // It calls the source no more where so many bytes have come.
    ensures reads { ReadsNoMore S.reads
        (reading_of S.remaining S.given S.has_ended S.failure_count source.old source.new)
        (pending_in buffer.old) (λ bytes. length bytes < count) }
    ensures unfailed { OnOk result (S.failure_count source.new ≡ S.failure_count source.old) }
    ensures failed { IfErr result (λ refusal. (refusal ≡ Refusal.ReadFailed)
        × HasFailed (S.failure_count source.old) (S.failure_count source.new)) }
{
    let mut block = Block::Whole(Vec::new(alloc));
    let mut left = count;
    while left > 0 {
        if !buffer.fill(source)? {
            return Ok(Block::Cut);
        }
        let more = part_of(left, buffer.pending().len());
        block = longer(block, &buffer.pending()[..more]);
        buffer.take(more);
        left -= more as u64;
    }
    Ok(block)
}

// How many of so many bytes are among the next ones.
fn part_of(left: u64, pending: usize) -> usize
    ensures { result ≡ min left pending }
{
    if left < pending as u64 {
        left as usize
    } else {
        pending
    }
}

// The block with more bytes behind it.
fn longer(block: Block, bytes: &[u8]) -> Block
    ensures { IsLonger block bytes.now result }
{
    match block {
        Block::Whole(mut all) => match all.extend_from_slice(bytes) {
            Ok(()) => Block::Whole(all),
            Err(_) => Block::Lost,
        },
        other => other,
    }
}
