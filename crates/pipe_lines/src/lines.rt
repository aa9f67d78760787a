//! Lines as they come from a source.

ghost use Rattle.std.specs.Prelude.{◌≡◌, ◌++◌, ◌-◌, ◌==◌, nat_le, if◌then◌else◌, ℕ, List, [], length, take, IfErr, IfOk, OnErr, OnOk};
ghost use Rattle.plane.specs.Device.{HasFailed};
ghost use Rattle.plane.specs.SourceChange.{reading_of};
ghost use Rattle.pipe_lines.specs.Supply.{HasLine, HasTaken, IsUnbroken, ReadsNoMore, pending_in};

use crate::buffer::Buffer;
use arrayvec::ArrayVec;
use plane::{Refusal, Source};
use text_lines::line_length;

/// The most bytes of a line.
pub const LINE_LIMIT: usize = 255;

/// The first bytes of a line, at most `LINE_LIMIT`, without the LF that ends it.
pub type Line = ArrayVec<u8, LINE_LIMIT>;

/// How a line ended.
#[derive(Clone, Copy, PartialEq, Eq)]
pub enum LineEnd {
    /// At its LF.
    Whole,
    /// At its LF, with more bytes than a line may have.
    Long,
    /// At the end of the source, behind its first byte.
    Cut,
    /// It has not begun: the source has ended before it.
    Absent,
    /// Nowhere so far: 2^64 - 1 bytes of it or more were read, and none of them is an LF.
    Endless,
}

/// Reads a line to its LF, which is taken too. Its first bytes are kept in `line`, in place of what
/// was there; those past `LINE_LIMIT` are read and not kept. Where the LF has come, it does not
/// wait for more. `ReadFailed` where the source failed in this call; what was read until then,
/// which is no whole line, is dropped.
pub fn read_line<S: Source>(
    buffer: &mut Buffer,
    source: &mut S,
    line: &mut Line,
) -> Result<LineEnd, Refusal>
    ensures line { IfOk result (HasLine
        (reading_of S.remaining S.given S.has_ended S.failure_count source.old source.new)
        (pending_in buffer.old) (pending_in buffer.new) line.new.items) }
    ensures unread { OnErr result ((text : List ℕ) × HasTaken
        (reading_of S.remaining S.given S.has_ended S.failure_count source.old source.new)
        (pending_in buffer.old) (pending_in buffer.new) text
        × IsUnbroken text × (pending_in buffer.new ≡ [])) }
    // It calls the source no more where the LF has come.
    ensures reads { ReadsNoMore S.reads
        (reading_of S.remaining S.given S.has_ended S.failure_count source.old source.new)
        (pending_in buffer.old) IsUnbroken }
    ensures unfailed { OnOk result (S.failure_count source.new ≡ S.failure_count source.old) }
    ensures failed { IfErr result (λ refusal. (refusal ≡ Refusal.ReadFailed)
        × HasFailed (S.failure_count source.old) (S.failure_count source.new)) }
{
    let mut length: u64 = 0;
    line.clear();
    while length < u64::MAX {
        if !buffer.fill(source)? {
            return Ok(end_at_source_end(length));
        }
        let count = line_length(buffer.pending());
        keep(line, &buffer.pending()[..count]);
        length = length.saturating_add(count as u64);
        if count < buffer.pending().len() {
            buffer.take(count + 1);
            return Ok(end_at_line_feed(length));
        }
        buffer.take(count);
    }
    Ok(LineEnd::Endless)
}

// How a line of so many bytes ended where the source did.
fn end_at_source_end(count: u64) -> LineEnd
    ensures { result ≡ (if count == 0 then LineEnd.Absent else LineEnd.Cut) }
{
    if count == 0 {
        LineEnd::Absent
    } else {
        LineEnd::Cut
    }
}

// How a line of so many bytes ended at its LF.
fn end_at_line_feed(count: u64) -> LineEnd
    ensures { result ≡ (if nat_le count 255 then LineEnd.Whole else LineEnd.Long) }
{
    if count <= LINE_LIMIT as u64 {
        LineEnd::Whole
    } else {
        LineEnd::Long
    }
}

// Adds bytes to a line, as many as it has room for.
fn keep(line: &mut Line, bytes: &[u8])
    ensures { line.new.items ≡ line.old.items ++ take (255 - length line.old.items) bytes.now }
{
    for byte in bytes {
        if line.is_full() {
            return;
        }
        line.push(*byte);
    }
}
