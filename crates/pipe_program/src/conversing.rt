//! A dialogue: requests as they come, and a reply to each before the next.

ghost use Rattle.std.specs.Prelude.{◌≡◌, ◌<◌, ℕ, List, [], length, Err, IfErr, IfOk, OnErr, OnOk, is_some};
ghost use Rattle.std.specs.Io.KnownBytes.{Appends};
ghost use Rattle.plane.specs.Device.{AppendsBeginning, HasFailed, TellsFailure};
ghost use Rattle.plane.specs.SinkChange.{change_of};
ghost use Rattle.plane.specs.SourceChange.{reading_of};
ghost use Rattle.engine.specs.RunOptions.{IsPairCount};
ghost use Rattle.pipe_lines.specs.Supply.{HasTaken, pending_in};
ghost use Rattle.pipe_requests.specs.Blocks.{block_length};
ghost use Rattle.pipe_program.specs.Answers.{Answers, CanBeAsked};
ghost use Rattle.pipe_program.specs.Dialogue.{EndsDialogue};
ghost use Rattle.pipe_program.specs.Replies.{reply_text};
ghost use Rattle.pipe_program.specs.States.{IsWithin, state_of};
ghost use Rattle.pipe_program.specs.Steps.{HasAnswer, IsStep, reply_or_cut};

use crate::answering::{Answer, Failure, answer_request};
use crate::replies::write_reply;
use engine::{Gate, Session, Team};
use pipe_lines::{Block, Buffer, Line, LineEnd, read_block, read_line};
use pipe_requests::{Bad, Request, read_request};
use plane::{Fault, Refusal, Sink, Source};
use std::thread::Threads;

/// Answers the requests of a source until it ends, each before the next is read. `ReadFailed` where
/// the source failed, and `WriteFailed` where the sink did, which took a beginning of a reply then.
pub fn converse<R: Threads + Sync, G: Gate, S: Source, W: Sink>(
    team: &Team<'_, R, G>,
    pairs: u32,
    source: &mut S,
    out: &mut W,
) -> Result<(), Refusal>
    requires { IsPairCount pairs }
    ensures { EndsDialogue pairs
        (reading_of S.remaining S.given S.has_ended S.failure_count source.old source.new)
        (change_of W.taken W.failure_count out.old out.new) result }
{
    let mut buffer = Buffer::new();
    let mut pattern = None;
    for _ in 0..u64::MAX {
        if !answer_next(team, pairs, &mut buffer, &mut pattern, source, out)? {
            return Ok(());
        }
    }
    Ok(())
}

// Answers the next request. Says whether there may be another: not where the source has ended, nor
// in a line that goes on for more bytes than are counted.
fn answer_next<R: Threads + Sync, G: Gate, S: Source, W: Sink>(
    team: &Team<'_, R, G>,
    pairs: u32,
    buffer: &mut Buffer,
    pattern: &mut Option<Session>,
    source: &mut S,
    out: &mut W,
) -> Result<bool, Refusal>
    requires pairs { IsPairCount pairs }
    requires within { IsWithin pairs pattern.old }
    ensures step { IsStep pairs
        (reading_of S.remaining S.given S.has_ended S.failure_count source.old source.new)
        (pending_in buffer.old) (pending_in buffer.new)
        (state_of pattern.old) (state_of pattern.new)
        (change_of W.taken W.failure_count out.old out.new) result }
    ensures unfailed { OnOk result (S.failure_count source.new ≡ S.failure_count source.old) }
    ensures within { IsWithin pairs pattern.new }
{
    let mut line = Line::new();
    let reply = match read_line(buffer, source, &mut line)? {
        LineEnd::Absent | LineEnd::Endless => return Ok(false),
        LineEnd::Cut => None,
        LineEnd::Long => Some(Err(Failure::Bad(Bad::Long))),
        LineEnd::Whole => match read_request(line.as_slice()) {
            Ok(request) => answer_with_block(team, pairs, buffer, pattern, source, &request)?,
            Err(why) => Some(Err(Failure::Bad(why))),
        },
    };
    write_next(out, reply)
}

// Writes a reply, or that the input is cut where there is none. Says whether there is one.
fn write_next<W: Sink>(out: &mut W, reply: Option<Result<Answer, Failure>>) -> Result<bool, Refusal>
    ensures written { OnOk result
        (Appends (W.taken out.old) (W.taken out.new) (reply_text (reply_or_cut reply))) }
    ensures beginning { OnErr result
        (AppendsBeginning (W.taken out.old) (W.taken out.new) (reply_text (reply_or_cut reply))) }
    ensures failure { TellsFailure (W.failure_count out.old) (W.failure_count out.new) result }
    ensures more { IfOk result (λ more. more ≡ is_some reply) }
{
    match reply {
        Some(reply) => {
            write_reply(out, &reply)?;
            Ok(true)
        }
        None => {
            write_reply(out, &Err(Failure::Bad(Bad::Cut)))?;
            Ok(false)
        }
    }
}

// Reads the block of a request, and answers the request: not where the source has ended before the
// block did.
fn answer_with_block<R: Threads + Sync, G: Gate, S: Source>(
    team: &Team<'_, R, G>,
    pairs: u32,
    buffer: &mut Buffer,
    pattern: &mut Option<Session>,
    source: &mut S,
    request: &Request,
) -> Result<Option<Result<Answer, Failure>>, Refusal>
    requires pairs { IsPairCount pairs }
    requires within { IsWithin pairs pattern.old }
    requires asked { CanBeAsked request.now }
    ensures answered { IfOk result (HasAnswer pairs
        (reading_of S.remaining S.given S.has_ended S.failure_count source.old source.new)
        (pending_in buffer.old) (pending_in buffer.new)
        (state_of pattern.old) (state_of pattern.new)
        request.now) }
    ensures unread { OnErr result ((bytes : List ℕ) × HasTaken
        (reading_of S.remaining S.given S.has_ended S.failure_count source.old source.new)
        (pending_in buffer.old) (pending_in buffer.new) bytes
        × (length bytes < block_length request.now) × (pending_in buffer.new ≡ [])) }
    ensures unfailed { OnOk result (S.failure_count source.new ≡ S.failure_count source.old) }
    ensures failed { IfErr result (λ refusal. (refusal ≡ Refusal.ReadFailed)
        × HasFailed (S.failure_count source.old) (S.failure_count source.new)) }
    ensures within { IsWithin pairs pattern.new }
{
    let block = read_block(team.alloc, buffer, source, request.block_length())?;
    Ok(match block {
        Block::Whole(bytes) => {
            Some(answer_request(team, pairs, pattern, request, bytes.as_slice()))
        }
        Block::Lost => Some(Err(answer_lost(pattern, request))),
        Block::Cut => None,
    })
}

// Why a request is not answered for whose block there was no room.
fn answer_lost(pattern: &mut Option<Session>, request: &Request) -> Failure
    requires { 0 < block_length request.now }
    ensures answers { (pairs : ℕ) (block : List ℕ) → Answers pairs (state_of pattern.old)
        request.now block (Err result) (state_of pattern.new) }
    ensures within { (pairs : ℕ) → IsWithin pairs pattern.old → IsWithin pairs pattern.new }
{
    if let Request::Open { .. } = request {
        *pattern = None;
    } else if pattern.is_none() {
        return Failure::Bad(Bad::Closed);
    }
    Failure::Refused(Fault::from(Refusal::NoMemory))
}
