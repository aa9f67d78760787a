//! The bytes of replies.

ghost use Rattle.std.specs.Prelude.{◌≡◌, ◌++◌, ◌+◌, ◌≤◌, codes, length, Ok, Some, OnErr, OnOk};
ghost use Rattle.std.specs.Io.KnownBytes.{Appends};
ghost use Rattle.plane.specs.Device.{AppendsBeginning, TellsFailure};
ghost use Rattle.pipe_program.specs.Replies.{answer_words, number_word, refused_line, reply_text, signed_word};
ghost use Rattle.pipe_requests.specs.Bad.{word_of};

use crate::answering::{Answer, Failure};
use period_search::Period;
use pipe_requests::Bad;
use plane::{Bounds, Fault, Refusal, Sink, TextLine, write_all};

// Room for four numbers of up to 40 digits and the words around them.
const LINE_ROOM: usize = 192;

type Line = TextLine<LINE_ROOM>;

/// Writes a reply. `WriteFailed` where the sink failed, which took a beginning of it then.
pub(crate) fn write_reply<W: Sink>(
    out: &mut W,
    reply: &Result<Answer, Failure>,
) -> Result<(), Refusal>
    ensures written { OnOk result
        (Appends (W.taken out.old) (W.taken out.new) (reply_text reply.now)) }
    ensures beginning { OnErr result
        (AppendsBeginning (W.taken out.old) (W.taken out.new) (reply_text reply.now)) }
    ensures failure { TellsFailure (W.failure_count out.old) (W.failure_count out.new) result }
{
    match reply {
        Ok(answer) => write_answer(out, answer),
        Err(Failure::Refused(fault)) => refused_line(*fault).write_to(out),
        Err(Failure::Bad(why)) => bad_line(*why).write_to(out),
    }
}

fn write_answer<W: Sink>(out: &mut W, answer: &Answer) -> Result<(), Refusal>
    ensures written { OnOk result
        (Appends (W.taken out.old) (W.taken out.new) (reply_text (Ok answer.now))) }
    ensures beginning { OnErr result
        (AppendsBeginning (W.taken out.old) (W.taken out.new) (reply_text (Ok answer.now))) }
    ensures failure { TellsFailure (W.failure_count out.old) (W.failure_count out.new) result }
{
    let mut line = TextLine::new();
    line.push("ok");
    push_answer(&mut line, answer);
    line.push("\n");
    line.write_to(out)?;
    match answer {
        Answer::Bytes(bytes) => write_all(out, bytes.as_slice()),
        _ => Ok(()),
    }
}

// Adds what stands behind `ok` in the line.
fn push_answer(line: &mut Line, answer: &Answer)
    requires { length line.old ≤ 8 }
    ensures text { line.new ≡ line.old ++ answer_words answer.now }
    ensures short { length line.new ≤ 190 }
{
    match answer {
        Answer::Done => {}
        Answer::Generation(number) => push_number(line, *number),
        Answer::Rule(rule) => {
            line.push(" ");
            line.push(rule.text().as_str());
        }
        Answer::Population(count) => {
            line.push(" ");
            line.push_number(*count);
        }
        Answer::Bounds(Some(bounds)) => push_bounds(line, bounds),
        Answer::Bounds(None) => line.push(" empty"),
        Answer::Period(Some(period)) => push_period(line, period),
        Answer::Moved(Some((right, down))) => push_pair(line, *right, *down),
        Answer::Period(None) | Answer::Moved(None) => line.push(" none"),
        Answer::Bytes(bytes) => push_number(line, bytes.len() as u64),
    }
}

fn push_bounds(line: &mut Line, bounds: &Bounds)
    requires { length line.old ≤ 8 }
    ensures text { line.new ≡ line.old ++ answer_words (Answer.Bounds (Some bounds.now)) }
    ensures short { length line.new ≤ 190 }
{
    push_pair(line, bounds.left, bounds.top);
    push_pair(line, bounds.right, bounds.bottom);
}

fn push_period(line: &mut Line, period: &Period)
    requires { length line.old ≤ 8 }
    ensures text { line.new ≡ line.old ++ answer_words (Answer.Period (Some period.now)) }
    ensures short { length line.new ≤ 190 }
{
    push_number(line, period.generations);
    push_pair(line, period.right, period.down);
}

fn push_number(line: &mut Line, number: u64)
    requires { length line.old + 41 ≤ 192 }
    ensures text { line.new ≡ line.old ++ number_word number }
    ensures short { length line.new ≤ length line.old + 41 }
{
    line.push(" ");
    line.push_number(number);
}

fn push_pair(line: &mut Line, x: i64, y: i64)
    requires { length line.old + 82 ≤ 192 }
    ensures text { line.new ≡ line.old ++ signed_word x ++ signed_word y }
    ensures short { length line.new ≤ length line.old + 82 }
{
    push_signed(line, x);
    push_signed(line, y);
}

fn push_signed(line: &mut Line, number: i64)
    requires { length line.old + 41 ≤ 192 }
    ensures text { line.new ≡ line.old ++ signed_word number }
    ensures short { length line.new ≤ length line.old + 41 }
{
    line.push(" ");
    line.push_signed(number);
}

// The line of a refusal.
fn refused_line(fault: Fault) -> Line
    ensures { result ≡ refused_line fault }
{
    let mut line = TextLine::new();
    line.push("refused ");
    line.push_number(fault.refusal.number());
    line.push(" ");
    line.push(fault.refusal.name());
    if let Some(place) = fault.place {
        push_number(&mut line, place);
    }
    line.push("\n");
    line
}

// The line of a request that is bad.
fn bad_line(why: Bad) -> Line
    ensures { result ≡ codes "bad " ++ word_of why ++ codes "\n" }
{
    let mut line = TextLine::new();
    line.push("bad ");
    line.push(why.word());
    line.push("\n");
    line
}
