//! Messages and exit statuses.

ghost use Rattle.std.specs.Prelude.{◌≡◌, ◌≢◌, ◌≤◌, ℕ, List, length, OnErr, OnOk};
ghost use Rattle.std.specs.Io.KnownBytes.{Appends};
ghost use Rattle.std.specs.IoError.{error_kind};
ghost use Rattle.std.specs.List.{All};
ghost use Rattle.plane.specs.Device.{AppendsBeginning, TellsFailure};
ghost use Rattle.plane.specs.Fault.{placeless};
ghost use Rattle.plane.specs.SinkChange.{change_of};
ghost use Rattle.plane.specs.declared.refusal.Refusal.TheVariants.{NoMemory};
ghost use Rattle.program_parts.specs.Messages.{HasNoWords, HasToldBadWords, HasToldFault, fault_line, refused_status};

use crate::reason::WordsReason;
use plane::{Fault, Refusal, Sink, TextLine, write_all};
use std::alloc::{AllocError, Global};
use std::io::{self, ErrorKind};

// Room for a program's name of up to 32 bytes, two numbers of up to 40 digits, a name and the words
// round them.
const LINE_ROOM: usize = 160;

/// Writes one line with the refusal and its byte offset. The program's name, which begins the line,
/// has at most 32 bytes. Refuses `WriteFailed` if the sink failed.
pub(crate) fn tell_fault<E: Sink>(
    messages: &mut E,
    program: &str,
    fault: Fault,
) -> Result<(), Refusal>
    requires { length program.now ≤ 32 }
    ensures told { HasToldFault program.now fault
        (change_of E.taken E.failure_count messages.old messages.new) }
    ensures failure { TellsFailure
        (E.failure_count messages.old) (E.failure_count messages.new) result }
{
    fault_line(program, fault).write_to(messages)
}

// The line that says why a run was refused.
fn fault_line(program: &str, fault: Fault) -> TextLine<LINE_ROOM>
    requires { length program.now ≤ 32 }
    ensures { result ≡ fault_line program.now fault }
{
    let mut line = TextLine::new();
    line.push(program);
    line.push(": ");
    line.push("refused ");
    line.push_number(fault.refusal.number());
    if let Some(place) = fault.place {
        line.push(" at ");
        line.push_number(place);
    }
    line.push(": ");
    line.push(fault.refusal.name());
    line.push("\n");
    line
}

/// The exit status of a program whose run was refused: 3 where a device failed, else 1.
pub(crate) fn refused_status(refusal: Refusal) -> u8
    ensures { result ≡ refused_status refusal }
{
    match refusal {
        Refusal::ReadFailed | Refusal::WriteFailed => 3,
        _ => 1,
    }
}

/// Says on one line that the words are bad, and why: the lines of the reason's text.
pub(crate) fn tell_bad_words<E: Sink>(
    alloc: Global,
    messages: &mut E,
    program: &str,
    reason: &WordsReason,
) -> Result<(), Refusal>
    ensures told { HasToldBadWords program.now
        (change_of E.taken E.failure_count messages.old messages.new) }
    ensures failure { TellsFailure
        (E.failure_count messages.old) (E.failure_count messages.new) result }
{
    match text_of(alloc, reason) {
        Ok(text) => tell_reason(messages, program, Some(text.as_str())),
        Err(_) => tell_reason(messages, program, None),
    }
}

// The reason's text. Where a word is no argument that begins as a negative number, the text also says
// how an option gets such a value.
fn text_of(alloc: Global, reason: &WordsReason) -> Result<String, AllocError> {
    let mut text = reason.to_string(alloc)?;
    if is_of_number(text.as_str()) {
        text.push_str("A value that begins with - follows =, as --window=-1,-1,10,5\n")?;
    }
    Ok(text)
}

// Whether a text of the command line's parser is of a word as -1.
fn is_of_number(text: &str) -> bool {
    match text.strip_prefix("error: unexpected argument '-") {
        Some(rest) => rest
            .as_bytes()
            .first()
            .is_some_and(|byte| byte.is_ascii_digit()),
        None => false,
    }
}

/// Says on one line that the words are bad, and why: the lines of a text, if there is one.
pub(crate) fn tell_reason<E: Sink>(
    messages: &mut E,
    program: &str,
    reason: Option<&str>,
) -> Result<(), Refusal>
    ensures told { HasToldBadWords program.now
        (change_of E.taken E.failure_count messages.old messages.new) }
    ensures failure { TellsFailure
        (E.failure_count messages.old) (E.failure_count messages.new) result }
{
    write_all(messages, program.as_bytes())?;
    write_all(messages, b": bad words:")?;
    if let Some(text) = reason {
        tell_lines(messages, text)?;
    }
    write_all(messages, b"\n")
}

// Writes the lines of a text, each behind a space, or behind a semicolon and a space where it begins
// a paragraph. What it writes has no line feed.
fn tell_lines<E: Sink>(messages: &mut E, text: &str) -> Result<(), Refusal>
    ensures told { OnOk result
        ((why : List ℕ) × All (λ byte. byte ≢ 10) why
        × Appends (E.taken messages.old) (E.taken messages.new) why) }
    ensures beginning { OnErr result
        ((why : List ℕ) × All (λ byte. byte ≢ 10) why
        × AppendsBeginning (E.taken messages.old) (E.taken messages.new) why) }
    ensures failure { TellsFailure
        (E.failure_count messages.old) (E.failure_count messages.new) result }
{
    let text = text.strip_prefix("error: ").unwrap_or(text);
    for line in text.lines() {
        write_all(messages, mark_before(line).as_bytes())?;
        write_all(messages, line.trim().as_bytes())?;
    }
    Ok(())
}

// An empty line ends a paragraph.
fn mark_before(line: &str) -> &'static str
    ensures one_line { All (λ byte. byte ≢ 10) result.now }
{
    if line.is_empty() { ";" } else { " " }
}

/// Says on one line why a program has no words, and answers its exit status: 2 where a word is not
/// UTF-8, which the error tells by its kind `InvalidData`, else 1, since memory ran out while they
/// were read. The program's name has at most 32 bytes.
pub fn tell_no_words<E: Sink>(messages: &mut E, program: &str, error: &io::Error) -> u8
    requires { length program.now ≤ 32 }
    ensures no_memory { ¬ (error_kind error.now ≡ ErrorKind.InvalidData) → (result ≡ 1)
        × HasToldFault program.now (placeless NoMemory)
        (change_of E.taken E.failure_count messages.old messages.new) }
    ensures bad_words { error_kind error.now ≡ ErrorKind.InvalidData → (result ≡ 2)
        × HasToldBadWords program.now
        (change_of E.taken E.failure_count messages.old messages.new) }
    ensures told { HasNoWords program.now
        (change_of E.taken E.failure_count messages.old messages.new) result }
{
    if error.kind() == ErrorKind::InvalidData {
        let _ = tell_reason(messages, program, Some("a word is not UTF-8"));
        return 2;
    }
    let _ = tell_fault(messages, program, Fault::from(Refusal::NoMemory));
    refused_status(Refusal::NoMemory)
}
