//! A whole program, over any words, standard output and standard error.

ghost use Rattle.std.specs.Prelude.{◌≡◌, ◌⊎◌, List, Err, IfOk, OnOk, IfErr};
ghost use Rattle.clap.specs.Words.{Text};
ghost use Rattle.plane.specs.Fault.{placeless};
ghost use Rattle.plane.specs.SinkChange.{change_of};
ghost use Rattle.program_parts.specs.Asking.{IsFaultOf, IsReasonOf};
ghost use Rattle.program_parts.specs.Behaviour.{EndsProgram, IsDone, IsPerformed, IsStop};
ghost use Rattle.program_parts.specs.Texts.{texts_of};
ghost use Rattle.program_parts.specs.declared.stops.Stop.TheVariants.{Refused};

use crate::application::Application;
use crate::input_file::InputFile;
use crate::output_file::OutputFile;
use crate::reason::{WordsFault, WordsReason};
use crate::stops::{Stop, end_of_words, tell_end};
use plane::{Fault, Refusal, Sink};
use std::alloc::{AllocError, Global};
use std::rt::Files;
use std::thread::Threads;

/// Reads the words of a command line, the program's name first.
pub fn asked<'a, A: Application>(
    alloc: Global,
    words: &'a [&'a str],
) -> Result<A::Asked, WordsFault>
    ensures asks { IfOk result (A.behaviour.AsksFor (texts_of words.entry.now)) }
    ensures faults { IfErr result (IsFaultOf A.behaviour.line (texts_of words.entry.now)) }
{
    match read_words::<A>(alloc, words) {
        Ok(asked) => Ok(asked),
        Err(reason) => Err(reason.fault()),
    }
}

// Reads the words of a command line. What it answers says which value is not fit.
fn read_words<'a, A: Application>(
    alloc: Global,
    words: &'a [&'a str],
) -> Result<A::Asked, WordsReason>
    ensures asks { IfOk result (A.behaviour.AsksFor (texts_of words.entry.now)) }
    ensures faults { IfErr result (IsReasonOf A.behaviour.line (texts_of words.entry.now)) }
{
    let matches = A::command(alloc)?.try_get_matches_from(words)?;
    A::asked_by(alloc, &matches)
}

/// The whole program. `words` are the arguments, the program's name first. It does what they ask
/// for, or writes the help to `out`, and messages to `err`, and returns the exit status: 0, 2 for
/// bad words, else 3 where a device failed and 1 where not. A failure of `err` changes nothing
/// else.
pub fn program<A: Application, R: Files + Input + Threads + Sync, O: Sink, E: Sink>(
    rt: &R,
    alloc: Global,
    words: &[&str],
    out: &mut O,
    err: &mut E,
) -> u8
    ensures { EndsProgram A.behaviour A.name (texts_of words.now)
        (change_of O.taken O.failure_count out.old out.new)
        (change_of E.taken E.failure_count err.old err.new) result }
{
    let ended = perform::<A, R, O>(rt, alloc, words, out);
    tell_end(alloc, err, A::name(), ended)
}

// Does what the words ask for, with the files that they name. What the program then tells has no
// part in it.
fn perform<A: Application, R: Files + Input + Threads + Sync, O: Sink>(
    rt: &R,
    alloc: Global,
    words: &[&str],
    out: &mut O,
) -> Result<(), Stop>
    ensures done { OnOk result (IsDone A.behaviour (texts_of words.now)
        (change_of O.taken O.failure_count out.old out.new)) }
    ensures stopped { IfErr result (IsStop A.behaviour (texts_of words.now)
        (change_of O.taken O.failure_count out.old out.new)) }
    ensures unfailed { (result ≡ Err (Refused (placeless Refusal.WriteFailed)))
        ⊎ (O.failure_count out.new ≡ O.failure_count out.old) }
{
    let asked = match read_words::<A>(alloc, words) {
        Ok(asked) => asked,
        Err(reason) => return end_of_words(alloc, reason, out),
    };
    perform_asked::<A, R, O>(rt, alloc, &asked, out)?;
    Ok(())
}

// Does what some words ask for, with the files that they name.
fn perform_asked<A: Application, R: Files + Input + Threads + Sync, O: Sink>(
    rt: &R,
    alloc: Global,
    asked: &A::Asked,
    out: &mut O,
) -> Result<(), Fault>
    requires { (words : List Text) × A.behaviour.AsksFor words asked.now }
    ensures performed { (words : List Text) → A.behaviour.AsksFor words asked.now →
        IsPerformed A.behaviour words (change_of O.taken O.failure_count out.old out.new) result }
    ensures unfailed { (result ≡ Err (placeless Refusal.WriteFailed))
        ⊎ (O.failure_count out.new ≡ O.failure_count out.old) }
{
    let mut source = InputFile::open(rt, A::input(asked));
    let mut file = OutputFile::new(rt, A::output(asked));
    A::perform(rt, alloc, asked, &mut source, out, &mut file)
}
