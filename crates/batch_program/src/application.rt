//! The program, by its command line and by what it does, and its calls.

ghost use Rattle.std.specs.Prelude.{codes, IfErr, IfOk};
ghost use Rattle.plane.specs.SinkChange.{change_of};
ghost use Rattle.program_parts.specs.Asking.{IsFaultOf};
ghost use Rattle.program_parts.specs.Behaviour.{EndsProgram};
ghost use Rattle.program_parts.specs.Texts.{texts_of};
ghost use Rattle.batch_program.specs.CommandLine.{AsksFor, command_line, form_is_free};
ghost use Rattle.batch_program.specs.Status.{behaviour};

use crate::asking::{Asked, options_by};
use crate::command_line::{ABOUT, EXAMPLES, NAME, options};
use clap::{ArgMatches, Command};
use engine::run_from;
use plane::{Fault, Sink, Source};
use program_parts::{Application, Misfit, WordsFault, WordsReason, command_with, copied};
use std::alloc::{AllocError, Global};
use std::rt::Files;
use std::thread::Threads;

/// The program lifebatch.
pub struct Lifebatch;

impl Application for Lifebatch {
    type Asked = Asked;

    ghost name = { codes "lifebatch" };

    ghost behaviour = { behaviour };

    fn name() -> &'static str {
        NAME
    }

    fn command<'a>(alloc: Global) -> Result<Command<'a>, AllocError> {
        command_with(alloc, NAME, ABOUT, options(alloc)?, EXAMPLES)
    }

    fn asked_by(alloc: Global, matches: &ArgMatches<'_>) -> Result<Asked, WordsReason> {
        let Some(file) = matches.get_str("file") else {
            return Err(WordsReason::Unfit(Misfit::Other));
        };
        let options = options_by(matches)?;
        Ok(Asked {
            options,
            file: String::from_str(alloc, file)?,
            output: copied(alloc, matches.get_str("output"))?,
        })
    }

    fn input(asked: &Asked) -> &str {
        asked.file.as_str()
    }

    fn output(asked: &Asked) -> Option<&str> {
        asked.output.as_ref().map(|name| name.as_str())
    }

    // Reads the source and runs it.
    fn perform<R: Threads + Sync, S: Source, O: Sink, V: Sink>(
        rt: &R,
        alloc: Global,
        asked: &Asked,
        source: &mut S,
        out: &mut O,
        file: &mut V,
    ) -> Result<(), Fault> {
        run_from(rt, alloc, source, &asked.options, out, file).and(Ok(()))
    }

    ghost form_is_free = { form_is_free };
}

/// Reads the words of a command line, the program's name first. It answers `Clap` for words that
/// are not of its form and for a request for help, `Unfit` for an output whose name ends neither
/// with `.rle` nor with `.mc`, for a window that is not four numbers and for a number of nodes that
/// is not a power of two, then `Refused` with `BadRule` or `BirthOnZero` for the rule that is
/// given, then `Refused` with `WindowTooLarge`, and `Refused` with `NoMemory`.
pub fn asked<'a>(alloc: Global, words: &'a [&'a str]) -> Result<Asked, WordsFault>
    ensures asks { IfOk result (AsksFor (texts_of words.entry.now)) }
    ensures faults { IfErr result (IsFaultOf command_line (texts_of words.entry.now)) }
{
    program_parts::asked::<Lifebatch>(alloc, words)
}

/// The whole program. `words` are the arguments, the program's name first. It writes the report or
/// the help to `out` and messages to `err`, and returns the exit status.
///
/// - 0: the run went well, or help was asked for.
/// - 1: the run was refused; one line names the refusal and its byte offset.
/// - 2: usage error; one line says what is wrong.
/// - 3: the input could not be read, or the report or the output could not be written.
///
/// The output file is created at its first byte. A failure of `err` changes nothing else.
pub fn program<R: Files + Input + Threads + Sync, O: Sink, E: Sink>(
    rt: &R,
    alloc: Global,
    words: &[&str],
    out: &mut O,
    err: &mut E,
) -> u8
    ensures { EndsProgram behaviour (codes "lifebatch") (texts_of words.now)
        (change_of O.taken O.failure_count out.old out.new)
        (change_of E.taken E.failure_count err.old err.new) result }
{
    program_parts::program::<Lifebatch, R, O, E>(rt, alloc, words, out, err)
}
