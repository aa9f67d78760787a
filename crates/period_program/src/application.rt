//! The program, by its command line and by what it does.

ghost use Rattle.std.specs.Prelude.{codes};
ghost use Rattle.period_program.specs.CommandLine.{form_is_free};
ghost use Rattle.period_program.specs.Status.{behaviour};

use crate::asking::{Asked, search_by};
use crate::command_line::{ABOUT, EXAMPLES, NAME, options};
use crate::finding::find_from;
use clap::{ArgMatches, Command};
use plane::{Fault, Sink, Source};
use program_parts::{Application, Misfit, WordsReason, command_with};
use std::alloc::{AllocError, Global};
use std::thread::Threads;

/// The program lifeperiod, for [`program_parts::program`] and [`program_parts::start`]. It writes
/// one line with the period, or the help, to standard output, and no file.
///
/// - 0: the line was written, or help was asked for.
/// - 1: the run or the search was refused; one line names the refusal and its byte offset.
/// - 2: usage error; one line says what is wrong.
/// - 3: the input could not be read, or the line could not be written.
pub struct Lifeperiod;

impl Application for Lifeperiod {
    type Asked = Asked;

    ghost name = { codes "lifeperiod" };

    ghost behaviour = { behaviour };

    fn name() -> &'static str {
        NAME
    }

    fn command<'a>(alloc: Global) -> Result<Command<'a>, AllocError> {
        command_with(alloc, NAME, ABOUT, options(alloc)?, EXAMPLES)
    }

    // It answers `Unfit` for numbers that are not fit and for `--most` beside `--multiple`, then
    // `Refused` with `BadRule` or `BirthOnZero` for the rule that is given.
    fn asked_by(alloc: Global, matches: &ArgMatches<'_>) -> Result<Asked, WordsReason> {
        let Some(file) = matches.get_str("file") else {
            return Err(WordsReason::Unfit(Misfit::Other));
        };
        let search = search_by(matches)?;
        Ok(Asked {
            search,
            file: String::from_str(alloc, file)?,
        })
    }

    fn input(asked: &Asked) -> &str {
        asked.file.as_str()
    }

    fn output(_asked: &Asked) -> Option<&str> {
        None
    }

    // Reads the source, and writes the line of its period.
    fn perform<R: Threads + Sync, S: Source, O: Sink, V: Sink>(
        rt: &R,
        alloc: Global,
        asked: &Asked,
        source: &mut S,
        out: &mut O,
        _file: &mut V,
    ) -> Result<(), Fault> {
        find_from(rt, alloc, source, &asked.search, out)
    }

    ghost form_is_free = { form_is_free };
}
