//! The program, by its command line and by what it does.

ghost use Rattle.std.specs.Prelude.{codes};
ghost use Rattle.pipe_program.specs.CommandLine.{form_is_free};
ghost use Rattle.pipe_program.specs.Status.{behaviour};

use crate::command_line::{ABOUT, EXAMPLES, NAME, options};
use crate::conversing::converse;
use clap::{ArgMatches, Command};
use engine::{OpenGate, Team};
use plane::{Fault, Sink, Source};
use program_parts::{Application, Limits, WordsReason, command_with, limits_asked};
use std::alloc::{AllocError, Global};
use std::thread::Threads;

/// The program lifepipe, for [`program_parts::program`] and [`program_parts::start`]. It writes
/// replies, or the help, to standard output, and no file.
///
/// - 0: standard input ended, or help was asked for.
/// - 2: usage error; one line says what is wrong.
/// - 3: standard input could not be read, or a reply could not be written.
pub struct Lifepipe;

impl Application for Lifepipe {
    type Asked = Limits;

    ghost name = { codes "lifepipe" };

    ghost behaviour = { behaviour };

    fn name() -> &'static str {
        NAME
    }

    fn command<'a>(alloc: Global) -> Result<Command<'a>, AllocError> {
        command_with(alloc, NAME, ABOUT, options(alloc)?, EXAMPLES)
    }

    fn asked_by(_alloc: Global, matches: &ArgMatches<'_>) -> Result<Limits, WordsReason> {
        limits_asked(matches)
    }

    fn input(_asked: &Limits) -> &str {
        "/dev/stdin"
    }

    fn output(_asked: &Limits) -> Option<&str> {
        None
    }

    // Answers the requests of the source.
    fn perform<R: Threads + Sync, S: Source, O: Sink, V: Sink>(
        rt: &R,
        alloc: Global,
        asked: &Limits,
        source: &mut S,
        out: &mut O,
        _file: &mut V,
    ) -> Result<(), Fault> {
        let team = Team {
            runtime: rt,
            alloc,
            workers: asked.workers,
            gate: &OpenGate,
        };
        converse(&team, asked.pairs, source, out)?;
        Ok(())
    }

    ghost form_is_free = { form_is_free };
}
