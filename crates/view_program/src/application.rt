//! The program, by its command line and by what it does.

ghost use Rattle.std.specs.Prelude.{codes};
ghost use Rattle.view_program.specs.CommandLine.{form_is_free};
ghost use Rattle.view_program.specs.Status.{behaviour};

use crate::asking::{Asked, view_by};
use crate::command_line::{ABOUT, EXAMPLES, NAME, options};
use crate::drawing::draw_from;
use crate::picture_format::{ENDINGS, format_by};
use clap::{ArgMatches, Command};
use plane::{Fault, Sink, Source};
use program_parts::{Application, Misfit, WordsReason, command_with};
use std::alloc::{AllocError, Global};
use std::thread::Threads;

/// The program lifeview, for [`program_parts::program`] and [`program_parts::start`]. It writes two
/// lines about the picture, or the help, to standard output.
///
/// - 0: the picture was written, or help was asked for.
/// - 1: the run was refused; one line names the refusal and its byte offset.
/// - 2: usage error; one line says what is wrong.
/// - 3: the input could not be read, or the lines or the picture could not be written.
///
/// The picture's file is created at its first byte, when the whole picture is in memory.
pub struct Lifeview;

impl Application for Lifeview {
    type Asked = Asked;

    ghost name = { codes "lifeview" };

    ghost behaviour = { behaviour };

    fn name() -> &'static str {
        NAME
    }

    fn command<'a>(alloc: Global) -> Result<Command<'a>, AllocError> {
        command_with(alloc, NAME, ABOUT, options(alloc)?, EXAMPLES)
    }

    // It answers `Unfit` for a picture whose name does not end as those of pictures, for a window that is
    // not four numbers and for a number of nodes that is not a power of two, then `Refused` with
    // `BadRule` or `BirthOnZero` for the rule that is given, then `Refused` with `WindowTooLarge`
    // for a window without cells or with a side beyond 2^62.
    fn asked_by(alloc: Global, matches: &ArgMatches<'_>) -> Result<Asked, WordsReason> {
        let Some(file) = matches.get_str("file") else {
            return Err(WordsReason::Unfit(Misfit::Other));
        };
        let Some(output) = matches.get_str("output") else {
            return Err(WordsReason::Unfit(Misfit::Other));
        };
        let Some(format) = format_by(output) else {
            return Err(WordsReason::Unfit(Misfit::Ending(ENDINGS)));
        };
        let view = view_by(matches, format)?;
        Ok(Asked {
            view,
            file: String::from_str(alloc, file)?,
            output: String::from_str(alloc, output)?,
        })
    }

    fn input(asked: &Asked) -> &str {
        asked.file.as_str()
    }

    fn output(asked: &Asked) -> Option<&str> {
        Some(asked.output.as_str())
    }

    // Reads the source, runs it, and writes its picture.
    fn perform<R: Threads + Sync, S: Source, O: Sink, V: Sink>(
        rt: &R,
        alloc: Global,
        asked: &Asked,
        source: &mut S,
        out: &mut O,
        file: &mut V,
    ) -> Result<(), Fault> {
        let name = asked.output.as_str();
        draw_from(rt, alloc, source, &asked.view, name, out, file)
    }

    ghost form_is_free = { form_is_free };
}
