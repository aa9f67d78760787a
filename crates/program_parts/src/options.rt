//! The form of a command line: options that several programs have, and what options are made of.

ghost use Rattle.std.specs.Prelude.{◌≡◌, List, fold, IfOk};
ghost use Rattle.clap.specs.Words.{Rule, app_of, new_app, with_rule};
ghost use Rattle.program_parts.specs.OptionRules.{HasRule, HaveRules, file_argument, generation_option, node_option, numeric, rule_option, valued, valued_in_short, window_option, worker_option};

use clap::{Arg, Command, value_parser};
use std::alloc::{AllocError, Global};

/// The form of the words of a program: its name, what the help says first, its options and
/// arguments, and what the help says last.
pub fn command_with<'a>(
    alloc: Global,
    name: &'a str,
    about: &'a str,
    arguments: Vec<Arg<'a>>,
    examples: &'a str,
) -> Result<Command<'a>, AllocError>
    ensures { (rules : List Rule) → HaveRules arguments.entry.items rules →
        IfOk result (λ command. app_of command ≡ fold with_rule (new_app name.entry.now) rules) }
{
    Command::new(alloc, name)
        .about(about)
        .after_help(examples)
        .args(arguments)
}

/// `-m N`, `--generation N`: a number below 2^64, 0 if it is left out.
pub fn generation_option<'a>(alloc: Global) -> Arg<'a>
    ensures { HasRule result generation_option }
{
    number_option(
        alloc,
        "generation",
        'm',
        "Run N generations on from the file's own",
    )
}

/// `-r R`, `--rule R`.
pub fn rule_option<'a>(alloc: Global) -> Arg<'a>
    ensures { HasRule result rule_option }
{
    short_option(
        alloc,
        "rule",
        'r',
        "R",
        "Use rule R; the file's rule is ignored",
    )
}

/// `--window=X,Y,W,H`, with this line in the help.
pub fn window_option<'a>(alloc: Global, help: &'a str) -> Arg<'a>
    ensures { HasRule result window_option }
{
    long_option(alloc, "window", "X,Y,W,H", help)
}

/// `--nodes N`: a number below 2^64, 4194304 if it is left out. Which numbers are fit is for
/// [`crate::run_numbers`] to say.
pub fn node_option<'a>(alloc: Global) -> Arg<'a>
    ensures { HasRule result node_option }
{
    long_option(
        alloc,
        "nodes",
        "N",
        "Limit the node tables to N slots in total (18\nbytes each), a power of two from 1024 to\n268435456",
    )
    .value_parser(value_parser!(u64))
    .default_value("4194304")
}

/// `--workers N`: a number below 2^64, 1 if it is left out. Which numbers are fit is for
/// [`crate::run_numbers`] to say.
pub fn worker_option<'a>(alloc: Global) -> Arg<'a>
    ensures { HasRule result worker_option }
{
    long_option(alloc, "workers", "N", "Run with N workers, from 1 to 64")
        .value_parser(value_parser!(u64))
        .default_value("1")
}

/// An option with a short name that takes a number below 2^64, 0 if it is left out.
pub fn number_option<'a>(alloc: Global, name: &'a str, short: char, help: &'a str) -> Arg<'a>
    ensures { HasRule result (numeric name.entry.now short) }
{
    short_option(alloc, name, short, "N", help)
        .value_parser(value_parser!(u64))
        .default_value("0")
}

/// An option with a short name that takes a value.
pub fn short_option<'a>(
    alloc: Global,
    name: &'a str,
    short: char,
    value_name: &'a str,
    help: &'a str,
) -> Arg<'a>
    ensures { HasRule result (valued_in_short name.entry.now short) }
{
    long_option(alloc, name, value_name, help).short(short)
}

/// An option that takes a value.
pub fn long_option<'a>(alloc: Global, name: &'a str, value_name: &'a str, help: &'a str) -> Arg<'a>
    ensures { HasRule result (valued name.entry.now) }
{
    Arg::new(alloc, name)
        .long(name)
        .value_name(value_name)
        .help(help)
}

/// FILE, which has to be there.
pub fn file_argument<'a>(alloc: Global) -> Arg<'a>
    ensures { HasRule result file_argument }
{
    Arg::new(alloc, "file")
        .value_name("FILE")
        .required(true)
        .help("The pattern file to read; /dev/stdin reads standard input")
}
