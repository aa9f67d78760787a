//! The form of the command line: its options, and its help.

ghost use Rattle.std.specs.Prelude.{IfOk};
ghost use Rattle.program_parts.specs.OptionRules.{HasRule, HaveRules};
ghost use Rattle.period_program.specs.CommandLine.{command_rules, most_option, multiple_option};

use crate::asking::{LARGEST_MOST, LARGEST_MULTIPLE};
use clap::Arg;
use clap::builder::ValueParser;
use program_parts::{
    file_argument, generation_option, long_option, node_option, rule_option, worker_option,
};
use std::alloc::{AllocError, Global};

/// The name of the program, which begins its messages.
pub const NAME: &str = "lifeperiod";

/// What the help says first.
pub(crate) const ABOUT: &str = "Finds the period of a Golly pattern file.

It reads an RLE or macrocell file, and says after how many generations the
pattern is for the first time what it was, and how far it has moved by then,
to the right and down. A pattern without live cells has period 1.";

/// What the help says last.
pub(crate) const EXAMPLES: &str = "Examples:
  lifeperiod glider.rle
      find the period, if it is at most 1000
  lifeperiod --most 10000 gun.rle
      find it, if it is at most 10000
  lifeperiod -m 1103 r-pentomino.rle
      find the period of what the pattern is after 1103 generations
  lifeperiod --multiple 2097152 demonoid.mc
      find it, if 2097152 is a multiple of it; only its divisors are tried
  lifeperiod --multiple 103079214841 --nodes 67108864 --workers 4 oscillator.mc
      the same in larger node tables, with four workers";

/// The options, and FILE.
pub(crate) fn options<'a>(alloc: Global) -> Result<Vec<Arg<'a>>, AllocError>
    ensures { IfOk result (λ options. HaveRules options.items command_rules) }
{
    Ok(vec![in alloc;
        most_option(alloc),
        multiple_option(alloc),
        generation_option(alloc),
        rule_option(alloc),
        node_option(alloc),
        worker_option(alloc),
        file_argument(alloc),
    ]?)
}

fn most_option<'a>(alloc: Global) -> Arg<'a>
    ensures { HasRule result most_option }
{
    long_option(
        alloc,
        "most",
        "N",
        "Try each number of generations from 1 to N, at most\n4294967296 [default: 1000]",
    )
    .value_parser(ValueParser::Unsigned(1, LARGEST_MOST))
}

fn multiple_option<'a>(alloc: Global) -> Arg<'a>
    ensures { HasRule result multiple_option }
{
    long_option(
        alloc,
        "multiple",
        "N",
        "Try the divisors of N, at most 2^63, and not each number",
    )
    .value_parser(ValueParser::Unsigned(1, LARGEST_MULTIPLE))
}
