//! The form of the command line: its options, and its help.

ghost use Rattle.std.specs.Prelude.{IfOk};
ghost use Rattle.program_parts.specs.OptionRules.{HasRule, HaveRules};
ghost use Rattle.view_program.specs.CommandLine.{command_rules, output_option, size_option};

use crate::asking::{LARGEST_SIZE, SMALLEST_SIZE};
use crate::picture_format::OUTPUT_HELP;
use clap::Arg;
use clap::builder::ValueParser;
use program_parts::{
    file_argument, generation_option, long_option, node_option, rule_option, short_option,
    window_option, worker_option,
};
use std::alloc::{AllocError, Global};

/// The name of the program, which begins its messages.
pub const NAME: &str = "lifeview";

/// What the help says first.
pub(crate) const ABOUT: &str = "Draws a Golly pattern file after N generations, as a picture.

It reads an RLE or macrocell file, runs it for N generations by HashLife, and
draws the last generation: all live cells, or the window that is asked for.
Where there is no pixel for each cell, the shade of a pixel says how many
cells of a block live.";

const WINDOW: &str = "Show W by H cells from (X,Y), as
--window=-20,-15,40,30, and not the bounding box of
the live cells";

/// What the help says last.
pub(crate) const EXAMPLES: &str = "Examples:
  lifeview -o glider.png glider.rle
      draw a pattern as it is
  lifeview -m 1103 -o settled.png r-pentomino.rle
      draw it after 1103 generations
  lifeview -m 1103 --window=-20,-15,40,30 -o middle.png r-pentomino.rle
      draw 40 x 30 cells from (-20,-15)
  lifeview -m 1073741824 --size 4096 --workers 4 -o large.png breeder.mc
      draw a breeder after 2^30 generations, with at most 4096 pixels on a side";

/// The options, and FILE.
pub(crate) fn options<'a>(alloc: Global) -> Result<Vec<Arg<'a>>, AllocError>
    ensures { IfOk result (λ options. HaveRules options.items command_rules) }
{
    Ok(vec![in alloc;
        generation_option(alloc),
        output_option(alloc),
        window_option(alloc, WINDOW),
        size_option(alloc),
        rule_option(alloc),
        node_option(alloc),
        worker_option(alloc),
        file_argument(alloc),
    ]?)
}

fn output_option<'a>(alloc: Global) -> Arg<'a>
    ensures { HasRule result output_option }
{
    short_option(alloc, "output", 'o', "NAME", OUTPUT_HELP).required(true)
}

fn size_option<'a>(alloc: Global) -> Arg<'a>
    ensures { HasRule result size_option }
{
    long_option(
        alloc,
        "size",
        "N",
        "Draw at most N pixels on a side, from 16 to\n4096",
    )
    .value_parser(ValueParser::Unsigned(u64::from(SMALLEST_SIZE), u64::from(LARGEST_SIZE)))
    .default_value("1024")
}
