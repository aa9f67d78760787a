//! The form of the command line: its options, and its help.

ghost use Rattle.std.specs.Prelude.{IfOk};
ghost use Rattle.program_parts.specs.OptionRules.{HasRule, HaveRules};
ghost use Rattle.batch_program.specs.CommandLine.{command_rules, output_option, quiet_option, step_option};

use clap::{Arg, ArgAction};
use program_parts::{
    file_argument, generation_option, node_option, number_option, rule_option, short_option,
    window_option, worker_option,
};
use std::alloc::{AllocError, Global};

/// The name of the program, which begins its messages.
pub const NAME: &str = "lifebatch";

/// What the help says first.
pub(crate) const ABOUT: &str = "A command-line HashLife for Golly pattern files.

It reads an RLE or macrocell file and runs it for N generations. It reports
the population of the first and the last generation, and of those between if
asked. It can draw part of the last generation and write its pattern.";

const WINDOW: &str = "Draw W by H cells from (X,Y) after the report (* live,
. dead), as --window=-20,-15,40,30";

/// What the help says last.
pub(crate) const EXAMPLES: &str = "Examples:
  lifebatch -m 1103 r-pentomino.rle
      run 1103 generations and report the number of live cells
  lifebatch -m 4 -o later.rle glider.rle
      run 4 generations and write the pattern to later.rle
  lifebatch -m 1073741824 -o later.mc breeder.mc
      run 2^30 generations of a macrocell file and write another
  lifebatch -m 100 -i 10 glider.rle
      run 100 generations and report every tenth
  lifebatch -r B36/S23 -m 50 r-pentomino.rle
      run 50 generations with the rule B36/S23
  lifebatch -q -m 1103 -o later.rle r-pentomino.rle
      run 1103 generations, write the pattern and report nothing
  lifebatch -m 100 --window=-20,-15,40,30 r-pentomino.rle
      run 100 generations and draw 40 x 30 cells from (-20,-15)
  lifebatch -m 1073741824 --nodes 67108864 --workers 4 breeder.mc
      run 2^30 generations in larger node tables, with four workers";

/// The options, and FILE.
pub(crate) fn options<'a>(alloc: Global) -> Result<Vec<Arg<'a>>, AllocError>
    ensures { IfOk result (λ options. HaveRules options.items command_rules) }
{
    Ok(vec![in alloc;
        generation_option(alloc),
        step_option(alloc),
        output_option(alloc),
        rule_option(alloc),
        quiet_option(alloc),
        window_option(alloc, WINDOW),
        node_option(alloc),
        worker_option(alloc),
        file_argument(alloc),
    ]?)
}

fn step_option<'a>(alloc: Global) -> Arg<'a>
    ensures { HasRule result step_option }
{
    number_option(
        alloc,
        "stepsize",
        'i',
        "Report every N generations; 0 reports the first and\nthe last",
    )
}

fn output_option<'a>(alloc: Global) -> Arg<'a>
    ensures { HasRule result output_option }
{
    short_option(
        alloc,
        "output",
        'o',
        "NAME",
        "Write the pattern to NAME, which ends with .rle or .mc",
    )
}

fn quiet_option<'a>(alloc: Global) -> Arg<'a>
    ensures { HasRule result quiet_option }
{
    Arg::new(alloc, "quiet")
        .short('q')
        .long("quiet")
        .action(ArgAction::SetTrue)
        .help("Report no generation")
}
