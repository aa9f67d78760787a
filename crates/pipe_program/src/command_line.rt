//! The form of the command line: its options, and its help.

ghost use Rattle.std.specs.Prelude.{IfOk};
ghost use Rattle.program_parts.specs.OptionRules.{HaveRules};
ghost use Rattle.pipe_program.specs.CommandLine.{command_rules};

use clap::Arg;
use program_parts::{node_option, worker_option};
use std::alloc::{AllocError, Global};

/// The name of the program, which begins its messages.
pub const NAME: &str = "lifepipe";

/// What the help says first.
pub(crate) const ABOUT: &str =
    "Keeps a Golly pattern open, and answers the requests of another program.

It reads requests from standard input and writes a reply to each to standard
output. docs/lifepipe.md has the requests.";

/// What the help says last.
pub(crate) const EXAMPLES: &str = "Examples:
  lifepipe < requests.txt
      answer the requests in a file
  lifepipe --workers 4 --nodes 67108864
      answer those that come, with four workers and larger node tables";

/// The options.
pub(crate) fn options<'a>(alloc: Global) -> Result<Vec<Arg<'a>>, AllocError>
    ensures { IfOk result (λ options. HaveRules options.items command_rules) }
{
    Ok(vec![in alloc; node_option(alloc), worker_option(alloc)]?)
}
