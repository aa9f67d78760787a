//! Why words ask for no run.

ghost use Rattle.std.specs.Prelude.{◌≡◌};
ghost use Rattle.plane.specs.declared.refusal.Refusal.TheVariants.{NoMemory};
ghost use Rattle.program_parts.specs.Faults.{IsToldAs};
ghost use Rattle.program_parts.specs.declared.reason.WordsReason.TheVariants.{Refused};

use clap::error::ErrorKind;
use plane::Refusal;
use run_options::MOST_WORKERS;
use std::alloc::AllocError;
use std::{error, fmt};
use table_core::{LARGEST_PAIR_COUNT, SMALLEST_PAIR_COUNT};

/// Which value of a command line is not fit. As text it says what is allowed.
#[derive(Clone, Copy, Debug, PartialEq, Eq)]
pub enum Misfit {
    /// The name of the output has none of these endings, as `.rle or .mc`.
    Ending(&'static str),
    /// The window is not four whole numbers.
    Window,
    /// The number of slots in the node tables is not a power of two from 1024 to 268435456.
    Nodes,
    /// The number of workers is not from 1 to 64.
    Workers,
    /// These two options exclude each other, as `--most and --multiple`.
    Together(&'static str),
    /// A value is missing, or out of its range.
    Other,
}

impl fmt::Display for Misfit {
    fn fmt<W: fmt::Write>(&self, f: &mut fmt::Formatter<W>) -> fmt::Result {
        match self {
            Misfit::Ending(endings) => write!(f, "NAME must end with {endings}"),
            Misfit::Window => {
                f.write_str("--window takes four whole numbers X,Y,W,H, as --window=-20,-15,40,30")
            }
            Misfit::Nodes => {
                write!(
                    f,
                    "--nodes takes a power of two from {SMALLEST_PAIR_COUNT} to {LARGEST_PAIR_COUNT}"
                )
            }
            Misfit::Workers => write!(f, "--workers takes a number from 1 to {MOST_WORKERS}"),
            Misfit::Together(options) => write!(f, "{options} exclude each other"),
            Misfit::Other => f.write_str("a value is missing, or out of its range"),
        }
    }
}

impl error::Error for Misfit {}

/// Why a command line asks for no run. As text it says so to the user.
#[derive(Drop)]
pub enum WordsReason {
    /// The arguments have a syntax error, or ask for the help.
    Clap(clap::Error),
    /// The arguments have the right form, with this value that is not fit.
    Unfit(Misfit),
    /// Memory ran out while the words were read, or the rule or the window that they give is
    /// refused.
    Refused(Refusal),
}

impl WordsReason {
    ghost use Rattle.program_parts.specs.Faults.{fault_by};

    /// The fault of the words, which doesn't say which value is not fit.
    pub(crate) fn fault(self) -> WordsFault
        ensures { result ≡ fault_by self }
    {
        match self {
            WordsReason::Clap(error) => WordsFault::Clap(error),
            WordsReason::Unfit(_) => WordsFault::Unfit,
            WordsReason::Refused(refusal) => WordsFault::Refused(refusal),
        }
    }
}

impl fmt::Display for WordsReason {
    fn fmt<W: fmt::Write>(&self, f: &mut fmt::Formatter<W>) -> fmt::Result {
        match self {
            WordsReason::Clap(error) => write!(f, "{error}"),
            WordsReason::Unfit(misfit) => write!(f, "{misfit}"),
            WordsReason::Refused(refusal) => write!(f, "{refusal}"),
        }
    }
}

impl From<AllocError> for WordsReason {
    ghost from_gives = { λ _ reason. reason ≡ Refused NoMemory };

    fn from(_error: AllocError) -> WordsReason {
        WordsReason::Refused(Refusal::NoMemory)
    }
}

impl From<Refusal> for WordsReason {
    ghost from_gives = { λ refusal reason. reason ≡ Refused refusal };

    fn from(refusal: Refusal) -> WordsReason {
        WordsReason::Refused(refusal)
    }
}

impl From<clap::Error> for WordsReason {
    ghost from_gives = { IsToldAs };

    fn from(error: clap::Error) -> WordsReason {
        if error.kind() == ErrorKind::OutOfMemory {
            WordsReason::Refused(Refusal::NoMemory)
        } else {
            WordsReason::Clap(error)
        }
    }
}

/// Why a command line asks for no run, but for which value is not fit.
#[derive(Debug, Drop)]
pub enum WordsFault {
    /// The arguments have a syntax error, or ask for the help.
    Clap(clap::Error),
    /// The arguments have the right form, with a value that is not fit.
    Unfit,
    /// Memory ran out while the words were read, or the rule or the window that they give is
    /// refused.
    Refused(Refusal),
}

impl fmt::Display for WordsFault {
    fn fmt<W: fmt::Write>(&self, f: &mut fmt::Formatter<W>) -> fmt::Result {
        match self {
            WordsFault::Clap(error) => write!(f, "{error}"),
            WordsFault::Unfit => f.write_str("a value is not fit"),
            WordsFault::Refused(refusal) => write!(f, "{refusal}"),
        }
    }
}

impl error::Error for WordsFault {}
