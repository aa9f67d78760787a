//! The twenty refusals.

ghost use Rattle.std.specs.Prelude.{◌≡◌, Some};
ghost use Rattle.plane.specs.declared.refusal.Refusal.TheVariants.{NoMemory};
ghost use Rattle.plane.specs.Refusal.{name_of, number_of, rule_refusal};

use rule_text::RuleFault;
use std::alloc::{AllocError, AllocFailed};
use std::error::Error;
use std::fmt;

/// Why something was refused. Each reason has a number and a name.
#[derive(Clone, Copy, Debug, PartialEq, Eq)]
pub enum Refusal {
    /// The file does not begin as a pattern file does.
    NotAPattern = 1,
    /// The header line, or a position before it, is malformed.
    BadHeader = 2,
    /// The rule text is not of the grammar.
    BadRule = 3,
    /// The rule makes cells live that have no live neighbour.
    BirthOnZero = 4,
    /// A byte of the body is not a tag.
    BadTag = 5,
    /// A tag of a file with more than two states.
    MoreStates = 6,
    /// A count is 0, or no tag follows it.
    BadCount = 7,
    /// A coordinate or a level is outside the range.
    OutOfRange = 8,
    /// More live cells or nodes than a file may have.
    TooManyCells = 9,
    /// A line of a macrocell file is neither a leaf nor an inner node.
    BadNodeLine = 10,
    /// A node's child is not an earlier node of the level below.
    BadChild = 11,
    /// The file is a timeline.
    FramesNotRead = 12,
    /// A generation is not a number, or is above the limit.
    BadGen = 13,
    /// The run would leave the range of coordinates or of generations.
    TooFar = 14,
    /// The box of the cells is too large for an RLE file.
    BoxTooLarge = 15,
    /// The window is empty, too large or too far away.
    WindowTooLarge = 16,
    /// The node table is full.
    NodesFull = 17,
    /// Memory ran out.
    NoMemory = 18,
    /// The input could not be read.
    ReadFailed = 19,
    /// The output could not be written.
    WriteFailed = 20,
}

impl Refusal {
    /// Its number, from 1 to 20.
    pub fn number(self) -> u8
        ensures { result ≡ number_of self }
    {
        self as u8
    }

    /// Its name, as messages show it.
    pub fn name(self) -> &'static str
        ensures { result.now ≡ name_of self }
    {
        match self {
            Refusal::NotAPattern => "NotAPattern",
            Refusal::BadHeader => "BadHeader",
            Refusal::BadRule => "BadRule",
            Refusal::BirthOnZero => "BirthOnZero",
            Refusal::BadTag => "BadTag",
            Refusal::MoreStates => "MoreStates",
            Refusal::BadCount => "BadCount",
            Refusal::OutOfRange => "OutOfRange",
            Refusal::TooManyCells => "TooManyCells",
            Refusal::BadNodeLine => "BadNodeLine",
            Refusal::BadChild => "BadChild",
            Refusal::FramesNotRead => "FramesNotRead",
            Refusal::BadGen => "BadGen",
            Refusal::TooFar => "TooFar",
            Refusal::BoxTooLarge => "BoxTooLarge",
            Refusal::WindowTooLarge => "WindowTooLarge",
            Refusal::NodesFull => "NodesFull",
            Refusal::NoMemory => "NoMemory",
            Refusal::ReadFailed => "ReadFailed",
            Refusal::WriteFailed => "WriteFailed",
        }
    }
}

impl fmt::Display for Refusal {
    ghost output = { λ refusal. Some (name_of refusal) };

    fn fmt<W: fmt::Write>(&self, f: &mut fmt::Formatter<W>) -> fmt::Result {
        f.write_str(self.name())
    }
}

impl Error for Refusal {}

/// A failed allocation is `NoMemory`.
impl From<AllocError> for Refusal {
    ghost from_gives = { λ _ refusal. refusal ≡ NoMemory };

    fn from(_error: AllocError) -> Refusal {
        Refusal::NoMemory
    }
}

/// A failed allocation is `NoMemory`. The value that was to be stored is dropped.
impl<T: Drop> From<AllocFailed<T>> for Refusal {
    ghost from_gives = { λ _ refusal. refusal ≡ NoMemory };

    fn from(_error: AllocFailed<T>) -> Refusal {
        Refusal::NoMemory
    }
}

/// The refusal of a rule's fault: `BadRule` or `BirthOnZero`.
pub fn rule_refusal(fault: RuleFault) -> Refusal
    ensures { result ≡ rule_refusal fault }
{
    match fault {
        RuleFault::BadRule => Refusal::BadRule,
        RuleFault::BirthOnZero => Refusal::BirthOnZero,
    }
}
