//! What a request asks for.

use rule_text::{Rule, RuleFault};

/// The most that `period` may try.
pub const LARGEST_MOST: u64 = 1 << 32;

/// The most that `multiple` may give.
pub const LARGEST_MULTIPLE: u64 = 1 << 63;

/// The least size of a picture.
pub const SMALLEST_SIZE: u32 = 16;

/// The largest size of a picture.
pub const LARGEST_SIZE: u32 = 4096;

/// A format of pattern files.
#[derive(Clone, Copy, Debug, PartialEq, Eq)]
pub enum TextFormat {
    /// `rle`
    Rle,
    /// `mc`
    Macrocell,
}

/// What a line asks for. Numbers that are too large for their type stand as its largest, which is
/// refused for the same reason.
#[derive(Clone, Copy, Debug, PartialEq, Eq)]
pub enum Request {
    /// Open the pattern file in a block of so many bytes, by its own rule or by this one.
    Open {
        length: u64,
        rule: Option<Result<Rule, RuleFault>>,
    },
    /// Go so many generations on.
    Advance {
        generations: u64,
    },
    /// The number of the generation.
    Generation,
    /// The rule.
    Rule,
    /// How many cells are live.
    Population,
    /// The box of the live cells.
    Bounds,
    /// The text of a window.
    Window {
        x: i64,
        y: i64,
        width: u64,
        height: u64,
    },
    /// The runs of live cells.
    Runs,
    /// The pattern file.
    Write {
        format: TextFormat,
    },
    /// The picture of a rectangle, at most so many pixels on a side.
    Picture {
        left: i64,
        top: i64,
        right: i64,
        bottom: i64,
        size: u32,
    },
    /// The least period, up to this number.
    Period {
        most: u64,
    },
    /// The least period among the divisors of this number.
    Multiple {
        whole: u64,
    },
    /// How far the cells are those of the pattern file in a block of so many bytes, moved.
    Same {
        length: u64,
    },
    /// Close the pattern.
    Close,
}

impl Request {
    ghost use Rattle.std.specs.Prelude.{◌≡◌};
    ghost use Rattle.pipe_requests.specs.Blocks.{block_length};

    /// How many bytes of a block come behind the line.
    pub fn block_length(&self) -> u64
        ensures { result ≡ block_length self.now }
    {
        match self {
            Request::Open { length, .. } | Request::Same { length } => *length,
            _ => 0,
        }
    }
}
