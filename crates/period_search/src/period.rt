//! Periods, with how far they move a pattern.

ghost use Rattle.std.specs.Prelude.{◌≡◌};

/// After so many generations a pattern is what it was, moved so far.
#[derive(Clone, Copy, Debug, PartialEq, Eq)]
pub struct Period {
    /// How many generations, at least 1.
    pub generations: u64,
    /// How far to the right; below 0 to the left.
    pub right: i64,
    /// How far down; below 0 upwards.
    pub down: i64,
}

impl Period {
    /// The period of so many generations with this displacement, to the right and down.
    pub(crate) fn with(generations: u64, by: (i64, i64)) -> Period
        ensures generations { result.generations ≡ generations }
        ensures right { result.right ≡ by.0 }
        ensures down { result.down ≡ by.1 }
    {
        Period {
            generations,
            right: by.0,
            down: by.1,
        }
    }
}
