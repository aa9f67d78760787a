//! The three neighbourhoods, and which cells each counts.

ghost use Rattle.std.specs.Prelude.{◌≡◌, length, All};
ghost use Rattle.rule_text.specs.Neighbourhood.{neighbour_count, offsets, IsStep};
ghost use Rattle.std.specs.Option.{option_to_list};
ghost use Rattle.rule_text.specs.RuleCode.{number};
ghost use Rattle.rule_text.specs.RuleText.{suffix};

/// Which cells count as the neighbours of a cell (Golly's help, "QuickLife").
#[derive(Clone, Copy, Debug, PartialEq, Eq)]
pub enum Neighbourhood {
    /// The eight cells round it.
    Moore,
    /// The four cells that share a side with it (suffix `V`).
    VonNeumann,
    /// Of the eight cells round it, all but the upper right and the lower left (suffix `H`).
    Hexagonal,
}

/// The way from a cell to another: how far to the right, and how far down.
#[derive(Clone, Copy, Debug, PartialEq, Eq)]
pub struct Offset {
    pub right: i64,
    pub down: i64,
}

// The eight cells round a cell, row by row.
const MOORE: [Offset; 8] = [
    Offset {
        right: -1,
        down: -1,
    },
    Offset { right: 0, down: -1 },
    Offset { right: 1, down: -1 },
    Offset { right: -1, down: 0 },
    Offset { right: 1, down: 0 },
    Offset { right: -1, down: 1 },
    Offset { right: 0, down: 1 },
    Offset { right: 1, down: 1 },
];

// The four cells that share a side with it.
const VON_NEUMANN: [Offset; 4] = [
    Offset { right: 0, down: -1 },
    Offset { right: -1, down: 0 },
    Offset { right: 1, down: 0 },
    Offset { right: 0, down: 1 },
];

// All of the eight but the upper right and the lower left.
const HEXAGONAL: [Offset; 6] = [
    Offset {
        right: -1,
        down: -1,
    },
    Offset { right: 0, down: -1 },
    Offset { right: -1, down: 0 },
    Offset { right: 1, down: 0 },
    Offset { right: 0, down: 1 },
    Offset { right: 1, down: 1 },
];

impl Neighbourhood {
    /// How many neighbours a cell has: the largest digit of a rule.
    pub fn neighbour_count(self) -> u8
        ensures { result ≡ neighbour_count self }
    {
        match self {
            Neighbourhood::Moore => 8,
            Neighbourhood::VonNeumann => 4,
            Neighbourhood::Hexagonal => 6,
        }
    }

    /// The ways from a cell to each of its neighbours, row by row.
    #[tactic(auto, unfolding(crate::specs::Neighbourhood::offsets))]
    pub fn offsets(self) -> &'static [Offset]
        ensures offsets { result.now ≡ offsets self }
        ensures count { length result.now ≡ neighbour_count self }
        ensures steps { All IsStep result.now }
    {
        match self {
            Neighbourhood::Moore => &MOORE,
            Neighbourhood::VonNeumann => &VON_NEUMANN,
            Neighbourhood::Hexagonal => &HEXAGONAL,
        }
    }

    /// The letter that names it in a rule's canonical text.
    pub(crate) fn suffix(self) -> Option<char>
        ensures { option_to_list result ≡ suffix self }
    {
        match self {
            Neighbourhood::Moore => None,
            Neighbourhood::VonNeumann => Some('V'),
            Neighbourhood::Hexagonal => Some('H'),
        }
    }

    /// Its number in a rule's code.
    pub(crate) fn number(self) -> u32
        ensures { result ≡ number self }
    {
        match self {
            Neighbourhood::Moore => 0,
            Neighbourhood::VonNeumann => 1,
            Neighbourhood::Hexagonal => 2,
        }
    }
}
