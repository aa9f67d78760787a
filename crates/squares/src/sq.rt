//! A square of a book: its level and its number.

ghost use Rattle.std.specs.Prelude.{◌≡◌, ◌↔◌, ◌-◌, ◌^◌, ◌≤◌, ℕ, IsTrue};
ghost use Rattle.squares.specs.Book.{IsEmpty, numbered};

/// The lowest level of a square around (0,0).
pub const LOWEST_ROOT_LEVEL: u8 = 4;

/// The highest level of a square around (0,0) whose cells come from a file or from a set.
pub const HIGHEST_ROOT_LEVEL: u8 = 63;

/// Half the side of a square of this level, which is from 1 to 63: 2^(level - 1), so at most 2^62.
/// The square around (0,0) has the coordinates from -2^(level - 1) to 2^(level - 1) - 1.
pub fn half_side(level: u8) -> u64
    requires { (1 ≤ level) × (level ≤ HIGHEST_ROOT_LEVEL) }
    ensures value { result ≡ 2 ^ (level - 1) }
    ensures bound { result ≤ 2 ^ 62 }
{
    1 << (level - 1)
}

/// The side of a square of this level, which is at most 63.
pub fn side(level: u8) -> u64
    requires { level ≤ HIGHEST_ROOT_LEVEL }
    ensures { result ≡ 2 ^ level }
{
    1 << level
}

/// The smallest level, of at least 4, of a square around (0,0) that goes so far in each direction.
pub fn level_around(reach: u64) -> u8
    requires { reach ≤ 2 ^ 62 }
    ensures low { 4 ≤ result }
    ensures high { result ≤ HIGHEST_ROOT_LEVEL }
    ensures far { reach ≤ 2 ^ (result - 1) }
    ensures smallest { (level : ℕ) → 4 ≤ level → reach ≤ 2 ^ (level - 1) → result ≤ level }
{
    for level in LOWEST_ROOT_LEVEL..HIGHEST_ROOT_LEVEL {
        if reach <= half_side(level) {
            return level;
        }
    }
    HIGHEST_ROOT_LEVEL
}

/// The number of a square in its book. Number 0 is the empty square of each level.
#[derive(Clone, Copy, Debug, PartialEq, Eq, PartialOrd, Ord)]
pub struct Num(pub u32);

/// A square of a book. A square of level k has 2^k cells on a side; its level is from 3 to 65.
#[derive(Clone, Copy, Debug, PartialEq, Eq, PartialOrd, Ord)]
pub struct Sq {
    pub level: u8,
    pub num: Num,
}

impl Sq {
    /// The empty square of a level.
    pub fn empty(level: u8) -> Sq
        ensures { result ≡ numbered level 0 }
    {
        Sq { level, num: Num(0) }
    }

    /// Whether the square is the empty one of its level.
    pub fn is_empty(self) -> bool
        ensures { IsTrue result ↔ IsEmpty self }
    {
        self.num.0 == 0
    }
}
