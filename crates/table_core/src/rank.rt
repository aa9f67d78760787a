//! The rank of a square: how often blocks are paired, from leaves on, until they are the square.

ghost use Rattle.std.specs.Prelude.{◌≡◌, ◌≤◌};
ghost use Rattle.plane.specs.declared.cell.TheConstants.{HIGHEST_LEVEL};
ghost use Rattle.table_core.specs.Blocks.{largest_rank, square_rank};

use plane::{HIGHEST_LEVEL, LEAF_LEVEL};

/// The rank of the largest squares, those of the highest level.
pub const LARGEST_RANK: u8 = 2 * (HIGHEST_LEVEL - LEAF_LEVEL);

/// The rank of a square of this level: two for each level above 3, since a half has a rank of its
/// own.
pub fn square_rank(level: u8) -> u8
    requires { (3 ≤ level) × (level ≤ HIGHEST_LEVEL) }
    ensures rank { result ≡ square_rank level }
    ensures most { result ≤ largest_rank }
    ensures largest { level ≡ HIGHEST_LEVEL → result ≡ largest_rank }
{
    2 * (level - LEAF_LEVEL)
}
