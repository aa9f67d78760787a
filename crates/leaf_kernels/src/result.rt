//! The middle of a square, some generations on.
ghost use Rattle.std.specs.Prelude.{◌<◌};
ghost use Rattle.plane.specs.Square.{IsSame, bits_plane, future};
ghost use Rattle.plane.specs.Leaves.{leaves_plane};
ghost use Rattle.leaf_kernels.specs.Rows.{four_fours_plane, four_sixteens_plane};

use crate::generation::later_rows;
use crate::leaves::{self, Leaves64};
use crate::sixteen_rows::{centre_of_rows, next_rows, rows_of_leaves};
use rule_text::Rule;

/// The 8 by 8 cells in the middle of a square of four leaves, 2^`exp` generations on, where all
/// cells outside the square are dead at first. The leaves are the upper left, the upper right, the
/// lower left and the lower right; bit `8y + x` of a leaf is its cell `(x, y)`.
pub fn result16(rule: &Rule, leaves: [u64; 4], exp: u8) -> u64
    requires { exp < 3 }
    ensures { IsSame (bits_plane result) (future rule.now exp 4 (leaves_plane leaves)) }
{
    let mut rows = rows_of_leaves(leaves);
    for _ in 0..1u8 << exp {
        rows = next_rows(rule, rows);
    }
    centre_of_rows(rows)
}

/// The cells in the middle of a square of 64 by 64 cells, 2^`exp` generations on, where all cells
/// outside the square are dead at first. The middle stands in four quarters of four leaves each, in
/// the order of the square's.
pub fn result64(rule: &Rule, quarters: Leaves64, exp: u8) -> [[u64; 4]; 4]
    requires { exp < 5 }
    ensures { IsSame (four_fours_plane result)
        (future rule.now exp 6 (four_sixteens_plane quarters)) }
{
    let later = later_rows(rule, leaves::rows_of(quarters), 1 << exp);
    leaves::middle_of(later)
}
