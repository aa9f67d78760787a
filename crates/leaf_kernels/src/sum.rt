//! A number from 0 to 3 at each cell of four rows of sixty-four cells.
ghost use Rattle.std.specs.Prelude.{◌≡◌, ℤ, pos, ◌+◌, ◌+ℤ◌, ◌-ℤ◌, true};
ghost use Rattle.plane.specs.Square.{spans};
ghost use Rattle.leaf_kernels.specs.Sums.{number_at, sum_at};

use crate::rows::{from_left, from_right};
use std::simd::prelude::*;

/// A number from 0 to 3 at each cell of four rows of sixty-four cells, by its two bits.
#[derive(Clone, Copy)]
pub(crate) struct Sum {
    pub(crate) ones: u64x4,
    pub(crate) twos: u64x4,
}

impl Sum {
    /// How many of two cells are live.
    #[inline(always)]
    pub(crate) fn of_two(first: u64x4, second: u64x4) -> Sum
        ensures { (x y : ℤ) → sum_at result x y ≡ number_at first x y + number_at second x y }
    {
        Sum {
            ones: first ^ second,
            twos: first & second,
        }
    }

    /// How many of three cells are live.
    #[inline(always)]
    pub(crate) fn of_three(first: u64x4, second: u64x4, third: u64x4) -> Sum
        ensures { (x y : ℤ) → sum_at result x y
            ≡ number_at first x y + number_at second x y + number_at third x y }
    {
        let odd = first ^ second;
        Sum {
            ones: odd ^ third,
            twos: (first & second) | (odd & third),
        }
    }
    /// How many of the cell and the two beside it are live.
    #[inline(always)]
    pub(crate) fn across(rows: u64x4) -> Sum
        ensures { (x lane : ℤ) → spans 64 x ≡ true → sum_at result x lane
            ≡ number_at rows (x -ℤ pos 1) lane + number_at rows x lane
            + number_at rows (x +ℤ pos 1) lane }
    {
        Sum::of_three(from_left(rows), from_right(rows), rows)
    }
}
