//! A number from 0 to 15 at each cell of four rows of sixty-four cells.
ghost use Rattle.std.specs.Prelude.{◌≡◌, ℤ, ◌+◌};
ghost use Rattle.leaf_kernels.specs.Sums.{count_at, sum_at};

use crate::sum::Sum;
use std::simd::prelude::*;

/// A number from 0 to 15 at each cell of four rows of sixty-four cells, by its four bits.
#[derive(Clone, Copy)]
pub(crate) struct Count {
    pub(crate) ones: u64x4,
    pub(crate) twos: u64x4,
    pub(crate) fours: u64x4,
    pub(crate) eights: u64x4,
}

impl Count {
    /// The sum of three sums.
    #[inline(always)]
    pub(crate) fn of_sums(first: Sum, second: Sum, third: Sum) -> Count
        ensures { (x y : ℤ) → count_at result x y
            ≡ sum_at first x y + sum_at second x y + sum_at third x y }
    {
        let ones = Sum::of_three(first.ones, second.ones, third.ones);
        let twos = Sum::of_three(first.twos, second.twos, third.twos);
        let carried = Sum::of_two(ones.twos, twos.ones);
        let high = Sum::of_two(carried.twos, twos.twos);
        Count {
            ones: ones.ones,
            twos: carried.ones,
            fours: high.ones,
            eights: high.twos,
        }
    }
}
