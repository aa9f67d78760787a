//! A choice among nine answers, by a number from 0 to 8 at each of many cells.
ghost use Rattle.std.specs.Prelude.{◌≡◌, ℕ, ℤ, ◌≤◌, Bool, true, slice_index_or, false};
ghost use Rattle.leaf_kernels.specs.Choices.{IsChoice};
ghost use Rattle.leaf_kernels.specs.Rows.{four_rows_plane, in_rows};
ghost use Rattle.leaf_kernels.specs.Sums.{count_at};

use crate::count::Count;
use crate::rows::{everywhere, select};
use std::simd::prelude::*;

/// A choice among nine answers. What a field says is the same at every cell: `zero` the answer to
/// the number 0, and each other field what its number changes beside the numbers that have fewer of
/// its binary digits.
#[derive(Clone, Copy)]
pub(crate) struct Choice {
    pub(crate) zero: u64x4,
    pub(crate) one: u64x4,
    pub(crate) two: u64x4,
    pub(crate) three: u64x4,
    pub(crate) four: u64x4,
    pub(crate) five: u64x4,
    pub(crate) six: u64x4,
    pub(crate) seven: u64x4,
    pub(crate) eight: u64x4,
}

impl Choice {
    /// The choice among these answers, to the numbers from 0 to 8.
    pub(crate) fn new(answers: [bool; 9]) -> Choice
        ensures { IsChoice (λ count. slice_index_or answers count false) result }
    {
        let [zero, one, two, three, four, five, six, seven, eight] = answers;
        let (by_four, by_five) = (zero != four, one != five);
        let (by_six, by_seven) = (two != six, three != seven);
        Choice {
            zero: everywhere(zero),
            one: everywhere(zero != one),
            two: everywhere(zero != two),
            three: everywhere((zero != two) != (one != three)),
            four: everywhere(by_four),
            five: everywhere(by_four != by_five),
            six: everywhere(by_four != by_six),
            seven: everywhere((by_four != by_six) != (by_five != by_seven)),
            eight: everywhere(zero != eight),
        }
    }

    /// The answer to the number at each cell, where no number is above 8.
    #[inline(always)]
    pub(crate) fn by_count(&self, count: Count) -> u64x4
        ensures { (answers : ℕ → Bool) → IsChoice answers self.now
            → (x lane : ℤ) → in_rows x lane ≡ true → count_at count x lane ≤ 8
            → four_rows_plane result x lane ≡ answers (count_at count x lane) }
    {
        let first = select(count.ones, self.zero, self.one);
        let second = select(count.ones, self.two, self.three);
        let third = select(count.ones, self.four, self.five);
        let fourth = select(count.ones, self.six, self.seven);
        let low = select(count.twos, first, second);
        let high = select(count.twos, third, fourth);
        select(count.eights, select(count.fours, low, high), self.eight)
    }
}
