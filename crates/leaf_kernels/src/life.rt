//! The next generation by Conway's Life (B3/S23), in fewer steps than by any rule.
ghost use Rattle.std.specs.Prelude.{◌≡◌, ◌↔◌, IsTrue};
ghost use Rattle.leaf_kernels.specs.Life.{life};

use crate::generation::NextCells;
use crate::rows::{dead_cells, from_left, from_right};
use crate::sum::Sum;
use rule_text::Rule;
use std::simd::prelude::*;

// A bit for birth on three, and one each for survival on two and on three.
const CODE: u32 = (1 << 3) + (1 << 11) + (1 << 12);

/// Whether the rule is B3/S23.
pub(crate) fn is_life(rule: &Rule) -> bool
    ensures { IsTrue result ↔ rule.now ≡ life }
{
    rule.code() == CODE
}

/// The next generation by B3/S23.
#[derive(Drop)]
pub(crate) struct Life;

impl NextCells for Life {
    ghost rule = { λ _. life };

    // A cell lives with three live neighbours, and a live one with two. No cell has more than
    // eight.
    #[inline(always)]
    fn next_cells(&self, above: u64x4, here: u64x4, below: u64x4) -> u64x4 {
        let upper = Sum::across(above);
        let beside = Sum::of_two(from_left(here), from_right(here));
        let lower = Sum::across(below);
        let ones = Sum::of_three(upper.ones, beside.ones, lower.ones);
        let twos = Sum::of_three(upper.twos, beside.twos, lower.twos);
        (ones.twos ^ twos.ones) & dead_cells(twos.twos) & (ones.ones | here)
    }
}
