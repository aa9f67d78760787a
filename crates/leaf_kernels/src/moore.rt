//! The next generation by any rule in whose neighbourhood all eight cells around a cell count, for
//! four rows of sixty-four cells at once.
ghost use Rattle.std.specs.Prelude.{◌≡◌, ℤ, true};
ghost use Rattle.rule_text.specs.declared.neighbourhood.Neighbourhood.TheVariants.{Moore};
ghost use Rattle.leaf_kernels.specs.Generation.{neighbours_at};
ghost use Rattle.leaf_kernels.specs.Rows.{in_rows};
ghost use Rattle.leaf_kernels.specs.Sums.{count_at};

use crate::count::Count;
use crate::generation::NextCells;
use crate::outcomes::Outcomes;
use crate::rows::{from_left, from_right};
use crate::sum::Sum;
use rule_text::Rule;
use std::simd::prelude::*;

/// The next generation by a rule in whose neighbourhood all eight cells count.
#[derive(Drop)]
pub(crate) struct EightNeighbours {
    outcomes: Outcomes,
    ghost counts_all: { outcomes.rule.neighbourhood ≡ Moore },
}

impl EightNeighbours {
    /// What the rule says.
    pub(crate) fn new(rule: Rule) -> EightNeighbours
        requires { rule.neighbourhood ≡ Moore }
        ensures { result.outcomes.rule ≡ rule }
    {
        EightNeighbours {
            outcomes: Outcomes::new(rule),
        }
    }
}

// How many of the eight cells around it are live, for each cell of the middle one of three rows.
#[inline(always)]
fn count(above: u64x4, here: u64x4, below: u64x4) -> Count
    ensures { (x lane : ℤ) → in_rows x lane ≡ true
        → count_at result x lane ≡ neighbours_at Moore above here below x lane }
{
    let beside = Sum::of_two(from_left(here), from_right(here));
    Count::of_sums(Sum::across(above), beside, Sum::across(below))
}

impl NextCells for EightNeighbours {
    ghost rule = { λ eight. eight.outcomes.rule };

    #[inline(always)]
    fn next_cells(&self, above: u64x4, here: u64x4, below: u64x4) -> u64x4 {
        self.outcomes.next(here, count(above, here, below))
    }
}
