//! The next generation by any rule, for four rows of sixty-four cells at once.
ghost use Rattle.std.specs.Prelude.{◌≡◌, ℤ, true};
ghost use Rattle.leaf_kernels.specs.Generation.{neighbours_at};
ghost use Rattle.leaf_kernels.specs.Masks.{AreDiagonals};
ghost use Rattle.leaf_kernels.specs.Rows.{in_rows};
ghost use Rattle.leaf_kernels.specs.Sums.{count_at};

use crate::count::Count;
use crate::generation::NextCells;
use crate::outcomes::Outcomes;
use crate::rows::{both, everywhere, from_left, from_right};
use crate::sum::Sum;
use rule_text::{Neighbourhood, Rule};
use std::simd::prelude::*;

// Which of the cells beside a cell, above and below it, count as neighbours, for all cells.
#[derive(Clone, Copy)]
struct Diagonals {
    // Whether the upper left and the lower right cell do.
    falling: u64x4,
    // Whether the lower left and the upper right cell do.
    rising: u64x4,
}

impl Diagonals {
    fn of(neighbourhood: Neighbourhood) -> Diagonals
        ensures { AreDiagonals neighbourhood result }
    {
        let (falling, rising) = match neighbourhood {
            Neighbourhood::Moore => (true, true),
            Neighbourhood::VonNeumann => (false, false),
            Neighbourhood::Hexagonal => (true, false),
        };
        Diagonals {
            falling: everywhere(falling),
            rising: everywhere(rising),
        }
    }
}

/// The next generation by any rule.
#[derive(Drop)]
pub(crate) struct Masks {
    outcomes: Outcomes,
    diagonals: Diagonals,
    ghost are_diagonals: { AreDiagonals outcomes.rule.neighbourhood diagonals },
}

impl Masks {
    /// What the rule says.
    pub(crate) fn new(rule: Rule) -> Masks
        ensures { result.outcomes.rule ≡ rule }
    {
        Masks {
            outcomes: Outcomes::new(rule),
            diagonals: Diagonals::of(rule.neighbourhood()),
        }
    }

    // How many of its neighbours among three rows are live, for each cell of the middle ones.
    #[inline(always)]
    fn count(&self, above: u64x4, here: u64x4, below: u64x4) -> Count
        ensures { (x lane : ℤ) → in_rows x lane ≡ true → count_at result x lane
            ≡ neighbours_at self.now.outcomes.rule.neighbourhood above here below x lane }
    {
        let Diagonals { falling, rising } = self.diagonals;
        let upper = Sum::of_three(
            both(falling, from_left(above)),
            above,
            both(rising, from_right(above)),
        );
        let beside = Sum::of_two(from_left(here), from_right(here));
        let lower = Sum::of_three(
            both(rising, from_left(below)),
            below,
            both(falling, from_right(below)),
        );
        Count::of_sums(upper, beside, lower)
    }
}

impl NextCells for Masks {
    ghost rule = { λ masks. masks.outcomes.rule };

    #[inline(always)]
    fn next_cells(&self, above: u64x4, here: u64x4, below: u64x4) -> u64x4 {
        self.outcomes.next(here, self.count(above, here, below))
    }
}
