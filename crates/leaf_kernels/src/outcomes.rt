//! What a rule makes of cells with each number of live neighbours, for four rows of sixty-four cells
//! at once.
ghost use Rattle.std.specs.Prelude.{◌≡◌, ℤ, ◌≤◌, true, false};
ghost use Rattle.rule_text.specs.CountRule.{lives};
ghost use Rattle.leaf_kernels.specs.Choices.{IsChoice};
ghost use Rattle.leaf_kernels.specs.Outcomes.{is_changed};
ghost use Rattle.leaf_kernels.specs.Rows.{four_rows_plane, in_rows};
ghost use Rattle.leaf_kernels.specs.Sums.{count_at};

use crate::choice::Choice;
use crate::count::Count;
use crate::rows::select;
use rule_text::Rule;
use std::simd::prelude::*;

/// What a rule makes of cells with each number of live neighbours.
#[derive(Drop)]
pub(crate) struct Outcomes {
    rule: Rule,
    // Whether dead cells become live.
    births: Choice,
    // Whether live cells become something else than dead ones.
    changes: Choice,
    ghost are_births: { IsChoice (lives rule false) births },
    ghost are_changes: { IsChoice (is_changed rule) changes },
}

impl Outcomes {
    /// What this rule makes of them.
    pub(crate) fn new(rule: Rule) -> Outcomes
        ensures { result.rule ≡ rule }
    {
        let births = Choice::new([
            rule.lives(false, 0),
            rule.lives(false, 1),
            rule.lives(false, 2),
            rule.lives(false, 3),
            rule.lives(false, 4),
            rule.lives(false, 5),
            rule.lives(false, 6),
            rule.lives(false, 7),
            rule.lives(false, 8),
        ]);
        let changes = Choice::new([
            is_changed(&rule, 0),
            is_changed(&rule, 1),
            is_changed(&rule, 2),
            is_changed(&rule, 3),
            is_changed(&rule, 4),
            is_changed(&rule, 5),
            is_changed(&rule, 6),
            is_changed(&rule, 7),
            is_changed(&rule, 8),
        ]);
        Outcomes {
            rule,
            births,
            changes,
        }
    }

    /// The cells in the next generation, by their numbers of live neighbours, which are at most 8.
    #[inline(always)]
    pub(crate) fn next(&self, cells: u64x4, count: Count) -> u64x4
        ensures { (x lane : ℤ) → in_rows x lane ≡ true → count_at count x lane ≤ 8
            → four_rows_plane result x lane
            ≡ lives self.now.rule (four_rows_plane cells x lane) (count_at count x lane) }
    {
        select(
            cells,
            self.births.by_count(count),
            self.changes.by_count(count),
        )
    }
}

// Whether a live cell with so many live neighbours becomes something else than a dead one.
fn is_changed(rule: &Rule, count: u8) -> bool
    ensures { result ≡ is_changed rule.now count }
{
    rule.lives(false, count) != rule.lives(true, count)
}
