//! Leaves, copied before any pair.

ghost use Rattle.std.specs.Prelude.{IfErr};

use crate::plan::CopyPlan;
use crate::transfer::{Fresh, Transfer};
use plane::Refusal;
use table_core::Kind;

impl Transfer<'_> {
    ghost use Rattle.node_sweep.specs.Transfers.{IsPlanned, IsUnderway, SaysNoRoom};

    /// Copies the leaves that the plan keeps.
    pub(crate) fn copy_leaves(&self, fresh: &mut Fresh, plan: &CopyPlan) -> Result<(), Refusal>
        requires underway { IsUnderway self.now fresh.old }
        requires planned { IsPlanned self.now }
        ensures underway { IsUnderway self.now fresh.new }
        ensures full { IfErr result (SaysNoRoom self.now) }
    {
        for number in 1..self.old.key.shape.index(Kind::Pair, 0) {
            let word = self.old.words.word(number as usize);
            if word != 0 && plan.keeps(number) {
                self.note(fresh, number, Kind::Leaf, word, 0)?;
            }
        }
        Ok(())
    }
}
