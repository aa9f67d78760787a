//! Fresh words, filled with copies of old ones.

ghost use Rattle.std.specs.Prelude.{◌≡◌, IfErr, IfOk, None};
ghost use Rattle.squares.specs.Book.{LacksMemoryOr};
ghost use Rattle.node_sweep.specs.Copying.{AreBlankWords};
ghost use Rattle.node_sweep.specs.Table.{IsBlockIn};

use crate::transfer::{Fresh, Transfer};
use plane::Refusal;
use std::alloc::{AllocError, Global};
use table_core::Kind;

impl Transfer<'_> {
    ghost use Rattle.node_sweep.specs.Filled.{CopiesInto, CopiesSome};
    ghost use Rattle.node_sweep.specs.Transfers.{IsCopyMade, IsUnderway, SaysNoRoom, number_count, old_table};

    /// How many numbers the leaves and the pairs of the old words have, with 0.
    pub(crate) fn number_count(&self) -> usize
        ensures { result ≡ number_count self.now }
    {
        let shape = self.old.key.shape;
        (shape.index(Kind::Pair, 0) + shape.slot_count(Kind::Pair)) as usize
    }

    // These words, and a note for each old leaf and pair, that it has no copy.
    fn begin(&self, alloc: Global, words: Vec<u64>) -> Result<Fresh, AllocError>
        requires { AreBlankWords self.now.to words.items }
        ensures { IfOk result (IsUnderway self.now) }
    {
        let copies = vec![in alloc; 0; self.number_count()]?;
        Ok(Fresh { words, copies })
    }

    // Copies what is planned, if anything is.
    fn copy_planned(&self, fresh: &mut Fresh) -> Result<(), Refusal>
        requires underway { IsUnderway self.now fresh.old }
        ensures underway { IsUnderway self.now fresh.new }
        ensures full { IfErr result (SaysNoRoom self.now) }
    {
        if let Some(plan) = self.plan {
            self.copy_leaves(fresh, plan)?;
            self.copy_ranks(fresh, plan)?;
        }
        Ok(())
    }

    /// These words with what is planned, the root, which has this rank, and all that this reaches,
    /// and the results of all these; and the number of the copy of the root.
    pub(crate) fn fill(
        &self,
        alloc: Global,
        words: Vec<u64>,
        rank: u8,
    ) -> Result<(Vec<u64>, u32), Refusal>
        requires words { AreBlankWords self.now.to words.items }
        requires block { IsBlockIn (old_table self.now) rank self.now.root }
        ensures ok { IfOk result (λ made. CopiesSome self.now made.0.items) }
        ensures reached { self.now.plan ≡ None
            → IfOk result (λ made. CopiesInto self.now made.0.items) }
        ensures root { IfOk result
            (λ made. IsCopyMade self.now made.0.items self.now.root made.1) }
        ensures refusal { IfErr result (LacksMemoryOr (SaysNoRoom self.now)) }
    {
        let mut fresh = self.begin(alloc, words)?;
        self.copy_planned(&mut fresh)?;
        let number = self.copy(&mut fresh, self.root, rank)?;
        let Fresh { words, .. } = self.with_results(fresh);
        Ok((words, number))
    }
}
