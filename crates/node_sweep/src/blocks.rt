//! Pairs copied in the order of their ranks, block by block.

ghost use Rattle.std.specs.Prelude.{◌≡◌, ◌≢◌, ◌≤◌, ◌⊎◌, IfErr, IsTrue, length};
ghost use Rattle.table_core.specs.Good.{AreGoodWords, KeepsWords};
ghost use Rattle.node_sweep.specs.Placing.{AreTried};

use crate::plan::CopyPlan;
use crate::transfer::{Fresh, Transfer};
use plane::Refusal;
use table_core::{Kind, LARGEST_RANK, pair_word, parts};

/// How many pairs are copied side by side, or results read and then told, so that they wait for
/// memory together.
pub(crate) const BLOCK_LEN: u32 = 64;

// How many places of a word's way need no second look, where this was found at the first.
fn places_tried(found: u64, word: u64) -> u32
    ensures { AreTried found word result }
{
    if found != 0 && found != word { 1 } else { 0 }
}

// Whether a part of a pair is empty, or has this copy.
fn is_copied(part: u32, copy: u32) -> bool
    ensures { IsTrue result → (part ≡ 0) ⊎ (copy ≢ 0) }
{
    part == 0 || copy != 0
}

impl Transfer<'_> {
    ghost use Rattle.node_sweep.specs.Blocks.{AreFirstFound, ArePairedCopies, AreWordsNeeded, IsPairedCopy};
    ghost use Rattle.node_sweep.specs.Transfers.{IsPlanned, IsUnderway, SaysNoRoom, fresh_words, number_count};

    // The word of the copy of the pair at a slot; 0 where no pair stands there, or a part of it has
    // no copy.
    fn paired_copy(&self, copies: &[u32], slot: u32) -> u64
        requires { length copies.now ≡ number_count self.now }
        ensures { IsPairedCopy self.now copies.now slot result }
    {
        let shape = self.old.key.shape;
        if slot >= shape.slot_count(Kind::Pair) {
            return 0;
        }
        let word = self.old.words.word(shape.index(Kind::Pair, slot) as usize);
        if word == 0 {
            return 0;
        }
        let (first, second) = parts(word);
        let (left, right) = (copies[first as usize], copies[second as usize]);
        if is_copied(first, left) && is_copied(second, right) {
            return pair_word(left, right);
        }
        0
    }

    // These words of the pairs at these slots.
    fn paired_copies(&self, copies: &[u32], slots: &[u32], words: &mut [u64])
        requires copies { length copies.now ≡ number_count self.now }
        requires room { length slots.now ≤ length words.old }
        ensures { ArePairedCopies self.now copies.now slots.now words.new (length slots.now) }
    {
        for i in 0..slots.len() {
            words[i] = self.paired_copy(copies, slots[i]);
        }
    }

    // What stands where the search for each word begins.
    fn look_ahead(&self, fresh: &[u64], words: &[u64], found: &mut [u64])
        requires good { AreGoodWords self.now.to fresh.now }
        requires room { length words.now ≤ length found.old }
        ensures { AreFirstFound self.now fresh.now words.now found.new (length words.now) }
    {
        for i in 0..words.len() {
            let index = self.to.shape.way_index(Kind::Pair, words[i], 0);
            found[i] = fresh[index as usize];
        }
    }

    // Places the words of these pairs' copies, and notes where; no word is 0.
    fn place_words(
        &self,
        fresh: &mut Fresh,
        slots: &[u32],
        words: &[u64],
        found: &[u64],
    ) -> Result<(), Refusal>
        requires underway { IsUnderway self.now fresh.old }
        requires planned { IsPlanned self.now }
        requires words { length slots.now ≤ length words.now }
        requires room { length words.now ≤ length found.now }
        requires needed { AreWordsNeeded self.now fresh.old.words.items slots.now words.now }
        requires found { AreFirstFound self.now fresh.old.words.items words.now found.now
            (length slots.now) }
        ensures underway { IsUnderway self.now fresh.new }
        ensures full { IfErr result (SaysNoRoom self.now) }
    {
        for i in 0..slots.len() {
            if words[i] != 0 {
                let pair = self.old.key.shape.index(Kind::Pair, slots[i]);
                let tried = places_tried(found[i], words[i]);
                self.note(fresh, pair, Kind::Pair, words[i], tried)?;
            }
        }
        Ok(())
    }

    // Copies the pairs at these slots whose parts have copies.
    fn copy_block(&self, fresh: &mut Fresh, slots: &[u32]) -> Result<(), Refusal>
        requires underway { IsUnderway self.now fresh.old }
        requires planned { IsPlanned self.now }
        requires few { length slots.now ≤ BLOCK_LEN }
        ensures underway { IsUnderway self.now fresh.new }
        ensures full { IfErr result (SaysNoRoom self.now) }
    {
        let mut words = [0u64; BLOCK_LEN as usize];
        let mut found = [0u64; BLOCK_LEN as usize];
        self.paired_copies(fresh.copies.as_slice(), slots, &mut words);
        self.look_ahead(fresh.words.as_slice(), &words, &mut found);
        self.place_words(fresh, slots, &words, &found)
    }

    // Copies the pairs at those of these slots that the plan keeps.
    fn copy_slots(&self, fresh: &mut Fresh, plan: &CopyPlan, slots: &[u32]) -> Result<(), Refusal>
        requires underway { IsUnderway self.now fresh.old }
        requires planned { IsPlanned self.now }
        ensures underway { IsUnderway self.now fresh.new }
        ensures full { IfErr result (SaysNoRoom self.now) }
    {
        let mut kept = [0u32; BLOCK_LEN as usize];
        let mut count = 0;
        for i in 0..slots.len() {
            if plan.keeps_pair(slots[i]) {
                kept[count] = slots[i];
                count += 1;
                if count == BLOCK_LEN as usize {
                    self.copy_block(fresh, &kept)?;
                    count = 0;
                }
            }
        }
        self.copy_block(fresh, &kept[..count])
    }

    // Copies the pairs of this rank.
    fn copy_rank(&self, fresh: &mut Fresh, plan: &CopyPlan, rank: u8) -> Result<(), Refusal>
        requires underway { IsUnderway self.now fresh.old }
        requires planned { IsPlanned self.now }
        ensures underway { IsUnderway self.now fresh.new }
        ensures full { IfErr result (SaysNoRoom self.now) }
    {
        let orders = plan.orders();
        for i in 0..orders.len() {
            self.copy_slots(fresh, plan, orders[i].of_rank(rank))?;
        }
        Ok(())
    }

    /// Copies pairs rank by rank, each after its parts.
    pub(crate) fn copy_ranks(&self, fresh: &mut Fresh, plan: &CopyPlan) -> Result<(), Refusal>
        requires underway { IsUnderway self.now fresh.old }
        requires planned { IsPlanned self.now }
        ensures underway { IsUnderway self.now fresh.new }
        ensures full { IfErr result (SaysNoRoom self.now) }
    {
        for below in 0..LARGEST_RANK {
            self.copy_rank(fresh, plan, below + 1)?;
        }
        Ok(())
    }
}
