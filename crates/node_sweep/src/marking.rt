//! Marks of what a collection keeps, which threads set together.

use crate::open_words::OpenWords;
use crate::order::Order;
use crate::plan::Workers;
use crate::shared_bytes::SharedBits;
use crate::survey::KeptRanks;
use std::alloc::AllocError;
use std::thread::{Threads, map_indices};

// Of fewer pairs for each worker only one worker sets the marks.
const PAIRS_A_WORKER: usize = 1 << 14;

/// The words of an open table, what is kept of them, and a mark for each number that is.
#[derive(Clone, Copy)]
pub(crate) struct Marking<'a> {
    /// The words.
    pub(crate) words: OpenWords<'a>,
    /// Of which ranks pairs are kept that the root does not reach.
    pub(crate) kept: KeptRanks,
    /// A bit for each number.
    pub(crate) marks: &'a SharedBits,
}

impl Marking<'_> {
    /// Marks the pairs of a rank that are kept, and the parts of each that has a mark. The ranks
    /// above it come first, since pairs of this one are parts of theirs.
    pub(crate) fn mark_rank<R: Threads + Sync>(
        &self,
        workers: &Workers<'_, R>,
        orders: &[Order],
        rank: u8,
    ) -> Result<(), AllocError> {
        let is_large = match orders.first() {
            Some(order) => order.of_rank(rank).len() >= PAIRS_A_WORKER,
            None => false,
        };
        if is_large && orders.len() > 1 {
            map_indices(
                workers.runtime,
                workers.alloc,
                orders.len(),
                &|worker: usize| {
                    if let Some(order) = orders.get(worker) {
                        self.mark_slots(order.of_rank(rank), rank);
                    }
                },
            )?;
            return Ok(());
        }
        for i in 0..orders.len() {
            self.mark_slots(orders[i].of_rank(rank), rank);
        }
        Ok(())
    }

    // Marks those of the pairs of this rank at these slots that are kept, and the parts of each
    // that has a mark.
    fn mark_slots(&self, slots: &[u32], rank: u8) {
        for i in 0..slots.len() {
            let slot = slots[i];
            if rank <= self.kept.low {
                self.marks.set(self.words.pair_at(slot));
            }
            if rank >= self.kept.high {
                self.mark_finished(slot);
            }
            self.mark_parts(slot);
        }
    }

    // Marks the pair at a slot and its result, if it has one.
    fn mark_finished(&self, slot: u32) {
        if let Some(result) = self.words.result_at(slot) {
            self.marks.set(self.words.pair_at(slot));
            self.marks.set(result);
        }
    }

    // Marks the parts of the pair at a slot, if that has a mark.
    fn mark_parts(&self, slot: u32) {
        if !self.marks.is_set(self.words.pair_at(slot)) {
            return;
        }
        if let Some((first, second)) = self.words.parts_at(slot) {
            self.marks.set(first);
            self.marks.set(second);
        }
    }
}
