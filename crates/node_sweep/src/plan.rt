//! What is copied out of a table, and in which order, found while the table is open.

ghost use Rattle.std.specs.Prelude.{◌≤◌};

use crate::keep::Keep;
use crate::marking::Marking;
use crate::open_words::OpenWords;
use crate::order::Order;
use crate::ranks::Ranking;
use crate::shared_bytes::{SharedBits, SharedBytes};
use crate::survey::{Finished, KeptRanks, RankCounts};
use node_table::NodeTable;
use squares::Sq;
use std::alloc::{AllocError, Global};
use std::thread::{Threads, map_indices};
use table_core::{Kind, LARGEST_RANK, Shape};

// With fewer pair slots for each worker, fewer workers find out what is copied.
const SLOTS_A_WORKER: u32 = 1 << 17;

/// Who finds out what is copied.
#[derive(Clone, Copy)]
pub struct Workers<'a, R> {
    /// Starts the threads and waits for them.
    pub runtime: &'a R,
    /// Gives the memory.
    pub alloc: Global,
    /// How many threads work, as far as the system gives them.
    pub count: usize,
}

/// Which squares are copied out of a table, and in which order. It is found while the table is
/// open, and no clause speaks of it. Whatever a plan says, a copy that follows it has the root's
/// cells, and each square and result that comes along is right: the plan decides how fast the copy
/// is made, and how much later steps find in it.
#[derive(Drop)]
pub struct CopyPlan {
    words_before: u32,
    orders: Vec<Order>,
    marks: Option<SharedBits>,
    counts: RankCounts,
    finished: Option<Finished>,
}

impl<R> Workers<'_, R> {
    // How many find out what is copied of a table of so many pair slots.
    fn for_slots(&self, slots: u32) -> u32
        ensures { 1 ≤ result }
    {
        let most = slots / SLOTS_A_WORKER;
        if self.count < most as usize {
            return (self.count as u32).max(1);
        }
        most.max(1)
    }
}

impl CopyPlan {
    /// What is copied of an open table where this is kept of a root, in words of this shape.
    pub fn of_table<R: Threads + Sync>(
        workers: &Workers<'_, R>,
        table: &NodeTable,
        root: Sq,
        keep: Keep,
        shape: Shape,
    ) -> Result<CopyPlan, AllocError> {
        let words = OpenWords::of_table(table);
        let orders = orders(workers, words)?;
        let counts = counts_of(orders.as_slice());
        let words_before = words.pair_at(0);
        let Keep::Collected(shares) = keep else {
            return Ok(CopyPlan {
                words_before,
                orders,
                marks: None,
                counts,
                finished: None,
            });
        };
        let kept = counts.kept_ranks(shape.slot_count(Kind::Pair), shares);
        let marks = marks(workers, words, orders.as_slice(), kept, root)?;
        Ok(CopyPlan {
            words_before,
            orders,
            marks: Some(marks),
            counts,
            finished: Some(counts.into_finished(kept)),
        })
    }

    /// What is finished, if the plan is one of a collection.
    pub fn finished(&self) -> Option<Finished> {
        self.finished
    }

    /// How many squares of this level are kept, which is above that of leaves. No clause promises
    /// the answer.
    pub fn square_count(&self, level: u8) -> u32 {
        // A square of level n + 3 is a pair of the rank 2 * n.
        let rank = level.saturating_sub(3).saturating_mul(2);
        self.counts.pairs[usize::from(rank)]
    }

    /// The slots of the pairs, in the parts of the table.
    pub(crate) fn orders(&self) -> &[Order] {
        self.orders.as_slice()
    }

    /// Whether a number is kept.
    pub(crate) fn keeps(&self, number: u32) -> bool {
        match &self.marks {
            None => true,
            Some(marks) => marks.is_set(number),
        }
    }

    /// Whether the pair at a slot is kept.
    pub(crate) fn keeps_pair(&self, slot: u32) -> bool {
        self.keeps(self.words_before.saturating_add(slot))
    }
}

// The pairs, rank by rank, in each worker's part of the slots.
fn orders<R: Threads + Sync>(
    workers: &Workers<'_, R>,
    words: OpenWords,
) -> Result<Vec<Order>, AllocError> {
    let alloc = workers.alloc;
    let slots = words.slot_count();
    let parts = workers.for_slots(slots);
    let part = slots.div_ceil(parts);
    let bytes = SharedBytes::blank(alloc, slots as usize)?;
    let ranking = Ranking {
        words,
        ranks: SharedBytes::of_words(bytes.as_slice()),
    };
    let made = map_indices(
        workers.runtime,
        alloc,
        parts as usize,
        &|worker: usize| {
            let from = slots.min((worker as u32).saturating_mul(part));
            Order::of_slots(alloc, &ranking, from, part.min(slots - from))
        },
    )?;
    let mut orders = Vec::with_capacity(alloc, parts as usize)?;
    for order in made {
        orders.push(order?)?;
    }
    Ok(orders)
}

// How many pairs of each rank are in these.
fn counts_of(orders: &[Order]) -> RankCounts {
    let mut counts = RankCounts::new();
    for i in 0..orders.len() {
        counts.add(&orders[i].counts);
    }
    counts
}

// The marks of what a collection keeps.
fn marks<R: Threads + Sync>(
    workers: &Workers<'_, R>,
    words: OpenWords,
    orders: &[Order],
    kept: KeptRanks,
    root: Sq,
) -> Result<SharedBits, AllocError> {
    let marks = SharedBits::new(workers.alloc, words.number_count())?;
    let marking = Marking {
        words,
        kept,
        marks: &marks,
    };
    marks.set(root.num.0);
    for below in 0..LARGEST_RANK {
        marking.mark_rank(workers, orders, LARGEST_RANK - below)?;
    }
    Ok(marks)
}
