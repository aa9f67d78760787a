//! What a table remembers of earlier steps, and how that steers the next one.

ghost use Rattle.std.specs.Prelude.{◌≤◌};

use crate::policy::{
    FEW_EXPANSIONS, FINISHED_SHARE, LARGE_BITS, SLOTS_AN_EXPANSION, STEPS_BEFORE_SMALLER_SWEEP,
    STEPS_BEFORE_SWEEP, STEPS_OF_GROWTH,
};
use crate::sizes::GrowthFactor;
use node_sweep::Finished;

// What was collected from full tables for the step that comes next.
#[derive(Clone, Copy)]
enum Collections {
    /// Nothing yet.
    None,
    /// The squares worth keeping, when this many were finished.
    Collected(Finished),
    /// All that may help the step.
    All,
}

/// The steps that a table has taken, and how far the last one came.
#[derive(Clone, Copy)]
pub struct TableHistory {
    /// How many steps there were.
    steps: u32,
    /// How many squares the last step of the cells expanded, at this table or at the one before it.
    expansions: Option<u64>,
    /// How many squares the last try of a step expanded at this table, whether or not the table was
    /// full.
    last_try: u64,
    /// What was collected for the next step.
    collections: Collections,
}

impl TableHistory {
    /// For a table whose cells have taken no step.
    pub fn new() -> TableHistory {
        TableHistory {
            steps: 0,
            expansions: None,
            last_try: 0,
            collections: Collections::None,
        }
    }

    /// For a new table of 2^bits pair slots that takes over the cells of this one. It has taken no
    /// step. A table that isn't large also takes over how many squares the last step expanded; at a
    /// large one the next step may be long.
    pub fn for_new_table(self, bits: u8) -> TableHistory {
        let mut history = TableHistory::new();
        if bits < LARGE_BITS {
            history.expansions = self.expansions;
        }
        history
    }

    /// For a new table of 2^bits pair slots that takes over what was collected from this one, when
    /// this much was finished.
    pub fn for_collected_table(self, bits: u8, finished: Finished) -> TableHistory {
        let mut history = self.for_new_table(bits);
        history.collections = Collections::Collected(finished);
        history
    }

    /// For this table, from which nothing more is collected before the next step.
    pub fn without_collections(mut self) -> TableHistory {
        self.collections = Collections::All;
        self
    }

    /// For this table, after a try of one more step. A try that met a full table is not a step, and
    /// doesn't tell whether the step is short.
    pub fn after_try(mut self, is_taken: bool, expansions: u64) -> TableHistory {
        self.last_try = expansions;
        if is_taken {
            self.steps = self.steps.saturating_add(1);
            self.expansions = Some(expansions);
            self.collections = Collections::None;
        }
        self
    }

    /// Whether a collection may help the next step at a full table of so many pair slots: there was
    /// none for it yet, or the last one left the step some room.
    pub fn should_collect(self, pairs: u64) -> bool {
        match self.collections {
            Collections::None => true,
            Collections::Collected(_) => self.last_try >= pairs / SLOTS_AN_EXPANSION,
            Collections::All => false,
        }
    }

    /// Whether more is finished than at the last collection for the next step.
    pub fn has_finished_more(self, finished: &Finished) -> bool {
        match self.collections {
            Collections::Collected(earlier) => finished.is_beyond(&earlier, FINISHED_SHARE),
            _ => true,
        }
    }

    /// Whether the table's cells have taken no step.
    pub fn has_no_step(self) -> bool {
        self.steps == 0
    }

    /// How many of so many workers take the next step: one, where the last one was short.
    pub fn workers_of_next_step(self, workers: usize) -> usize
        requires { 1 ≤ workers }
        ensures least { 1 ≤ result }
        ensures most { result ≤ workers }
    {
        match self.expansions {
            Some(expansions) if expansions <= FEW_EXPANSIONS => 1,
            _ => workers,
        }
    }

    /// By which factor the table grows, as long as it isn't large.
    pub fn growth_factor(self) -> GrowthFactor {
        if self.steps > STEPS_OF_GROWTH {
            GrowthFactor::Four
        } else {
            GrowthFactor::Sixteen
        }
    }

    /// Whether a full table of 2^bits pair slots should be swept before it grows, since most of it
    /// is likely to be left over from earlier steps: it is large and has taken some, or nearly
    /// large and has taken many.
    pub fn should_sweep_first(self, bits: u8) -> bool {
        if bits >= LARGE_BITS {
            return self.steps >= STEPS_BEFORE_SWEEP;
        }
        self.steps >= STEPS_BEFORE_SMALLER_SWEEP && bits + 2 >= LARGE_BITS
    }
}
