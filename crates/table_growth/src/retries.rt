//! What is tried next where a table was full for a step.

ghost use Rattle.std.specs.Prelude.{◌≡◌, Some, IfNone, IfSome};

use crate::history::TableHistory;
use crate::policy::{LARGE_TEAM, MOST_COLLECTIONS};
use crate::sizes::{exceeds_default, larger};
use table_core::Shape;

/// How a step is tried again: at a new table of which size, and with what of the table that was
/// full.
#[derive(Clone, Copy)]
pub enum Retry {
    /// Of the same size, with only the cells.
    Swept,
    /// Of this larger size, with all squares and results.
    Enlarged(Shape),
    /// Of this larger size, with only the cells.
    Restarted(Shape),
    /// Of the largest size, with what a collection keeps. The number counts the collections.
    Collected(u32),
    /// Of the largest size, with only the cells.
    CellsAlone,
}

/// The shape and the history of the table at which a step was tried first, the largest shape, and
/// how many workers take the step.
#[derive(Clone, Copy)]
pub struct RetryPlan {
    pub shape: Shape,
    pub history: TableHistory,
    pub limit: Shape,
    pub workers: usize,
}

impl RetryPlan {
    ghost use Rattle.table_growth.specs.Retries.{IsWithinLimit, LeavesFewer};
    ghost use Rattle.table_growth.specs.declared.retries.Retry.TheVariants.{CellsAlone, Collected, Enlarged};

    /// What comes after this try, which met a full table; `None` stands for the first try, at the
    /// table as it was. A table that earlier steps have filled is swept, if it isn't the largest;
    /// then comes each larger size, in the first step of many workers with only the cells where there
    /// may be more slots than by default; then collections, as long as one helps; and at last only the
    /// cells. If they fill the largest
    /// table too, nothing comes: the step has to be halved.
    pub fn next(&self, tried: Option<Retry>, collection_helps: bool) -> Option<Retry>
        ensures within { IfSome result (IsWithinLimit self.now.limit) }
        ensures fewer { IfSome result (LeavesFewer self.now.limit tried) }
        ensures last { IfNone result (tried ≡ Some CellsAlone) }
    {
        let (bits, limit) = (self.shape.bits, self.limit.bits);
        match tried {
            None if bits < limit && self.history.should_sweep_first(bits) => Some(Retry::Swept),
            None | Some(Retry::Swept) => Some(self.next_larger(self.shape, collection_helps)),
            Some(Retry::Enlarged(shape)) => Some(self.next_larger(shape, collection_helps)),
            Some(Retry::Restarted(shape)) => Some(self.next_larger(shape, collection_helps)),
            Some(Retry::Collected(times)) => Some(self.next_largest(times, collection_helps)),
            Some(Retry::CellsAlone) => None,
        }
    }

    // What comes after a table of this shape.
    fn next_larger(&self, shape: Shape, collection_helps: bool) -> Retry
        ensures within { IsWithinLimit self.now.limit result }
        ensures fewer { LeavesFewer self.now.limit (Some (Enlarged shape)) result }
    {
        match larger(shape, self.limit, self.history.growth_factor()) {
            Some(larger) if self.should_restart() => Retry::Restarted(larger),
            Some(larger) => Retry::Enlarged(larger),
            None => self.next_largest(0, collection_helps),
        }
    }

    // Whether the step begins again with only the cells at a larger table: many workers take the
    // first step of the table's cells, and there may be more slots than by default.
    fn should_restart(&self) -> bool {
        self.workers >= LARGE_TEAM && exceeds_default(self.limit) && self.history.has_no_step()
    }

    // What comes after a table of the largest shape, which was collected so many times.
    fn next_largest(&self, times: u32, collection_helps: bool) -> Retry
        ensures within { IsWithinLimit self.now.limit result }
        ensures fewer { LeavesFewer self.now.limit (Some (Collected times)) result }
    {
        if collection_helps && times < MOST_COLLECTIONS {
            Retry::Collected(times + 1)
        } else {
            Retry::CellsAlone
        }
    }
}
