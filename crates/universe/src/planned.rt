//! What is copied out of a table that is still open, and the words that it is copied into.

ghost use Rattle.std.specs.Prelude.{◌≡◌, IfOk};
ghost use Rattle.universe.specs.Outcomes.{IfMade};

use crate::tables::OpenTable;
use node_sweep::{BlankWords, CopyPlan, Keep, Workers};
use squares::Sq;
use std::alloc::AllocError;
use std::thread::{Threads, join};
use table_core::Shape;
use table_growth::{BITS_OF_SHARED_COPIES, TableHistory, has_come_far, shape_between};
use worker_split::Team;

/// A plan of a copy, and the words of this shape that it is copied into.
#[derive(Drop)]
pub(crate) struct Planned {
    pub(crate) plan: CopyPlan,
    pub(crate) blank: BlankWords,
    pub(crate) shape: Shape,
}

impl Planned {
    /// The history of the table of the copy, after this one of the table that is copied.
    pub(crate) fn history(&self, history: TableHistory) -> TableHistory {
        match self.plan.finished() {
            None => history.for_new_table(self.shape.bits),
            Some(finished) => history.for_collected_table(self.shape.bits, finished),
        }
    }

    // Whether nothing more is finished than at the last collection.
    fn is_in_vain(&self, history: TableHistory) -> bool {
        match self.plan.finished() {
            None => false,
            Some(finished) => !history.has_finished_more(&finished),
        }
    }
}

impl OpenTable {
    ghost use Rattle.universe.specs.Planning.{IsPlanned};
    ghost use Rattle.universe.specs.Tables.{key_at};

    /// What is copied into words of this shape, or of a smaller one if all is kept in far more
    /// words of a step that has come far. `None` where a collection is in vain, since nothing more
    /// is finished than at the last one.
    pub(crate) fn plan<R: Threads + Sync, G>(
        &self,
        team: &Team<'_, R, G>,
        root: Sq,
        shape: Shape,
        keep: Keep,
    ) -> Result<Option<Planned>, AllocError>
        ensures { IfMade result (IsPlanned (key_at self.now) shape.bits) }
    {
        let between = match keep {
            Keep::Everything => shape_between(self.table.key().shape, shape, team.workers),
            Keep::Collected(_) => None,
        };
        let Some(smaller) = between else {
            let planned = self.plan_in(team, root, shape, keep)?;
            if planned.is_in_vain(self.history) {
                return Ok(None);
            }
            return Ok(Some(planned));
        };
        let planned = self.plan_in(team, root, smaller, keep)?;
        if has_come_far(&planned.plan, self.table.key().exponent) {
            return Ok(Some(planned));
        }
        let Planned { plan, blank, .. } = planned;
        drop(blank);
        let blank = BlankWords::new(team.alloc, self.table.key(), shape)?;
        Ok(Some(Planned { plan, blank, shape }))
    }

    /// What is copied into words of this shape.
    pub(crate) fn plan_in<R: Threads + Sync, G>(
        &self,
        team: &Team<'_, R, G>,
        root: Sq,
        shape: Shape,
        keep: Keep,
    ) -> Result<Planned, AllocError>
        ensures is { IfOk result (IsPlanned (key_at self.now) shape.bits) }
        ensures shape { IfOk result (λ planned. planned.shape ≡ shape) }
    {
        let (alloc, key) = (team.alloc, *self.table.key());
        let workers = Workers {
            runtime: team.runtime,
            alloc,
            count: team.workers,
        };
        if team.workers == 1 || shape.bits < BITS_OF_SHARED_COPIES {
            let plan = CopyPlan::of_table(&workers, &self.table, root, keep, shape)?;
            let blank = BlankWords::new(alloc, &key, shape)?;
            return Ok(Planned { plan, blank, shape });
        }
        let (blank, plan) = join(
            team.runtime,
            move || BlankWords::new(alloc, &key, shape),
            || CopyPlan::of_table(&workers, &self.table, root, keep, shape),
        );
        let (blank, plan) = (blank?, plan?);
        Ok(Planned { plan, blank, shape })
    }
}
