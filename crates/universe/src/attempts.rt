//! A step that is tried at one table after the other, until one has room for it.

ghost use Rattle.std.specs.Prelude.{◌≡◌, ◌≤◌, ◌^◌, IfOk};

use crate::refusals::unless_full;
use crate::universe::Universe;
use node_sweep::Keep;
use std::alloc::AllocError;
use std::thread::Threads;
use table_core::Shape;
use table_growth::{COLLECTION_SHARES, Retry, RetryPlan, pair_count};
use worker_split::{Gate, Team};

/// The universe after a step, or after its cells came to another table; or, where a table was full,
/// the universe as it was before.
#[derive(Drop)]
pub(crate) enum Attempt {
    Done(Universe),
    Full(Universe),
}

impl Universe {
    ghost use Rattle.universe.specs.Cells.{exponent_of, limit_of};
    ghost use Rattle.table_growth.specs.Retries.{IsWithinLimit};
    ghost use Rattle.universe.specs.Later.{IsAtExponent, IsAttempt, IsFullAtLimit, IsFullInPlace, MayStep};

    /// Takes one step of the cells at their table, or, where that is full, at new ones, as the plan
    /// says.
    pub(crate) fn step_with_growth<R: Threads + Sync, G: Gate>(
        self,
        team: &Team<'_, R, G>,
    ) -> Result<Attempt, AllocError>
        requires { MayStep self }
        ensures ok { IfOk result (IsAttempt self) }
        ensures full { IfOk result IsFullAtLimit }
    {
        let plan = RetryPlan {
            shape: self.here.table.key().shape,
            history: self.here.history,
            limit: self.others.limit,
            workers: team.workers,
        };
        let mut attempt = self.step_here(team)?;
        let mut tried = None;
        'retries: loop {
            let start = match attempt {
                Attempt::Full(start) => start,
                done => return Ok(done),
            };
            let pairs = start.here.pair_count();
            let Some(retry) = plan.next(tried, start.here.history.should_collect(pairs)) else {
                return Ok(Attempt::Full(start));
            };
            attempt = start.retry(team, retry)?;
            tried = Some(retry);
        }
    }

    // Takes one step at the new table that this retry means.
    fn retry<R: Threads + Sync, G: Gate>(
        self,
        team: &Team<'_, R, G>,
        retry: Retry,
    ) -> Result<Attempt, AllocError>
        requires step { MayStep self }
        requires within { IsWithinLimit self.others.limit retry }
        ensures ok { IfOk result (IsAttempt self) }
        ensures full { retry ≡ Retry.CellsAlone → IfOk result IsFullAtLimit }
    {
        let limit = self.others.limit;
        let own = self.here.table.key().shape;
        match retry {
            Retry::Swept => self.step_swept(team, own),
            Retry::Enlarged(shape) => self.step_enlarged(team, shape),
            Retry::Restarted(shape) => self.step_swept(team, shape),
            Retry::Collected(_) => {
                self.step_copied(team, limit, Keep::Collected(COLLECTION_SHARES))
            }
            Retry::CellsAlone => self.step_swept(team, limit),
        }
    }

    // Takes one step at a larger table with all squares: of this shape, where a smaller one was full
    // too.
    fn step_enlarged<R: Threads + Sync, G: Gate>(
        self,
        team: &Team<'_, R, G>,
        shape: Shape,
    ) -> Result<Attempt, AllocError>
        requires step { MayStep self }
        requires shape { 2 ^ shape.bits ≤ limit_of self }
        ensures { IfOk result (IsAttempt self) }
    {
        let start = match self.step_copied(team, shape, Keep::Everything)? {
            Attempt::Full(start) => start,
            done => return Ok(done),
        };
        if start.here.pair_count() == pair_count(shape) {
            return Ok(Attempt::Full(start));
        }
        start.step_copied(team, shape, Keep::Everything)
    }

    // Takes one step at the table of the cells.
    fn step_here<R: Threads + Sync, G: Gate>(
        self,
        team: &Team<'_, R, G>,
    ) -> Result<Attempt, AllocError>
        requires { MayStep self }
        ensures ok { IfOk result (IsAttempt self) }
        ensures full { IfOk result (IsFullInPlace self) }
    {
        let Universe {
            mut here,
            root,
            others,
        } = self;
        let made = here.step(team, root);
        match unless_full(made)? {
            Some(root) => Ok(Attempt::Done(Universe { here, root, others })),
            None => Ok(Attempt::Full(Universe { here, root, others })),
        }
    }

    // Takes one step at a new table of this shape with only the cells, if it has room for them.
    fn step_swept<R: Threads + Sync, G: Gate>(
        self,
        team: &Team<'_, R, G>,
        shape: Shape,
    ) -> Result<Attempt, AllocError>
        requires step { MayStep self }
        requires shape { 2 ^ shape.bits ≤ limit_of self }
        ensures ok { IfOk result (IsAttempt self) }
        ensures full { 2 ^ shape.bits ≡ limit_of self → IfOk result IsFullAtLimit }
    {
        let mut others = self.others;
        let exponent = self.here.table.key().exponent;
        let history = self.here.history;
        let start = self.here.close(self.root);
        others.make_room(pair_count(shape));
        match start.sweep(team.alloc, shape)? {
            Some(fresh) => {
                drop(start);
                let history = history.for_new_table(shape.bits);
                let universe = fresh.open_at(team.alloc, exponent, history, others)?;
                universe.step_here(team)
            }
            None => {
                let history = history.without_collections();
                let universe = start.open_at(team.alloc, exponent, history, others)?;
                Ok(Attempt::Full(universe))
            }
        }
    }

    // Takes one step at a new table of this shape, or of a smaller one, if it has room for what is
    // kept.
    fn step_copied<R: Threads + Sync, G: Gate>(
        self,
        team: &Team<'_, R, G>,
        shape: Shape,
        keep: Keep,
    ) -> Result<Attempt, AllocError>
        requires step { MayStep self }
        requires shape { 2 ^ shape.bits ≤ limit_of self }
        ensures { IfOk result (IsAttempt self) }
    {
        let Some(planned) = self.here.plan(team, self.root, shape, keep)? else {
            return Ok(Attempt::Full(self.without_collections()));
        };
        let mut others = self.others;
        let exponent = self.here.table.key().exponent;
        let old = self.here.history;
        let new = planned.history(old);
        let start = self.here.close(self.root);
        others.make_room(pair_count(planned.shape));
        match start.copy(team.alloc, planned)? {
            Some(fresh) => {
                drop(start);
                let universe = fresh.open_at(team.alloc, exponent, new, others)?;
                universe.step_here(team)
            }
            None => {
                let history = old.without_collections();
                let universe = start.open_at(team.alloc, exponent, history, others)?;
                Ok(Attempt::Full(universe))
            }
        }
    }

    // The universe, from whose table nothing more is collected before the next step.
    fn without_collections(mut self) -> Universe
        ensures { IsAtExponent (exponent_of self) self result }
    {
        self.here.history = self.here.history.without_collections();
        self
    }
}
