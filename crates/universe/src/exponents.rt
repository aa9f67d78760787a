//! The cells at a table of another exponent.

ghost use Rattle.std.specs.Prelude.{◌≡◌, ◌≤◌, ◌+◌, ◌^◌, IfOk, IsTrue};
ghost use Rattle.universe.specs.Tables.{key_at, pairs_in};

use crate::attempts::Attempt;
use crate::refusals::unless_full;
use crate::tables::OpenTable;
use crate::universe::Universe;
use std::alloc::AllocError;
use std::thread::Threads;
use table_core::Shape;
use table_growth::{larger, pair_count, smallest};
use worker_split::Team;

impl Universe {
    ghost use Rattle.universe.specs.Cells.{limit_of, pairs_of, rule_of};
    ghost use Rattle.universe.specs.Later.{ReachesExponent, IsAtExponent};

    /// The cells at a table of this exponent. It stands beside their own, if the limit leaves room
    /// for both, and else replaces it: then it has only the cells, in as few words as have room for
    /// them, or all of its words.
    pub(crate) fn at_exponent<R: Threads + Sync, G>(
        self,
        team: &Team<'_, R, G>,
        exponent: u8,
    ) -> Result<Universe, AllocError>
        ensures { IfOk result (IsAtExponent exponent self) }
    {
        if self.here.table.key().exponent == exponent {
            return Ok(self);
        }
        let start = match self.move_beside(team, exponent)? {
            Attempt::Done(there) => return Ok(there),
            Attempt::Full(start) => start,
        };
        let history = start.here.history;
        let compacted = start.here.close(start.root).compact(team.alloc)?;
        let history = history.for_new_table(compacted.still.key().shape.bits);
        compacted.open_at(team.alloc, exponent, history, start.others)
    }

    // Moves the cells to the open table of this exponent, or to a new one, if the limit leaves room
    // for both.
    fn move_beside<R: Threads + Sync, G>(
        mut self,
        team: &Team<'_, R, G>,
        exponent: u8,
    ) -> Result<Attempt, AllocError>
        ensures { IfOk result (ReachesExponent exponent self) }
    {
        let rule = self.here.table.key().rule;
        match self.others.take_out(&rule, exponent) {
            Some(table) => self.move_to(team, table),
            None => self.move_to_fresh(team, exponent),
        }
    }

    // Moves the cells to a new table of this exponent, if the limit leaves room for it beside
    // theirs.
    fn move_to_fresh<R: Threads + Sync, G>(
        mut self,
        team: &Team<'_, R, G>,
        exponent: u8,
    ) -> Result<Attempt, AllocError>
        ensures { IfOk result (ReachesExponent exponent self) }
    {
        let shape = smallest(self.others.limit);
        if !self.make_room_beside(shape) {
            return Ok(Attempt::Full(self));
        }
        let rule = self.here.table.key().rule;
        let history = self.here.history.for_new_table(shape.bits);
        let table = OpenTable::fresh(team.alloc, shape, &rule, exponent, history)?;
        self.move_to(team, table)
    }

    // Evicts as many of the other tables as are needed to make room for one of this shape beside
    // that of the cells. `false` where the limit is too small for both.
    fn make_room_beside(&mut self, shape: Shape) -> bool
        ensures here { self.new.here ≡ self.old.here }
        ensures root { self.new.root ≡ self.old.root }
        ensures limit { self.new.others.limit ≡ self.old.others.limit }
        ensures room { IsTrue result → 2 ^ shape.bits + pairs_of self.new ≤ limit_of self.new }
    {
        let pairs = self.here.pair_count() + pair_count(shape);
        if pairs > pair_count(self.others.limit) {
            return false;
        }
        self.others.make_room(pairs);
        true
    }

    // Copies the cells into another table, which grows while it is full and the limit leaves room.
    // Their own stays open, as the one that was used last.
    #[cycle(move_to)]
    fn move_to<R: Threads + Sync, G>(
        self,
        team: &Team<'_, R, G>,
        mut other: OpenTable,
    ) -> Result<Attempt, AllocError>
        requires rule { (key_at other).rule ≡ rule_of self }
        requires room { pairs_in other + pairs_of self ≤ limit_of self }
        ensures { IfOk result (ReachesExponent (key_at other).exponent self) }
    {
        let Universe {
            mut here,
            root,
            mut others,
        } = self;
        let copied = here.copy_across(team.alloc, root, &mut other);
        let Some(root) = unless_full(copied)? else {
            return Universe { here, root, others }.enlarge_and_move(team, other);
        };
        others.push(here)?;
        Ok(Attempt::Done(Universe {
            here: other,
            root,
            others,
        }))
    }

    // Enlarges another table that is full, if the limit leaves room, and copies the cells there.
    #[cycle(move_to)]
    fn enlarge_and_move<R: Threads + Sync, G>(
        mut self,
        team: &Team<'_, R, G>,
        other: OpenTable,
    ) -> Result<Attempt, AllocError>
        requires rule { (key_at other).rule ≡ rule_of self }
        ensures { IfOk result (ReachesExponent (key_at other).exponent self) }
    {
        let limit = self.others.limit;
        let growth_factor = other.history.growth_factor();
        let Some(shape) = larger(other.table.key().shape, limit, growth_factor) else {
            return Ok(Attempt::Full(self));
        };
        if !self.make_room_beside(shape) {
            return Ok(Attempt::Full(self));
        }
        match other.enlarge(team, shape)? {
            Some(larger) => self.move_to(team, larger),
            None => Ok(Attempt::Full(self)),
        }
    }
}
