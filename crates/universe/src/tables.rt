//! Tables that stay open, each with its one desk.

ghost use Rattle.std.specs.Prelude.{◌≡◌, ◌<◌, ◌≤◌, ◌^◌, ◌↔◌, IfErr, IfOk, IsTrue};
ghost use Rattle.node_table.specs.Desks.{IsDeskOf, book_at};
ghost use Rattle.node_table.specs.Openings.{SaysAll};
ghost use Rattle.node_table.specs.Stills.{book_in, key_of};
ghost use Rattle.plane.specs.Square.{IsSame};
ghost use Rattle.squares.specs.Book.{IsKnown, Shows};
ghost use Rattle.squares.specs.Roots.{IsRootOf, square_plane};
ghost use Rattle.universe.specs.Outcomes.{IfMade, LacksMemoryOrRoom};
ghost use Rattle.universe.specs.Readers.{IsReader};
ghost use Rattle.worker_split.specs.Jobs.{Refuses};

use crate::rooted_still::RootedStill;
use node_sweep::Keep;
use node_table::{At, Desk, NodeTable, Still};
use plane::Refusal;
use rule_text::Rule;
use squares::{Sq, Squares, copy_between};
use std::alloc::{AllocError, Global};
use std::thread::Threads;
use table_core::{Key, Kind, Shape};
use table_growth::{TableHistory, pair_count};
use worker_split::{Gate, Team, step};

/// A table that stays open, with its one desk, and its history.
#[derive(Drop)]
pub(crate) struct OpenTable {
    pub(crate) table: NodeTable,
    pub(crate) desk: Desk,
    pub(crate) history: TableHistory,
    ghost of_table: { IsDeskOf table desk },
}

/// Another desk at work at the table of a desk. It knows what that knows.
pub(crate) fn reader<'t>(table: &'t NodeTable, desk: &mut Desk) -> At<'t>
    requires { IsDeskOf table.now desk.old }
    ensures own { IsDeskOf table.now desk.new }
    ensures same { book_at table.now desk.new ≡ book_at table.now desk.old }
    ensures reads { IsReader (book_at table.now desk.old) (⟦<At<'static> as Squares>⟧.book result) }
{
    table.at(desk.split_off(table))
}

impl OpenTable {
    ghost use Rattle.universe.specs.Cells.{next_cells, still_cells, still_of};
    ghost use Rattle.universe.specs.Tables.{HasPairs, IsFreshTable, IsOpened, IsTableUnder, StaysOpen, key_at, known_at, pairs_in};

    /// A table that is opened of these words, and knows what they show.
    pub(crate) fn of_words(
        alloc: Global,
        still: Still,
        rule: &Rule,
        exponent: u8,
        history: TableHistory,
    ) -> Result<OpenTable, AllocError>
        ensures { IfOk result (IsOpened still rule.now exponent) }
    {
        let Ok((table, desk)) = NodeTable::open(alloc, still, *rule, exponent) else {
            return Err(AllocError);
        };
        Ok(OpenTable {
            table,
            desk,
            history,
        })
    }

    /// A table of this shape without a square.
    pub(crate) fn fresh(
        alloc: Global,
        shape: Shape,
        rule: &Rule,
        exponent: u8,
        history: TableHistory,
    ) -> Result<OpenTable, AllocError>
        ensures { IfOk result (IsFreshTable rule.now exponent (2 ^ shape.bits)) }
    {
        let Ok(still) = Still::empty(alloc, shape.slot_count(Kind::Pair)) else {
            return Err(AllocError);
        };
        OpenTable::of_words(alloc, still, rule, exponent, history)
    }

    /// A table of this shape with the squares and results of this one, if it has room for them.
    pub(crate) fn enlarge<R: Threads + Sync, G>(
        self,
        team: &Team<'_, R, G>,
        shape: Shape,
    ) -> Result<Option<OpenTable>, AllocError>
        ensures under { IfMade result (IsTableUnder (key_at self).rule (key_at self).exponent) }
        ensures pairs { IfMade result (HasPairs (2 ^ shape.bits)) }
    {
        let Key { rule, exponent, .. } = *self.table.key();
        let history = self.history.for_new_table(shape.bits);
        // All squares are copied, whichever is given as the root.
        let root = Sq::empty(4);
        let planned = self.plan_in(team, root, shape, Keep::Everything)?;
        let Some(RootedStill { still, .. }) = self.close(root).copy(team.alloc, planned)? else {
            return Ok(None);
        };
        let table = OpenTable::of_words(team.alloc, still, &rule, exponent, history)?;
        Ok(Some(table))
    }

    /// How many pair slots it has.
    pub(crate) fn pair_count(&self) -> u64
        ensures { result ≡ pairs_in self.now }
    {
        pair_count(self.table.key().shape)
    }

    /// Whether it is under this rule and exponent.
    pub(crate) fn is_under(&self, rule: &Rule, exponent: u8) -> bool
        ensures { IsTrue result ↔ IsTableUnder rule.now exponent self.now }
    {
        let key = self.table.key();
        key.exponent == exponent && key.rule.code() == rule.code()
    }

    /// The cells of a square in the words of the table, which is closed.
    pub(crate) fn close(self, root: Sq) -> RootedStill
        requires known { IsKnown (known_at self) root.level root }
        requires level { (3 < root.level) × (root.level ≤ 63) }
        ensures cells { IsSame (still_cells result) (square_plane (known_at self) root) }
        ensures key { key_of (still_of result) ≡ key_at self }
        ensures says { SaysAll (known_at self) (book_in (still_of result)) }
    {
        let still = self.table.close(self.desk);
        RootedStill { still, root }
    }

    /// One step of 2^exponent generations from a square, by a team.
    pub(crate) fn step<R: Threads + Sync, G: Gate>(
        &mut self,
        team: &Team<'_, R, G>,
        root: Sq,
    ) -> Result<Sq, Refusal>
        requires known { IsKnown (known_at self.old) root.level root }
        requires level { root.level ≤ 63 }
        requires exponent { (key_at self.old).exponent ≤ 62 }
        ensures stays { StaysOpen self.old self.new }
        ensures ok { IfOk result (IsRootOf (known_at self.new) (next_cells self.old root)) }
        ensures refusal { IfErr result (Refuses (known_at self.new)) }
    {
        let team = team.at_most(self.history.workers_of_next_step(team.workers));
        // The second desk begins with no expansion, so it comes back with only those of this step.
        let second = self.desk.split_off(&self.table);
        let (desk, made) = step(&team, &self.table, second, root);
        self.history = self.history.after_try(made.is_ok(), desk.expansions());
        self.desk = desk;
        made
    }

    /// The square copied into another table.
    pub(crate) fn copy_across(
        &mut self,
        alloc: Global,
        root: Sq,
        other: &mut OpenTable,
    ) -> Result<Sq, Refusal>
        requires known { IsKnown (known_at self.old) root.level root }
        ensures from { StaysOpen self.old self.new }
        ensures to { StaysOpen other.old other.new }
        ensures ok { IfOk result
            (Shows (known_at other.new) root.level ((known_at self.old).cells root)) }
        ensures refusal { IfErr result LacksMemoryOrRoom }
    {
        let other_desk = other.desk.split_off(&other.table);
        let mut other_at = other.table.at(other_desk);
        let mut from = reader(&self.table, &mut self.desk);
        let copied = copy_between(alloc, &mut from, root, &mut other_at);
        other.desk = other_at.leave();
        copied
    }
}
