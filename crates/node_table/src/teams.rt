//! Desks that work together at one table: one is split off another, and joined into it again.
ghost use Rattle.std.specs.Prelude.{◌≡◌, ◌+◌, min};
ghost use Rattle.squares.specs.Book.{Keeps};
ghost use Rattle.node_table.specs.Desks.{IsDeskOf, book_at, expansions_of};
ghost use Rattle.node_table.specs.DesksAtWork.{GoesOn, KnowsAllOf, book_here};
ghost use Rattle.node_table.specs.Teams.{AreAtOneTable, at_place_of};

use crate::at::At;
use crate::desk::Desk;
use crate::rules::{JoinedView, LoadNode, SplitView};
use crate::table::NodeTable;

impl Desk {
    /// A desk that knows what this one knows. It begins with no expansion.
    pub fn split_off(&mut self, table: &NodeTable) -> Desk
        requires { IsDeskOf table.now self.old }
        ensures own { IsDeskOf table.now self.new }
        ensures same { book_at table.now self.new ≡ book_at table.now self.old }
        ensures expansions { expansions_of self.new ≡ expansions_of self.old }
        ensures other { IsDeskOf table.now result }
        ensures same_other { book_at table.now result ≡ book_at table.now self.old }
        ensures grows { KnowsAllOf self.old self.new × KnowsAllOf self.old result }
        ensures none { expansions_of result ≡ 0 }
    {
        let seat = table.table.shared.split_seat::<SplitView>(&mut self.seat);
        Desk {
            seat,
            expansions: 0,
        }
    }

    /// The desk knows then what either knew. The numbers of expansions are added, and a number that
    /// is full stays.
    pub(crate) fn join(&mut self, table: &NodeTable, other: Desk)
        requires own { IsDeskOf table.now self.old }
        requires other { IsDeskOf table.now other }
        ensures table { IsDeskOf table.now self.new }
        ensures first { Keeps (book_at table.now self.old) (book_at table.now self.new) }
        ensures second { Keeps (book_at table.now other) (book_at table.now self.new) }
        ensures grows { KnowsAllOf self.old self.new × KnowsAllOf other self.new }
        ensures expansions { expansions_of self.new
            ≡ min u64.MAX (expansions_of self.old + expansions_of other) }
    {
        let Desk { seat, expansions } = other;
        table
            .table
            .shared
            .join_seat::<JoinedView>(&mut self.seat, seat);
        // A step, at which the rule of the words holds, tells that what the joined view says is
        // true.
        table.table.shared.load::<LoadNode>(&mut self.seat, 0);
        self.expansions = self.expansions.saturating_add(expansions);
    }
}

impl<'t> At<'t> {
    /// Another desk at work at the same table. It knows what this one knows.
    pub fn split_off(&mut self) -> At<'t>
        ensures own { book_here self.new ≡ book_here self.old }
        ensures other { book_here result ≡ book_here self.old }
        ensures grows { GoesOn self.old self.new × GoesOn self.old result }
    {
        At {
            table: self.table,
            desk: self.desk.split_off(self.table),
            expansions: self.expansions,
        }
    }

    /// This desk knows then what either knew: a square has one number then. The number of
    /// expansions with which it came stays its own.
    pub fn join(&mut self, other: At<'_>)
        requires { AreAtOneTable (book_here self.old) (book_here other) }
        ensures own { Keeps (book_here self.old) (book_here self.new) }
        ensures other { Keeps (at_place_of (book_here self.old) (book_here other.entry))
            (book_here self.new) }
        ensures grows { GoesOn self.old self.new × KnowsAllOf other.entry.desk self.new.desk }
    {
        let At {
            table: _,
            desk,
            expansions: _,
        } = other;
        self.desk.join(self.table, desk);
    }
}
