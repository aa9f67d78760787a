//! A thread's handle at the table.
ghost use Rattle.std.specs.Prelude.{◌≡◌, ◌+◌, [], min};
ghost use Rattle.node_table.specs.Books.{IsSound};

use crate::desk_view::DeskView;
use atomic_table::Seat;
use squares::Tally;

/// What a thread has seen of a table.
#[derive(Drop)]
pub struct Desk {
    pub(crate) seat: Seat<(), DeskView>,
    pub(crate) expansions: u64,
    ghost free: { seat.me.1 ≡ [] },
    ghost sound: { IsSound seat.me.0 },
}

impl Desk {
    ghost use Rattle.node_table.specs.Desks.{IsSameDesk, expansions_of};

    /// Adds a tally to the desk's number of expansions. A number that is full stays.
    pub fn count(&mut self, tally: &Tally)
        ensures expansions { expansions_of self.new
            ≡ min u64.MAX (expansions_of self.old + tally.now.expansions) }
        ensures desk { IsSameDesk self.old self.new }
    {
        self.expansions = self.expansions.saturating_add(tally.expansions);
    }

    /// How many expansions were counted for this desk.
    pub fn expansions(&self) -> u64
        ensures { result ≡ expansions_of self.now }
    {
        self.expansions
    }
}
