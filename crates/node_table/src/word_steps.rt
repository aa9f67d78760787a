//! The four steps that a desk at work takes on a word: a load and a compare-exchange of the word of
//! a block, and the same of the word of a result.
ghost use Rattle.std.specs.Prelude.{◌<◌, ◌==◌, if◌then◌else◌, ◌+◌, ◌^◌};
ghost use Rattle.table_core.specs.declared.machine.Event.TheVariants.{Look, Claim, Ask, Tell};
ghost use Rattle.table_core.specs.Lawful.{IsLawful};
ghost use Rattle.node_table.specs.DesksAtWork.{StaysAt};
ghost use Rattle.node_table.specs.Refusals.{known_by};
ghost use Rattle.node_table.specs.Rule.{Met};

use crate::at::At;
use crate::rules::{LoadNode, LoadResult, PlaceNode, PlaceResult};
use table_core::result_word;

impl At<'_> {
    /// Loads the word of a leaf or a pair.
    pub(crate) fn look(&mut self, index: u32) -> u64
        requires { index < self.old.table.now.table.shared.table_id.words }
        ensures here { StaysAt self.old self.new }
        ensures met { Met self.old.table.now.key (Look 0 index) self.old.desk.seat.me result
            self.new.desk.seat.me }
    {
        let desk = &mut self.desk;
        self.table
            .table
            .shared
            .load::<LoadNode>(&mut desk.seat, index as usize)
    }

    /// Places the word of a leaf or a pair where 0 stands, and answers the word that stood there.
    pub(crate) fn claim(&mut self, index: u32, word: u64) -> u64
        requires range { index < self.old.table.now.table.shared.table_id.words }
        requires lawful { IsLawful self.old.table.now.key (known_by self.old.desk)
            (Claim 0 index word) }
        ensures here { StaysAt self.old self.new }
        ensures met { Met self.old.table.now.key (Claim 0 index word) self.old.desk.seat.me
            (if result == 0 then word else result) self.new.desk.seat.me }
    {
        let desk = &mut self.desk;
        self.table
            .table
            .shared
            .compare_exchange::<PlaceNode>(&mut desk.seat, index as usize, 0, word)
    }

    /// Loads the word of a result.
    pub(crate) fn ask(&mut self, index: u32) -> u64
        requires range { index < self.old.table.now.table.shared.table_id.words }
        requires lawful { IsLawful self.old.table.now.key (known_by self.old.desk) (Ask 0 index) }
        ensures here { StaysAt self.old self.new }
        ensures met { Met self.old.table.now.key (Ask 0 index) self.old.desk.seat.me result
            self.new.desk.seat.me }
    {
        let desk = &mut self.desk;
        self.table
            .table
            .shared
            .load::<LoadResult>(&mut desk.seat, index as usize)
    }

    /// Places the word of a result where 0 stands, and answers the word that stood there.
    pub(crate) fn tell(&mut self, index: u32, number: u32) -> u64
        requires range { index < self.old.table.now.table.shared.table_id.words }
        requires lawful { IsLawful self.old.table.now.key (known_by self.old.desk)
            (Tell 0 index number) }
        ensures here { StaysAt self.old self.new }
        ensures met { Met self.old.table.now.key (Tell 0 index number) self.old.desk.seat.me
            (if result == 0 then 2 ^ 32 + number else result) self.new.desk.seat.me }
    {
        let word = result_word(number);
        let desk = &mut self.desk;
        self.table
            .table
            .shared
            .compare_exchange::<PlaceResult>(&mut desk.seat, index as usize, 0, word)
    }
}
