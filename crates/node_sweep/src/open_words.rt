//! The words of an open table, as they stand while threads may still change them.

ghost use Rattle.std.specs.Prelude.{◌≡◌, ◌<◌, ◌+◌, ◌^◌};
ghost use Rattle.table_core.specs.Layout.{size, start};
ghost use Rattle.table_core.specs.declared.shape.Kind.TheVariants.{Pair};

use node_table::NodeTable;
use table_core::{Kind, parts};

/// The words of an open table. What is read there tells nothing for sure, so no clause speaks of
/// it.
#[derive(Clone, Copy)]
pub(crate) struct OpenWords<'a> {
    table: &'a NodeTable,
    first_pair: u32,
    slots: u32,
    ghost first: { first_pair ≡ start table.now.key.shape.bits Pair },
    ghost count: { slots ≡ 2 ^ table.now.key.shape.bits },
}

impl<'a> OpenWords<'a> {
    /// The words of this table.
    pub(crate) fn of_table(table: &'a NodeTable) -> OpenWords<'a> {
        let shape = table.key().shape;
        OpenWords {
            table,
            first_pair: shape.index(Kind::Pair, 0),
            slots: shape.slot_count(Kind::Pair),
        }
    }

    /// How many slots of pairs there are.
    pub(crate) fn slot_count(&self) -> u32 {
        self.slots
    }

    /// How many numbers leaves and pairs have, with 0.
    pub(crate) fn number_count(&self) -> usize {
        self.first_pair as usize + self.slots as usize
    }

    /// The number of the pair at a slot.
    pub(crate) fn pair_at(&self, slot: u32) -> u32 {
        self.first_pair.saturating_add(slot)
    }

    /// The slot of a pair; none for a leaf and for 0.
    pub(crate) fn slot_of(&self, number: u32) -> Option<u32> {
        number.checked_sub(self.first_pair)
    }

    /// The numbers of the two parts of the pair at a slot; none where no pair stands there.
    pub(crate) fn parts_at(&self, slot: u32) -> Option<(u32, u32)> {
        if slot >= self.slots {
            return None;
        }
        let word = self.table.peek(self.first_pair as usize + slot as usize);
        if word == 0 { None } else { Some(parts(word)) }
    }

    /// The number of the result of the pair at a slot, if it has one.
    pub(crate) fn result_at(&self, slot: u32) -> Option<u32> {
        match self.word_beside(slot) {
            0 => None,
            word => Some(parts(word).1),
        }
    }

    /// Whether the pair at a slot has a result.
    pub(crate) fn has_result_at(&self, slot: u32) -> bool {
        self.word_beside(slot) != 0
    }

    // The word that tells the result of the pair at a slot; 0 where there is none.
    fn word_beside(&self, slot: u32) -> u64 {
        if slot >= self.slots {
            return 0;
        }
        let pair = self.first_pair as usize + slot as usize;
        self.table.peek(pair + self.slots as usize)
    }
}
