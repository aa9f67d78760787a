//! The ranks of the pairs of an open table, which threads find together.

use crate::open_words::OpenWords;
use crate::shared_bytes::SharedBytes;
use table_core::LARGEST_RANK;

/// The words of an open table, and the rank of each pair, as far as it was found.
#[derive(Clone, Copy)]
pub(crate) struct Ranking<'a> {
    /// The words.
    pub(crate) words: OpenWords<'a>,
    /// The rank of each pair, at its slot, 0 where it was not found yet.
    pub(crate) ranks: SharedBytes<'a>,
}

impl Ranking<'_> {
    /// The rank of the pair at a slot; 0 where no pair stands there.
    pub(crate) fn rank_at(&self, slot: u32) -> u8 {
        match self.words.parts_at(slot) {
            Some(parts) => self.rank(slot, parts, LARGEST_RANK),
            None => 0,
        }
    }

    // The rank of the pair at a slot, which has these parts, if it is at most this high.
    #[cycle(rank)]
    fn rank(&self, slot: u32, parts: (u32, u32), height: u8) -> u8 {
        let known = self.ranks.get(slot);
        if known != 0 {
            return known;
        }
        let (first, second) = parts;
        let below = match self.known_rank(first) {
            Some(rank) => rank,
            None => match self.known_rank(second) {
                Some(rank) => rank,
                None => self.rank_of_part(if first == 0 { second } else { first }, height),
            },
        };
        let rank = below.saturating_add(1);
        self.ranks.note(slot, rank);
        rank
    }

    // The rank of a part of a pair of at most this rank.
    #[cycle(rank)]
    fn rank_of_part(&self, part: u32, height: u8) -> u8 {
        let Some(slot) = self.words.slot_of(part) else {
            return 0;
        };
        match self.words.parts_at(slot) {
            Some(parts) if height > 1 => self.rank(slot, parts, height - 1),
            _ => 0,
        }
    }

    // The rank of a part of a pair, if the part isn't empty and the rank is known.
    fn known_rank(&self, part: u32) -> Option<u8> {
        if part == 0 {
            return None;
        }
        match self.words.slot_of(part) {
            None => Some(0),
            Some(slot) => match self.ranks.get(slot) {
                0 => None,
                rank => Some(rank),
            },
        }
    }
}
