//! How many pairs and results of each rank there are, which says what a collection keeps.

use crate::keep::Shares;
use table_core::LARGEST_RANK;

/// No rank is as high.
pub(crate) const RANK_COUNT: usize = 256;

/// Of which ranks a collection keeps pairs, beside those that the root reaches.
#[derive(Clone, Copy)]
pub(crate) struct KeptRanks {
    /// Each pair of at most this rank.
    pub(crate) low: u8,
    /// Each pair of at least this rank that has a result, and that result.
    pub(crate) high: u8,
}

/// How many pairs of each rank there are, and how many of them have results.
#[derive(Clone, Copy)]
pub(crate) struct RankCounts {
    pub(crate) pairs: [u32; RANK_COUNT],
    results: [u32; RANK_COUNT],
}

/// How many squares of each size had results when words were collected, and from which size on all
/// of these were kept. No clause promises that the numbers are right: they only decide whether
/// another collection is worth its time.
#[derive(Clone, Copy)]
pub struct Finished {
    results: [u32; RANK_COUNT],
    high: u8,
}

// One in so many of them; all of them, for 0.
fn share(slots: u32, one_in: u32) -> u32 {
    slots / one_in.max(1)
}

impl RankCounts {
    /// Of no pair.
    pub(crate) fn new() -> RankCounts {
        RankCounts {
            pairs: [0; RANK_COUNT],
            results: [0; RANK_COUNT],
        }
    }

    /// Counts a pair of this rank.
    pub(crate) fn count(&mut self, rank: u8, has_result: bool) {
        let rank = usize::from(rank);
        self.pairs[rank] = self.pairs[rank].saturating_add(1);
        if has_result {
            self.results[rank] = self.results[rank].saturating_add(1);
        }
    }

    /// Counts what was counted elsewhere too.
    pub(crate) fn add(&mut self, others: &RankCounts) {
        for rank in 0..RANK_COUNT {
            self.pairs[rank] = self.pairs[rank].saturating_add(others.pairs[rank]);
            self.results[rank] = self.results[rank].saturating_add(others.results[rank]);
        }
    }

    /// What a collection into so many pair slots keeps.
    pub(crate) fn kept_ranks(&self, slots: u32, shares: Shares) -> KeptRanks {
        let low = if self.pairs[1] > share(slots, shares.leaves) {
            0
        } else {
            self.low(u64::from(share(slots, shares.small)))
        };
        let high = self.high(u64::from(share(slots, shares.large)));
        KeptRanks { low, high }
    }

    // The highest rank up to which there are at most so many pairs.
    fn low(&self, most: u64) -> u8 {
        let mut sum: u64 = 0;
        for rank in 1..=LARGEST_RANK {
            sum = sum.saturating_add(u64::from(self.pairs[rank as usize]));
            if sum > most {
                return rank - 1;
            }
        }
        LARGEST_RANK
    }

    // The lowest rank from which on there are at most so many pairs with results.
    fn high(&self, most: u64) -> u8 {
        let mut sum: u64 = 0;
        for rank in (1..=LARGEST_RANK).rev() {
            sum = sum.saturating_add(u64::from(self.results[rank as usize]));
            if sum > most {
                return rank + 1;
            }
        }
        1
    }

    /// What was finished before a collection that keeps these.
    pub(crate) fn into_finished(self, kept: KeptRanks) -> Finished {
        let results = self.results;
        Finished {
            results,
            high: kept.high,
        }
    }
}

impl Finished {
    /// Whether more large squares are finished than before an earlier collection, of those that it
    /// kept all of: by one in so many at least. No clause promises the answer: it only decides how
    /// fast a run is.
    pub fn is_beyond(&self, earlier: &Finished, one_in: u64) -> bool {
        let before = earlier.results_from(earlier.high);
        self.results_from(earlier.high) > before.saturating_add(before / one_in.max(1))
    }

    // How many results there were from this rank on.
    fn results_from(&self, lowest: u8) -> u64 {
        let mut sum: u64 = 0;
        for rank in lowest..=LARGEST_RANK {
            sum = sum.saturating_add(u64::from(self.results[rank as usize]));
        }
        sum
    }
}
