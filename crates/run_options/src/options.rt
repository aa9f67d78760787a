//! What a run is asked to do.

use rule_text::Rule;

/// The largest number of workers of a run.
pub const MOST_WORKERS: usize = 64;

/// Which run it is, whatever is said and written of it.
#[derive(Clone, Copy, Debug, PartialEq, Eq)]
pub struct RunOptions {
    /// The number of generations to run on from the file's own.
    pub gens: u64,
    /// The rule to run by instead of the file's, if one is given.
    pub rule: Option<Rule>,
    /// The most pair slots that all tables of squares may have together: a power of two, from 2^10
    /// to 2^28.
    pub pairs: u32,
    /// How many workers take the steps, from 1 to 64. One starts no thread.
    pub workers: usize,
}
