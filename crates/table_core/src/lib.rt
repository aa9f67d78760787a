//! The words of the shared table of squares: where they stand, what they show, what a desk at the
//! table may do to them, and what it learns.
//!
//! Nothing here runs at the same time as anything else. An atomic step is an `Event`, one load or
//! one compare-exchange of one word, and `step` makes its change. `every_run` says what holds after
//! every list of lawful events of any desks in any order; a running table has these definitions as
//! its rule. In `specs/`, `Layout` says where words stand, `Blocks` what numbers show, `Good` which
//! words are good, `Knowledge` what a desk knows, `Lawful` and `Learning` what it may do and what
//! that teaches it, and `Runs` what a run is.
//!
//! - A desk is a thread's handle at the shared hash-consing table.
//! - The way of a word is its probe sequence, and a shard the 256 slots that it visits: a probe
//!   group.
//! - [`Event::Look`] and [`Event::Claim`] load and insert a node, [`Event::Ask`] and
//!   [`Event::Tell`] a memoised result.
#![tactic(auto)]

mod key;
mod knowledge;
mod laws;
mod machine;
mod rank;
mod shape;
mod word;

pub use key::Key;
pub use knowledge::{Knowledge, KnownBlock, KnownResult};
pub use laws::{
    every_event_teaches, every_fresh_table, every_full_way_stays, every_reopening,
    every_result_has_its_slot, every_run, every_truth_is_consistent, every_way, full_shard_is_seen,
    good_words_can_be_known,
};
pub use machine::{Event, step};
pub use rank::{LARGEST_RANK, square_rank};
pub use shape::{
    DEFAULT_PAIR_COUNT, Kind, LARGEST_PAIR_COUNT, SHARD_LEN, SMALLEST_PAIR_COUNT, Shape,
};
pub use word::{pair_word, parts, result_word};
