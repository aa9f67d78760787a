//! The running table of squares: words that threads share, and the desks at which they work.
//!
//! A desk has a seat at a table of `atomic_table`, and at the seat a view of what it has seen. Each
//! atomic step on a word is one that the table's rule allows, and adds to the view.
//!
//! - [`Desk`]: a thread's handle at the shared hash-consing table.
//! - [`Still`]: the table's words when no thread uses it.
//! - `keep` and `recall` of [`At`]: the memo of results.
//! - A probe sequence is called a way.
//! - A probe group, the 256 slots that a way visits, is called a shard.
#![tactic(auto)]

mod at;
mod desk;
mod desk_view;
mod halves;
mod held;
mod laws;
mod look;
mod overlaps;
mod pairs;
mod prefetching;
mod rules;
mod search;
mod shared;
mod still;
mod subsquares;
mod table;
mod teams;
mod word_steps;

pub use at::At;
pub use desk::Desk;
pub use held::Held;
pub use laws::every_kept_book_knows_all;
pub use shared::SharedStill;
pub use still::Still;
pub use table::NodeTable;
