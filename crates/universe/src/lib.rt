//! Live cells as a square at an open table, and their steps.
#![tactic(auto)]

mod advances;
mod attempts;
mod building;
mod digits;
mod exponents;
mod other_tables;
mod planned;
mod ranges;
mod refusals;
mod resting;
mod rooted_still;
mod steps;
mod tables;
mod universe;

pub use advances::Advance;
pub use resting::Resting;
pub use rooted_still::RootedStill;
pub use table_growth::BYTES_A_PAIR_SLOT;
pub use universe::Universe;
