//! Patterns that the worked examples of several crates run, as files and as squares.
#![tactic(auto)]

mod largest_level;
mod leaf_files;
mod small;

pub use largest_level::chain;
pub use leaf_files::{leaves_in_a_row, many_leaves};
pub use small::{BLINKER, BLINKER_LEAVES, R_PENTOMINO, R_PENTOMINO_LEAVES};
