//! The texts of patterns, and writing them.
#![tactic(auto)]

mod comments;
mod laws;
mod mc_text;
mod output_block;
mod rle_text;

pub use laws::{distinct_texts, macrocell_read_back, rle_read_back, same_text};
pub use mc_text::write_mc;
pub use rle_text::write_rle;
