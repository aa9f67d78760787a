//! A checked pattern file, and its cells as a square of a book.
#![tactic(auto)]

mod live_runs;
mod nodes;
mod pattern_file;

pub use pattern_file::PatternFile;
