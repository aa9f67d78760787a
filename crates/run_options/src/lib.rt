//! What a run is asked to do apart from its report and its file, and how many workers it may have.
#![tactic(auto)]

mod options;

pub use options::{MOST_WORKERS, RunOptions};
