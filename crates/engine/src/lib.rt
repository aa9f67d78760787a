//! A run from a file's bytes to its report and its pattern file, without a command line.
#![tactic(auto)]

mod accepted;
mod advancing;
mod input;
mod kept_comments;
mod last;
mod laws;
mod options;
mod pattern;
mod report;
mod reported;
mod running;
mod session;
mod state;
mod summary_line;

pub use input::load;
pub use last::last_pattern;
pub use laws::{a_cut_run_goes_on, every_number_of_workers, one_ending, one_judgement};
pub use options::{Format, Options};
pub use pattern::{Heading, Pattern};
pub use run_options::RunOptions;
pub use running::{Summary, run, run_from, run_gated};
pub use session::Session;
pub use summary_line::write_summary;
pub use worker_split::{Gate, OpenGate, Team};
