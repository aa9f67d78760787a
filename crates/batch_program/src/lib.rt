//! The program as a library: the words of its command line, what it does by them, and its exit
//! status. What a run is stands in [`engine`], whose names are handed on here.
#![tactic(auto)]

mod application;
mod asking;
mod command_line;
mod window_option;

pub use application::{Lifebatch, asked, program};
pub use asking::Asked;
pub use command_line::NAME;
pub use engine::{Format, Gate, Options, Summary, load, run, run_gated};
pub use program_parts::WordsFault;
