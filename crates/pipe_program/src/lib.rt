//! The program lifepipe as a library: the words of its command line, the dialogue in which it
//! answers requests, and its exit status.
#![tactic(auto)]

mod answering;
mod application;
mod command_line;
mod conversing;
mod laws;
mod looking;
mod replies;
mod run_bytes;

pub use application::Lifepipe;
pub use command_line::NAME;
pub use conversing::converse;
pub use laws::beginnings_are_answered;
