//! The program lifeperiod as a library: the words of its command line, the line that it writes by
//! them, and its exit status.
#![tactic(auto)]

mod application;
mod asking;
mod command_line;
mod finding;
mod last_session;
mod period_line;

pub use application::Lifeperiod;
pub use asking::{Asked, DEFAULT_MOST, LARGEST_MOST, LARGEST_MULTIPLE, Search};
pub use command_line::NAME;
pub use finding::{find, find_from};
