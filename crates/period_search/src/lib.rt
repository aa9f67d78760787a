//! The least period of an open pattern: after how many generations it is what it was, maybe moved.
#![tactic(auto)]

mod candidates;
mod displacement;
mod divisors;
mod period;
mod rows;
mod runs;
mod search;

pub use candidates::Candidates;
pub use displacement::displacement_from;
pub use period::Period;
pub use search::{least_period, one_answer};
