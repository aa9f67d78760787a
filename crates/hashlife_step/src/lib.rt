//! HashLife over any book of squares: the future of a square from those of smaller ones, the room
//! round a square that a step needs, and the steps that a number of generations takes.
#![tactic(auto)]

mod centres;
mod leaf_squares;
mod orders;
mod padding;
mod recursion;
mod steps;
mod trimming;

pub use leaf_squares::BASE_LEVEL;
pub use orders::EvaluationOrder;
pub use padding::pad;
pub use recursion::{future, future_in_order, replace_by_futures};
pub use squares::Tally;
pub use steps::{plan, step};
pub use trimming::trim;
