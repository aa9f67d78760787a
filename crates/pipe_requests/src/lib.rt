//! The requests of lifepipe: what a line asks for, and why another line is bad.
#![tactic(auto)]

mod bad;
mod laws;
mod name;
mod numbers;
mod parameters;
mod reading;
mod request;

pub use bad::Bad;
pub use laws::one_meaning;
pub use reading::read_request;
pub use request::{
    LARGEST_MOST, LARGEST_MULTIPLE, LARGEST_SIZE, Request, SMALLEST_SIZE, TextFormat,
};
