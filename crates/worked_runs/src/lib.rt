//! What no clause says of a run and of a search for periods: worked examples, computed apart from
//! this program, and devices and memory that fail. The crate holds only tests.
#![tactic(auto)]

#[cfg(test)]
mod tests;
