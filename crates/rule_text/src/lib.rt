//! Rules of two-state cellular automata that count live neighbours, and their texts. How a rule is
//! written stands in `written.rt`, `parts.rt` and `blanks.rt`, and what it means in `rule.rt` and
//! `neighbourhood.rt`.
#![tactic(auto)]

mod blanks;
mod digits;
mod fault;
mod laws;
mod neighbourhood;
mod parts;
mod rule;
mod written;

pub use blanks::{is_blank, trim_start};
pub use fault::RuleFault;
pub use laws::{canonical_text_read_back, one_reading, one_rule_a_code, one_rule_a_text};
pub use neighbourhood::{Neighbourhood, Offset};
pub use rule::Rule;
