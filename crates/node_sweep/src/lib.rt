//! Squares copied into fresh words: a copying garbage collection. It keeps what one square reaches,
//! or what a plan says beside that: small squares and finished large ones, or all that there is.
#![tactic(auto)]

mod blank;
mod blocks;
mod copying;
mod filling;
mod keep;
mod leaves;
mod marking;
mod open_words;
mod order;
mod placing;
mod plan;
mod ranks;
mod results;
mod shared_bytes;
mod stills;
mod survey;
mod transfer;

pub use blank::BlankWords;
pub use keep::{Keep, Shares};
pub use plan::{CopyPlan, Workers};
pub use stills::{copy, sweep};
pub use survey::Finished;
