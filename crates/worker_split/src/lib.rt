//! Rounds of jobs: the futures of many squares by a team of workers at one table, who take jobs
//! from one another and help one another; and the future of one square by such rounds.
#![tactic(auto)]

mod batches;
mod filling;
mod gathering;
mod jobs;
mod laws;
mod members;
mod rounds;
mod serving;
mod steps;
mod team;
mod working;

pub use batches::batch_future;
pub use laws::{every_expansion_has_its_slot, every_refusal_stays};
pub use rounds::round;
pub use steps::step;
pub use team::{Gate, OpenGate, Team};
