//! Queues of jobs, one for each worker: it takes its own jobs in order, and the others steal from
//! it. A job is given by its number.
#![tactic(auto)]

mod queues;

pub use queues::{JobQueue, JobStealer};
