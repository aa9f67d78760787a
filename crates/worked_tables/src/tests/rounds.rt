//! Worked examples of rounds of jobs.

mod full_table;
mod futures;
mod gates;
mod jobs;
mod jobs_of_leaves;
mod queues;
mod want_of_memory;
