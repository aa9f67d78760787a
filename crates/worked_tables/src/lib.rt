//! What no clause says of desks at one table: worked examples of the calls, computed apart from
//! this program, threads at work, and memory that fails. Of rounds of jobs: that each job is done
//! once, that workers run at once, take jobs from one another and meet a full table, and that the
//! answers are the same for every number of workers. The crate holds only tests.
#![tactic(auto)]

#[cfg(test)]
mod tests;
