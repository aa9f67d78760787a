//! The workers of a round, what they work with, and what they call before and after each job.
ghost use Rattle.std.specs.Prelude.{◌≡◌, ◌≤◌, min};
ghost use Rattle.run_options.specs.declared.options.TheConstants.{MOST_WORKERS};

use std::alloc::Global;

/// What is called before and after each job, with the job's place in the list of its round.
pub trait Gate: Sync {
    fn before(&self, job: usize);

    fn after(&self, job: usize);
}

/// The gate that does nothing.
#[derive(Clone, Copy)]
pub struct OpenGate;

impl Gate for OpenGate {
    fn before(&self, _job: usize) {}

    fn after(&self, _job: usize) {}
}

/// The workers of a round: how many, and what they work with. Each is a thread of its own as far as
/// the system gives threads.
#[derive(Drop)]
pub struct Team<'a, R, G> {
    /// Starts the threads and waits for them.
    pub runtime: &'a R,
    /// Gives the memory that is taken before the first job.
    pub alloc: Global,
    /// From 1 to 64.
    pub workers: usize,
    /// Is called before and after each job.
    pub gate: &'a G,
    ghost some: { 1 ≤ workers },
    ghost few: { workers ≤ MOST_WORKERS },
}

impl<'a, R, G> Team<'a, R, G> {
    /// The team with at most so many of its workers, and at least one.
    pub fn at_most(&self, workers: usize) -> Team<'a, R, G>
        requires { 1 ≤ workers }
        ensures { result.workers ≡ min self.now.workers workers }
    {
        Team {
            runtime: self.runtime,
            alloc: self.alloc,
            workers: self.workers.min(workers),
            gate: self.gate,
        }
    }
}
