//! A worker's work on the jobs of a round: its own, then those that it steals, and then the futures
//! that the others still want.
ghost use Rattle.std.specs.Prelude.{◌≡◌, All, length};
ghost use Rattle.node_table.specs.DesksAtWork.{book_here};
ghost use Rattle.worker_split.specs.Jobs.{IsJob};
ghost use Rattle.worker_split.specs.Rounds.{CanSolve};
ghost use Rattle.worker_split.specs.Work.{Continues};

use crate::jobs::{Shared, future_of};
use crate::members::Solver;
use crate::team::Gate;
use job_queues::{JobQueue, JobStealer};
use node_table::At;
use squares::Sq;

/// Solves the jobs that the worker finds in its own queue.
pub(crate) fn own_share<G: Gate>(
    shared: &Shared<'_, G>,
    at: &mut At<'_>,
    own: &mut JobQueue,
    solver: &mut Solver,
)
    requires own { own.old.count ≡ length shared.now.jobs.now }
    requires solver { CanSolve shared.now.jobs.now at.old solver.old }
    ensures own { own.new.count ≡ length shared.now.jobs.now }
    ensures solver { CanSolve shared.now.jobs.now at.new solver.new }
    ensures continues { Continues 1 at.old at.new solver.old.tally solver.new.tally }
{
    while let Some(job) = own.take() {
        solver.solve(shared, at, job);
    }
}

// Solves the jobs that it finds in another's queue.
fn other_share<G: Gate>(
    shared: &Shared<'_, G>,
    at: &mut At<'_>,
    other: &mut JobStealer,
    solver: &mut Solver,
)
    requires other { other.old.count ≡ length shared.now.jobs.now }
    requires solver { CanSolve shared.now.jobs.now at.old solver.old }
    ensures other { other.new.count ≡ length shared.now.jobs.now }
    ensures solver { CanSolve shared.now.jobs.now at.new solver.new }
    ensures continues { Continues 1 at.old at.new solver.old.tally solver.new.tally }
{
    while let Some(job) = other.steal() {
        solver.solve(shared, at, job);
    }
}

/// Solves the jobs that it finds in the others' queues, one after the other.
pub(crate) fn other_shares<G: Gate>(
    shared: &Shared<'_, G>,
    at: &mut At<'_>,
    others: &mut [JobStealer],
    solver: &mut Solver,
)
    requires others { All (λ other. other.count ≡ length shared.now.jobs.now) others.old }
    requires solver { CanSolve shared.now.jobs.now at.old solver.old }
    ensures others { All (λ other. other.count ≡ length shared.now.jobs.now) others.new }
    ensures solver { CanSolve shared.now.jobs.now at.new solver.new }
    ensures continues { Continues 1 at.old at.new solver.old.tally solver.new.tally }
{
    for k in 0..others.len() {
        other_share(shared, at, &mut others[k], solver);
    }
}

/// Goes over all jobs once, from a start of its own, and asks for their futures, so that the table
/// knows them, or parts of them, when those ask who have the jobs in hand. It ends at a refusal.
pub(crate) fn help(at: &mut At<'_>, jobs: &[Sq], start: usize, solver: &mut Solver)
    requires { All (IsJob (book_here at.old)) jobs.now }
    ensures answers { solver.new.answers ≡ solver.old.answers }
    ensures continues { Continues 1 at.old at.new solver.old.tally solver.new.tally }
{
    for k in 0..jobs.len() {
        let job = (start % jobs.len() + k) % jobs.len();
        if future_of(at, jobs[job], solver.order, &mut solver.tally).is_err() {
            break;
        }
    }
}
