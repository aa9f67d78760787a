//! One job: the future of a square, by one desk.
ghost use Rattle.std.specs.Prelude.{◌<◌, All, IfOk, IfErr, length};
ghost use Rattle.node_table.specs.DesksAtWork.{book_here};
ghost use Rattle.worker_split.specs.Jobs.{HasFuture, IsJob, RefusesFull};
ghost use Rattle.worker_split.specs.Rounds.{CanSolve, IsSettled};
ghost use Rattle.worker_split.specs.Work.{Continues};

use crate::members::{Answer, Solver};
use crate::team::Gate;
use hashlife_step::{EvaluationOrder, Tally, future_in_order};
use node_table::At;
use plane::Refusal;
use squares::Sq;

/// What all workers of a round share.
#[derive(Drop)]
pub(crate) struct Shared<'a, G> {
    pub(crate) jobs: &'a [Sq],
    pub(crate) gate: &'a G,
}

/// The future of a square, by a desk that asks for those of smaller squares in this order, if there
/// is one.
pub(crate) fn future_of(
    at: &mut At<'_>,
    sq: Sq,
    order: Option<EvaluationOrder>,
    tally: &mut Tally,
) -> Result<Sq, Refusal>
    requires { IsJob (book_here at.old) sq }
    ensures ok { IfOk result (HasFuture (book_here at.new) sq) }
    ensures refusal { IfErr result (RefusesFull (book_here at.new)) }
    ensures continues { Continues 1 at.old at.new tally.old tally.new }
{
    future_in_order(at, sq, order, tally)
}

/// The future of one job, or its refusal, between the calls of its gate.
pub(crate) fn settle<G: Gate>(
    shared: &Shared<'_, G>,
    at: &mut At<'_>,
    job: usize,
    order: Option<EvaluationOrder>,
    tally: &mut Tally,
) -> Result<Sq, Refusal>
    requires job { job < length shared.now.jobs.now }
    requires jobs { All (IsJob (book_here at.old)) shared.now.jobs.now }
    ensures settled { IsSettled shared.now.jobs.now (book_here at.new) job result }
    ensures continues { Continues 1 at.old at.new tally.old tally.new }
{
    shared.gate.before(job);
    let future = future_of(at, shared.jobs[job], order, tally);
    shared.gate.after(job);
    future
}

impl Solver {
    /// Settles one job, and notes the answer. One that finds no room is left out.
    pub(crate) fn solve<G: Gate>(&mut self, shared: &Shared<'_, G>, at: &mut At<'_>, job: usize)
        requires job { job < length shared.now.jobs.now }
        requires solver { CanSolve shared.now.jobs.now at.old self.old }
        ensures solver { CanSolve shared.now.jobs.now at.new self.new }
        ensures continues { Continues 1 at.old at.new self.old.tally self.new.tally }
    {
        let future = settle(shared, at, job, self.order, &mut self.tally);
        let _ = self.answers.push(Answer { place: job, future });
    }
}
