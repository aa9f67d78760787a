//! The workers of a round, each as a state, and all that a round takes memory for: them, the places
//! of their answers, and the list of futures.
ghost use Rattle.std.specs.Prelude.{◌≡◌, ◌<◌, ◌≤◌, All, IfOk, length};
ghost use Rattle.run_options.specs.declared.options.TheConstants.{MOST_WORKERS};
ghost use Rattle.job_queues.specs.Shares.{jobs_between, share_in};
ghost use Rattle.worker_split.specs.Rounds.{HasRoom, IsIdle, StayIdle};
ghost use Rattle.worker_split.specs.Shares.{AreShares, shares_of};

use hashlife_step::{EvaluationOrder, Tally};
use job_queues::{JobQueue, JobStealer};
use node_table::At;
use plane::Refusal;
use squares::Sq;
use std::alloc::{AllocError, Global};

/// What came of the job at a place.
#[derive(Clone, Copy)]
pub(crate) struct Answer {
    pub(crate) place: usize,
    pub(crate) future: Result<Sq, Refusal>,
}

/// What a worker solves jobs with: the order in which it asks for the futures of smaller squares,
/// the expansions that it counted, and the answers that it found.
#[derive(Drop)]
pub(crate) struct Solver {
    pub(crate) order: Option<EvaluationOrder>,
    pub(crate) tally: Tally,
    pub(crate) answers: Vec<Answer>,
}

/// A worker: its own queue and its ends of the others', what it solves jobs with, and its desk at
/// work.
#[derive(Drop)]
pub(crate) struct Member<'t> {
    pub(crate) own: JobQueue,
    pub(crate) others: Vec<JobStealer>,
    // The job at which it begins to help.
    pub(crate) start: usize,
    pub(crate) solver: Solver,
    // None before the round, and while it works.
    pub(crate) at: Option<At<'t>>,
}

/// The workers of a round, each with its share of the jobs, and room for what they find.
#[derive(Drop)]
pub(crate) struct Room<'t> {
    pub(crate) members: Vec<Member<'t>>,
    pub(crate) places: Vec<Option<Result<Sq, Refusal>>>,
    pub(crate) futures: Vec<Sq>,
}

// A worker with the jobs from `low` to before `high` of `count`.
fn idle_member<'t>(
    alloc: Global,
    low: usize,
    high: usize,
    count: usize,
    order: Option<EvaluationOrder>,
) -> Result<Member<'t>, AllocError>
    requires { (low ≤ high) × (high ≤ count) }
    ensures idle { IfOk result (IsIdle count) }
    ensures share { IfOk result (λ member. share_in member.own ≡ jobs_between low high) }
{
    let own = JobQueue::with_share(alloc, low, high, count)?;
    let answers = Vec::with_capacity(alloc, count)?;
    Ok(Member {
        own,
        others: Vec::new(alloc),
        start: high,
        solver: Solver {
            order,
            tally: Tally { expansions: 0 },
            answers,
        },
        at: None,
    })
}

// The workers, each with a contiguous share of the jobs. The lengths of the shares differ by at
// most one.
fn members<'t>(alloc: Global, count: usize, workers: usize) -> Result<Vec<Member<'t>>, AllocError>
    requires { workers ≤ MOST_WORKERS }
    ensures len { IfOk result (λ members. length members.items ≡ workers) }
    ensures idle { IfOk result (λ members. All (IsIdle count) members.items) }
    ensures shares { IfOk result (λ all. 0 < workers → AreShares count (shares_of all.items)) }
{
    let mut all = Vec::new(alloc);
    let mut low = 0;
    for k in 0..workers {
        let high = low + (count - low) / (workers - k);
        all.push(idle_member(alloc, low, high, count, EvaluationOrder::of_worker(k as u8))?)?;
        low = high;
    }
    Ok(all)
}

// Worker i can steal from worker j.
fn link(members: &mut [Member<'_>], i: usize, j: usize) -> Result<(), AllocError>
    requires { (i < length members.old) × (j < length members.old) }
    ensures { StayIdle members.old members.new }
{
    let stealer = members[j].own.stealer()?;
    members[i].others.push(stealer)?;
    Ok(())
}

// Each worker can steal from each other one, and begins with the next one.
fn link_all(members: &mut [Member<'_>]) -> Result<(), AllocError>
    ensures { StayIdle members.old members.new }
{
    let workers = members.len();
    'thieves: for i in 0..workers {
        'victims: for k in 1..workers {
            link(members, i, (i + k) % workers)?;
        }
    }
    Ok(())
}

/// All the memory that a round of `count` jobs takes.
pub(crate) fn room_for<'t>(
    alloc: Global,
    count: usize,
    workers: usize,
) -> Result<Room<'t>, AllocError>
    requires { workers ≤ MOST_WORKERS }
    ensures { IfOk result (HasRoom count workers) }
{
    let mut members = members(alloc, count, workers)?;
    link_all(members.as_mut_slice())?;
    let places = Vec::from_elem(alloc, None::<Result<Sq, Refusal>>, count)?;
    let futures = Vec::with_capacity(alloc, count)?;
    Ok(Room {
        members,
        places,
        futures,
    })
}
