//! A worker's queue of jobs, and the ends of it from which the others steal.
ghost use Rattle.std.specs.Prelude.{◌≡◌, ◌++◌, ◌∷◌, ◌<◌, ◌≤◌, All, Contains, IfOk, IfSome, MatchOption, true, []};
ghost use Rattle.crossbeam_deque.specs.Handles.{IsPassOf, view, stealer_deque, worker_flavor, worker_view};

use crossbeam_deque::protocol::{Outcome, Protocol, Split};
use crossbeam_deque::{Pass, Steal, Stealer, Worker};
use std::alloc::{AllocError, Global};
use std::collections::LinkedList;

/// What a pass knows of a deque: whether no other pass was made, all jobs that were ever pushed, in
/// order, and an end of them that contains all jobs which are left. No value of it is ever made:
/// only contracts speak of it.
pub(crate) struct Seen {
    pub(crate) alone: bool,
    pub(crate) share: LinkedList<usize>,
    pub(crate) left: LinkedList<usize>,
}

/// The rule: what a deque holds is an end of what each pass knows to be left.
pub(crate) struct InOrder;

impl Protocol<usize, Seen> for InOrder {
    ghost use Rattle.std.specs.Prelude.{true, false, []};
    ghost use Rattle.job_queues.specs.Queues.{seen, AllKnow};

    ghost holds = { AllKnow };

    ghost first = { seen true [] [] };

    ghost guest = { seen false [] [] };
}

/// A job is pushed behind the others.
pub(crate) struct Pushes;

impl Outcome<usize, Seen> for Pushes {
    ghost use Rattle.job_queues.specs.Queues.{seen};

    ghost then = { λ v jobs w. w ≡ seen true (v.share ++ jobs) (v.left ++ jobs) };
}

/// What is taken is the first that is left. An owner without thieves finds none only if all are
/// taken.
pub(crate) struct Takes;

impl Outcome<usize, Seen> for Takes {
    ghost use Rattle.job_queues.specs.Queues.{AreTaken};

    ghost then = { AreTaken };

    ghost empty = { λ v. v.alone ≡ true → v.left ≡ [] };
}

/// What is stolen is the first that is left.
pub(crate) struct Steals;

impl Outcome<usize, Seen> for Steals {
    ghost use Rattle.job_queues.specs.Queues.{AreTaken};

    ghost then = { AreTaken };
}

/// Another pass knows the same.
pub(crate) struct SplitPass;

impl Split<Seen> for SplitPass {
    ghost use Rattle.std.specs.Prelude.{false};
    ghost use Rattle.job_queues.specs.Queues.{seen};

    ghost left = { λ v. seen false v.share v.left };

    ghost right = { λ v. seen false v.share v.left };
}

/// The owner's end of a queue of jobs, whose numbers are below `count`.
#[derive(Drop)]
pub struct JobQueue {
    deque: Worker<usize, Global, Seen, InOrder>,
    pub count: usize,
    ghost first_in_first_out: { worker_flavor deque ≡ 0 },
    ghost below: { All (λ job. job < count) (worker_view deque).share },
}

/// A thief's end of such a queue.
#[derive(Drop)]
pub struct JobStealer {
    thief: Stealer<usize, Global, Seen, InOrder>,
    pass: Pass<usize, Seen>,
    pub count: usize,
    ghost fits: { IsPassOf (stealer_deque thief) pass },
    ghost below: { All (λ job. job < count) (view pass).share },
}

impl JobQueue {
    ghost use Rattle.job_queues.specs.Queues.{IsEnd};
    ghost use Rattle.job_queues.specs.Shares.{HasNoThief, jobs_between, left_in, left_of, share_in, share_of};

    /// A queue of the jobs from `low` to before `high` in order, first in, first out.
    pub fn with_share(
        alloc: Global,
        low: usize,
        high: usize,
        count: usize,
    ) -> Result<JobQueue, AllocError>
        requires { (low ≤ high) × (high ≤ count) }
        ensures count { IfOk result (λ queue. queue.count ≡ count) }
        ensures share { IfOk result (λ queue. share_in queue ≡ jobs_between low high) }
        ensures left { IfOk result (λ queue. left_in queue ≡ jobs_between low high) }
        ensures alone { IfOk result HasNoThief }
    {
        let mut deque = Worker::<usize, Global, Seen, InOrder>::fifo_as(alloc, high - low)?;
        for job in low..high {
            // There is a slot for each of them.
            let Ok(()) = deque.push_as::<Pushes>(job) else {
                unreachable!()
            };
        }
        Ok(JobQueue { deque, count })
    }

    /// The first job that is left.
    pub fn take(&mut self) -> Option<usize>
        ensures count { self.new.count ≡ self.old.count }
        ensures share { share_in self.new ≡ share_in self.old }
        ensures job { IfSome result (λ job. job < self.old.count) }
        ensures of_share { IfSome result (Contains (share_in self.old)) }
        // Those before it were stolen, and at most those behind it are left.
        ensures first { MatchOption result (left_in self.new ≡ left_in self.old)
            (λ job. IsEnd (job ∷ left_in self.new) (left_in self.old)) }
        // Without thieves the jobs come one after the other, to the last.
        ensures alone { HasNoThief self.old → HasNoThief self.new }
        ensures next { HasNoThief self.old → MatchOption result (left_in self.old ≡ [])
            (λ job. left_in self.old ≡ job ∷ left_in self.new) }
    {
        self.deque.pop_as::<Takes>()
    }

    /// Another worker's end of this queue.
    pub fn stealer(&mut self) -> Result<JobStealer, AllocError>
        ensures count { self.new.count ≡ self.old.count }
        ensures share { share_in self.new ≡ share_in self.old }
        ensures left { left_in self.new ≡ left_in self.old }
        ensures stealer_count { IfOk result (λ stealer. stealer.count ≡ self.old.count) }
        ensures stealer_share { IfOk result (λ stealer. share_of stealer ≡ share_in self.old) }
        ensures stealer_left { IfOk result (λ stealer. left_of stealer ≡ left_in self.old) }
    {
        let thief = self.deque.stealer()?;
        let pass = self.deque.another::<SplitPass>();
        let count = self.count;
        Ok(JobStealer { thief, pass, count })
    }
}

impl JobStealer {
    ghost use Rattle.job_queues.specs.Queues.{IsEnd};
    ghost use Rattle.job_queues.specs.Shares.{left_of, share_of};

    /// The first job that another's queue still holds. A steal that lost found that another took a
    /// job, so it is tried again at most as often as there are jobs.
    pub fn steal(&mut self) -> Option<usize>
        ensures count { self.new.count ≡ self.old.count }
        ensures share { share_of self.new ≡ share_of self.old }
        ensures job { IfSome result (λ job. job < self.old.count) }
        ensures of_share { IfSome result (Contains (share_of self.old)) }
        // Those before it were taken, and at most those behind it are left.
        ensures first { MatchOption result (left_of self.new ≡ left_of self.old)
            (λ job. IsEnd (job ∷ left_of self.new) (left_of self.old)) }
    {
        'tries: for _ in 0..self.count {
            match self.thief.steal_as::<Steals>(&mut self.pass) {
                Steal::Success(job) => return Some(job),
                Steal::Empty => return None,
                Steal::Retry => {}
            }
        }
        None
    }
}
