//! A round: all jobs, by a team.
ghost use Rattle.std.specs.Prelude.{◌≡◌, ◌<◌, ◌≤◌, ◌⊎◌, All, IfOk, IfErr, IsTrue, length};
ghost use Rattle.run_options.specs.declared.options.TheConstants.{MOST_WORKERS};
ghost use Rattle.plane.specs.declared.refusal.Refusal.TheVariants.{NoMemory, NodesFull};
ghost use Rattle.squares.specs.Book.{Book};
ghost use Rattle.node_table.specs.Desks.{IsDeskOf, book_at};
ghost use Rattle.node_table.specs.DesksAtWork.{book_here};
ghost use Rattle.worker_split.specs.Jobs.{ComesBack, HaveFutures, IsJob, RefusesFull};
ghost use Rattle.worker_split.specs.Rounds.{FindsMore, HasQueues, HasRoom, HasRun, IsMember, IsReady};
ghost use Rattle.worker_split.specs.Work.{Continues};

use crate::filling::fill;
use crate::gathering::{gather, hand_out};
use crate::jobs::Shared;
use crate::members::{Member, Room, room_for};
use crate::serving::{help, other_shares, own_share};
use crate::team::{Gate, Team};
use crate::working::{come_back, set_out};
use hashlife_step::Tally;
use node_table::{At, Desk, NodeTable};
use plane::Refusal;
use squares::Sq;
use std::alloc::Global;
use std::thread;
use std::thread::Threads;

// Runs a worker until its own queue and then each other one was found empty, and then lets it help.
fn run<G: Gate>(shared: &Shared<'_, G>, member: &mut Member<'_>)
    requires { IsReady shared.now.jobs.now member.old }
    ensures queues { HasQueues (length shared.now.jobs.now) member.new }
    ensures found { FindsMore shared.now.jobs.now member.old member.new }
{
    let Some(mut at) = member.at.take() else {
        return;
    };
    let solver = &mut member.solver;
    own_share(shared, &mut at, &mut member.own, solver);
    other_shares(shared, &mut at, member.others.as_mut_slice(), solver);
    help(&mut at, shared.jobs, member.start, solver);
    member.at = Some(at);
}

// Runs all workers.
fn run_all<R: Threads + Sync, G: Gate>(
    runtime: &R,
    shared: &Shared<'_, G>,
    members: &mut [Member<'_>],
)
    requires some { 0 < length members.old }
    requires ready { All (IsReady shared.now.jobs.now) members.old }
    ensures members { (base : Book) → All (IsMember base shared.now.jobs.now) members.old
        → All (IsMember base shared.now.jobs.now) members.new }
    ensures len { length members.new ≡ length members.old }
{
    let workers = members.len();
    thread::for_each_mut(
        runtime,
        members,
        workers,
        &|_, member: &mut Member|
            requires { IsReady shared.now.jobs.now member.now }
            ensures { HasRun shared.entry.now.jobs.now member.entry.now member.exit.now }
        { run(shared, member) },
    );
}

/// The futures of all jobs, by a team, at a desk that is at work. All memory was taken.
pub(crate) fn carry_out<'t, R: Threads + Sync, G: Gate>(
    team: &Team<'_, R, G>,
    at: &mut At<'t>,
    jobs: &[Sq],
    room: Room<'t>,
    tally: &mut Tally,
) -> Result<Vec<Sq>, Refusal>
    requires jobs { All (IsJob (book_here at.old)) jobs.now }
    requires room { HasRoom (length jobs.now) team.now.workers room }
    ensures ok { IfOk result (HaveFutures (book_here at.new) jobs.now) }
    ensures refusal { IfErr result (RefusesFull (book_here at.new)) }
    ensures continues { Continues team.now.workers at.old at.new tally.old tally.new }
{
    let (mut members, mut places) = (room.members, room.places);
    let members = members.as_mut_slice();
    let places = places.as_mut_slice();
    let shared = Shared {
        jobs,
        gate: team.gate,
    };
    hand_out(at, members);
    run_all(team.runtime, &shared, members);
    gather(at, members, places, tally);
    fill(&shared, at, places, room.futures, tally)
}

/// The futures of all jobs, with so many workers, 1 to 64, and the desk that comes back with all
/// that they found out. The gate is called before and after each job, with the job's place in the
/// list. A refused job doesn't stop the others.
///
/// `NoMemory` comes before the first job. `NodesFull` comes where a job was refused.
pub fn round<R: Threads + Sync, G: Gate>(
    rt: &R,
    alloc: Global,
    table: &NodeTable,
    desk: Desk,
    jobs: &[Sq],
    workers: usize,
    gate: &G,
) -> (Desk, Result<Vec<Sq>, Refusal>)
    requires desk { IsDeskOf table.now desk }
    requires jobs { All (IsJob (book_at table.now desk)) jobs.now }
    requires workers { (1 ≤ workers) × (workers ≤ MOST_WORKERS) }
    // At each job's place stands its future, and the desk that comes back knows it as the job's
    // result.
    ensures ok { IfOk result.1 (HaveFutures (book_at table.now result.0) jobs.now) }
    // Memory ran out, and the desk comes back as it was; or the desk that comes back knows a full
    // shard.
    ensures refusal { IfErr result.1 (λ refusal. ((refusal ≡ NoMemory) × (result.0 ≡ desk))
        ⊎ ((refusal ≡ NodesFull) × IsTrue (book_at table.now result.0).is_full)) }
    // The desk that comes back knows all that it knew. Its number of expansions only rises, by at
    // most the number of new results times that of workers.
    ensures desk { ComesBack table.now workers desk result.0 }
{
    let team = Team {
        runtime: rt,
        alloc,
        workers,
        gate,
    };
    let Ok(room) = room_for(alloc, jobs.len(), workers) else {
        return (desk, Err(Refusal::NoMemory));
    };
    let (own, mut at) = set_out(table, desk);
    let mut tally = Tally { expansions: 0 };
    let futures = carry_out(&team, &mut at, jobs, room, &mut tally);
    (come_back(own, at, &tally), futures)
}
