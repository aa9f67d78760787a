//! The future of one square, by whole batches of the squares that it takes.
ghost use Rattle.std.specs.Prelude.{◌<◌, ◌≤◌, All, IfOk, IfErr};
ghost use Rattle.run_options.specs.declared.options.TheConstants.{MOST_WORKERS};
ghost use Rattle.squares.specs.Book.{IsKnown, Keeps};
ghost use Rattle.node_table.specs.Desks.{IsDeskOf, book_at};
ghost use Rattle.node_table.specs.DesksAtWork.{book_here};
ghost use Rattle.worker_split.specs.Jobs.{ComesBack, HasFuture, IsJob, Refuses};
ghost use Rattle.worker_split.specs.Work.{Continues};

use crate::jobs::future_of;
use crate::members::room_for;
use crate::rounds::carry_out;
use crate::team::{Gate, Team};
use crate::working::{come_back, set_out};
use hashlife_step::{BASE_LEVEL, Tally, replace_by_futures};
use node_table::{At, Desk, NodeTable};
use plane::Refusal;
use squares::{Sq, Squares};
use std::alloc::{AllocError, Global};
use std::collections::BTreeSet;
use std::thread::Threads;

// The lowest level of the squares that are expanded. The futures of squares of the level below are
// made of those of smaller ones.
const LOWEST: u8 = BASE_LEVEL + 2;

// Those of the squares whose result isn't found, each once.
fn unknown_of(
    alloc: Global,
    at: &mut At<'_>,
    level: u8,
    squares: &[Sq],
) -> Result<Vec<Sq>, AllocError>
    requires known { All (IsKnown (book_here at.old) level) squares.now }
    requires low { 3 < level }
    ensures ok { IfOk result (λ unknown. All (IsKnown (book_here at.new) level) unknown.items) }
    ensures keeps { Keeps (book_here at.old) (book_here at.new) }
{
    let mut seen = BTreeSet::new(alloc);
    let mut unknown = Vec::new(alloc);
    for k in 0..squares.len() {
        let sq = squares[k];
        if at.recall(sq).is_none() && seen.insert(sq)? {
            unknown.push(sq)?;
        }
    }
    Ok(unknown)
}

// Finds the results of squares of one level, by a round of those that aren't known.
fn batch<R: Threads + Sync, G: Gate>(
    team: &Team<'_, R, G>,
    at: &mut At<'_>,
    level: u8,
    squares: &[Sq],
    tally: &mut Tally,
) -> Result<(), Refusal>
    requires known { All (IsKnown (book_here at.old) level) squares.now }
    requires low { 3 < level }
    ensures refusal { IfErr result (Refuses (book_here at.new)) }
    ensures continues { Continues team.now.workers at.old at.new tally.old tally.new }
{
    let unknown = unknown_of(team.alloc, at, level, squares)?;
    if unknown.is_empty() {
        return Ok(());
    }
    let room = room_for(team.alloc, unknown.len(), team.workers)?;
    carry_out(team, at, unknown.as_slice(), room, tally)?;
    Ok(())
}

// Of nine squares in three rows, the four that the futures of neighbours make.
fn overlaps_of_futures(
    at: &mut At<'_>,
    level: u8,
    nine: [Sq; 9],
    tally: &mut Tally,
) -> Result<[Sq; 4], Refusal>
    requires known { All (IsKnown (book_here at.old) level) nine }
    requires low { 3 < level }
    ensures ok { IfOk result (All (IsKnown (book_here at.new) level)) }
    ensures refusal { IfErr result (Refuses (book_here at.new)) }
    ensures continues { Continues 1 at.old at.new tally.old tally.new }
{
    let mut futures = nine;
    replace_by_futures(at, level, &mut futures, None, tally)?;
    at.overlaps(level - 1, futures)
}

// Finds the results of the squares, one level lower, that the future of a square takes.
fn expand<R: Threads + Sync, G: Gate>(
    team: &Team<'_, R, G>,
    at: &mut At<'_>,
    sq: Sq,
    tally: &mut Tally,
) -> Result<(), Refusal>
    requires sq { IsJob (book_here at.old) sq }
    requires low { LOWEST ≤ sq.level }
    ensures refusal { IfErr result (Refuses (book_here at.new)) }
    ensures continues { Continues team.now.workers at.old at.new tally.old tally.new }
{
    let level = sq.level - 1;
    let nine = at.nine(sq)?;
    batch(team, at, level, &nine, tally)?;
    // Then the four in the middle only give their centres.
    if at.exponent() < level - 1 {
        return Ok(());
    }
    let four = overlaps_of_futures(at, level, nine, tally)?;
    batch(team, at, level, &four, tally)
}

// Finds the results that the future of a square takes, or, of a low one, its own.
fn prepare<R: Threads + Sync, G: Gate>(
    team: &Team<'_, R, G>,
    at: &mut At<'_>,
    sq: Sq,
    tally: &mut Tally,
) -> Result<(), Refusal>
    requires sq { IsJob (book_here at.old) sq }
    ensures refusal { IfErr result (Refuses (book_here at.new)) }
    ensures continues { Continues team.now.workers at.old at.new tally.old tally.new }
{
    if at.recall(sq).is_some() {
        return Ok(());
    }
    if sq.level >= LOWEST {
        return expand(team, at, sq, tally);
    }
    batch(team, at, sq.level, &[sq], tally)
}

/// The future of a square, by a team, at a desk that is at work.
pub(crate) fn team_future<R: Threads + Sync, G: Gate>(
    team: &Team<'_, R, G>,
    at: &mut At<'_>,
    sq: Sq,
    tally: &mut Tally,
) -> Result<Sq, Refusal>
    requires sq { IsJob (book_here at.old) sq }
    ensures ok { IfOk result (HasFuture (book_here at.new) sq) }
    ensures refusal { IfErr result (Refuses (book_here at.new)) }
    ensures continues { Continues team.now.workers at.old at.new tally.old tally.new }
{
    prepare(team, at, sq, tally)?;
    future_of(at, sq, None, tally)
}

/// The future of a square, with so many workers, 1 to 64, and the desk that comes back with all
/// that they found out. The gate is called before and after each job.
///
/// The top level of a square of level 8 or more is expanded, and rounds take the squares of the
/// level below whose results the desk doesn't find; of a lower square they take the square itself.
pub fn batch_future<R: Threads + Sync, G: Gate>(
    rt: &R,
    alloc: Global,
    table: &NodeTable,
    desk: Desk,
    sq: Sq,
    workers: usize,
    gate: &G,
) -> (Desk, Result<Sq, Refusal>)
    requires desk { IsDeskOf table.now desk }
    requires sq { IsJob (book_at table.now desk) sq }
    requires workers { (1 ≤ workers) × (workers ≤ MOST_WORKERS) }
    // The square is the future, and the desk that comes back knows it as the result.
    ensures ok { IfOk result.1 (HasFuture (book_at table.now result.0) sq) }
    // Memory ran out, or the desk that comes back knows a full shard.
    ensures refusal { IfErr result.1 (Refuses (book_at table.now result.0)) }
    // The desk that comes back knows all that it knew. Its number of expansions only rises, by at
    // most the number of new results times that of workers.
    ensures desk { ComesBack table.now workers desk result.0 }
{
    let team = Team {
        runtime: rt,
        alloc,
        workers,
        gate,
    };
    let (own, mut at) = set_out(table, desk);
    let mut tally = Tally { expansions: 0 };
    let made = team_future(&team, &mut at, sq, &mut tally);
    (come_back(own, at, &tally), made)
}
