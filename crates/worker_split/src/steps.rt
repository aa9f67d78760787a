//! One step of a run, by a team.
ghost use Rattle.std.specs.Prelude.{◌+◌, ◌≤◌, max, IfOk, IfErr};
ghost use Rattle.plane.specs.declared.cell.TheConstants.{HIGHEST_LEVEL};
ghost use Rattle.squares.specs.Book.{IsKnown};
ghost use Rattle.node_table.specs.Desks.{IsDeskOf, book_at};
ghost use Rattle.node_table.specs.DesksAtWork.{book_here};
ghost use Rattle.worker_split.specs.Jobs.{ComesBack, Refuses};
ghost use Rattle.hashlife_step.specs.ShowsCentred.{IsStepOf};
ghost use Rattle.worker_split.specs.Work.{Continues};

use crate::batches::team_future;
use crate::team::{Gate, Team};
use crate::working::{come_back, set_out};
use hashlife_step::{Tally, pad, trim};
use node_table::{At, Desk, NodeTable};
use plane::Refusal;
use squares::{Sq, Squares};
use std::thread::Threads;

// One step, at a desk that is at work.
fn advance<R: Threads + Sync, G: Gate>(
    team: &Team<'_, R, G>,
    at: &mut At<'_>,
    root: Sq,
    tally: &mut Tally,
) -> Result<Sq, Refusal>
    requires known { IsKnown (book_here at.old) root.level root }
    requires high { max (root.level + 2) ((book_here at.old).exponent + 3) ≤ HIGHEST_LEVEL }
    ensures ok { IfOk result (IsStepOf (book_here at.old) (book_here at.new) root) }
    ensures refusal { IfErr result (Refuses (book_here at.new)) }
    ensures continues { Continues team.now.workers at.old at.new tally.old tally.new }
{
    // One worker by itself starts no round.
    if team.workers == 1 {
        return hashlife_step::step(at, root, tally);
    }
    let exponent = at.exponent();
    let padded = pad(at, root, exponent)?;
    let next = team_future(team, at, padded, tally)?;
    trim(at, next)
}

/// One step of 2^exponent generations, by the table's exponent, by a team: the root is padded, its
/// future taken and trimmed. The answer has the cells that those of the root become, at the
/// smallest level of at least 4, round the same centre. The desk comes back with all that the team
/// found out. A team of one starts no thread and calls no gate.
pub fn step<R: Threads + Sync, G: Gate>(
    team: &Team<'_, R, G>,
    table: &NodeTable,
    desk: Desk,
    root: Sq,
) -> (Desk, Result<Sq, Refusal>)
    requires desk { IsDeskOf table.now desk }
    requires known { IsKnown (book_at table.now desk) root.level root }
    requires high { max (root.level + 2) ((book_at table.now desk).exponent + 3) ≤ HIGHEST_LEVEL }
    ensures ok { IfOk result.1
        (IsStepOf (book_at table.now desk) (book_at table.now result.0) root) }
    // Memory ran out, or the desk that comes back knows a full shard.
    ensures refusal { IfErr result.1 (Refuses (book_at table.now result.0)) }
    // The desk that comes back knows all that it knew. Its number of expansions only rises, by at
    // most the number of new results times that of workers.
    ensures desk { ComesBack table.now team.now.workers desk result.0 }
{
    let (own, mut at) = set_out(table, desk);
    let mut tally = Tally { expansions: 0 };
    let next = advance(team, &mut at, root, &mut tally);
    (come_back(own, at, &tally), next)
}
