//! The last pattern of a run, for programs that look at it.

ghost use Rattle.std.specs.Prelude.{IfErr, IfOk};
ghost use Rattle.run_options.specs.Workers.{IsWorkerCount};
ghost use Rattle.table_core.specs.Sizes.{IsPairCount};
ghost use Rattle.engine.specs.Last.{EndsWith};
ghost use Rattle.engine.specs.Pattern.{plane_of};
ghost use Rattle.engine.specs.Refused.{IsRefused};

use crate::pattern::Pattern;
use crate::running::{Summary, finish, team_of};
use crate::session::Session;
use plane::Fault;
use run_options::RunOptions;
use std::alloc::Global;
use std::thread::Threads;
use worker_split::OpenGate;

/// Runs the pattern in a file's bytes as [`run`](crate::run) does, without a report and without a
/// file, and answers its last generation beside what the run ends with.
///
/// It refuses what `run` refuses before its report, and then `NoMemory` and `NodesFull` as `run`
/// does.
pub fn last_pattern<R: Threads + Sync>(
    rt: &R,
    alloc: Global,
    bytes: &[u8],
    run: &RunOptions,
) -> Result<(Pattern, Summary), Fault>
    requires pairs { IsPairCount run.now.pairs }
    requires workers { IsWorkerCount run.now.workers }
    // It runs accepted files to their last generation, and sums that up.
    ensures ok { IfOk result (λ last.
        EndsWith bytes.now run.now (plane_of last.0) last.1) }
    // It refuses what is not accepted, by its name and at its place, and else only where memory ran
    // out or the tables are full.
    ensures refused { IfErr result (IsRefused bytes.now run.now) }
{
    let mut session = Session::open_for(alloc, bytes, run)?;
    let team = team_of(rt, alloc, run, &OpenGate);
    session.advance_within(&team, run.gens)?;
    let summary = finish(alloc, &mut session, None)?;
    Ok((session.into_pattern(alloc)?, summary))
}
