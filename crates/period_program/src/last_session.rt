//! The session of a run's last generation.

ghost use Rattle.std.specs.Prelude.{IfErr, IfOk};
ghost use Rattle.engine.specs.RunOptions.{IsPairCount};
ghost use Rattle.engine.specs.Refused.{IsRefused};
ghost use Rattle.period_program.specs.LastSession.{IsLastSession};

use engine::{Gate, RunOptions, Session, Team};
use plane::{Fault, reach};
use std::thread::Threads;

/// Runs the pattern in a file's bytes by a team, without a report, and answers the session of its
/// last generation. It refuses what a run of lifebatch refuses before its report, and then
/// `NoMemory` and `NodesFull` as that run does.
pub(crate) fn last_session<R: Threads + Sync, G: Gate>(
    team: &Team<'_, R, G>,
    bytes: &[u8],
    run: &RunOptions,
) -> Result<Session, Fault>
    requires { IsPairCount run.now.pairs }
    ensures ok { IfOk result (IsLastSession bytes.now run.now) }
    ensures refused { IfErr result (IsRefused bytes.now run.now) }
{
    let mut session = Session::open(team.alloc, bytes, run.rule, run.pairs)?;
    let bounds = session.bounds(team.alloc)?;
    reach(bounds, session.generation(), run.gens)?;
    session.advance(team, run.gens)?;
    Ok(session)
}
