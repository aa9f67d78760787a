//! The census: its runs and its lines.

ghost use Rattle.std.specs.Prelude.{◌≡◌, ◌<◌, ◌≤◌, ◌^◌};
ghost use Rattle.plane.specs.SinkChange.{change_of};
ghost use Rattle.example_census.specs.Census.{IsCensusRun};

use engine::{OpenGate, Session, Team, write_summary};
use plane::{Fault, Sink, reach};
use std::alloc::Global;
use std::thread::Threads;
use table_core::DEFAULT_PAIR_COUNT;

/// Writes `lines` lines, one each after 1, 2, 4, 8, .. generations: the generation, the population
/// and the bounding box. One session is advanced from line to line, with two workers. It refuses
/// what a run to each line's generation refuses, behind the lines until then, and `WriteFailed`.
pub(crate) fn census<R: Threads + Sync, W: Sink>(
    rt: &R,
    alloc: Global,
    bytes: &[u8],
    lines: u8,
    out: &mut W,
) -> Result<(), Fault>
    requires { lines ≤ 64 }
    ensures { IsCensusRun bytes.now lines
        (change_of W.taken W.failure_count out.old out.new) result }
{
    if lines == 0 {
        return Ok(());
    }
    let team = team_of_two(rt, alloc);
    let mut session = Session::open(alloc, bytes, None, DEFAULT_PAIR_COUNT)?;
    let first = session.generation();
    let bounds = session.bounds(alloc)?;
    let mut done = 0;
    for power in 0..lines {
        let generations = power_of_two(power);
        reach(bounds, first, generations)?;
        session.advance(&team, generations - done)?;
        done = generations;
        write_summary(out, &session.summary(alloc)?)?;
    }
    Ok(())
}

fn power_of_two(power: u8) -> u64
    requires { power < 64 }
    ensures { result ≡ 2 ^ power }
{
    1 << power
}

fn team_of_two<R>(rt: &R, alloc: Global) -> Team<'_, R, OpenGate> {
    Team {
        runtime: rt,
        alloc,
        workers: 2,
        gate: &OpenGate,
    }
}
