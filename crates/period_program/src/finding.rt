//! A run, and the period of its last generation.

ghost use Rattle.std.specs.Prelude.{◌≡◌};
ghost use Rattle.plane.specs.SinkChange.{change_of};
ghost use Rattle.plane.specs.SourceChange.{IsDoneWithAll, reading_of};
ghost use Rattle.engine.specs.RunOptions.{IsPairCount, IsWorkerCount};
ghost use Rattle.period_search.specs.Candidates.{AreSome};
ghost use Rattle.period_program.specs.Finding.{IsFinding};

use crate::asking::Search;
use crate::last_session::last_session;
use crate::period_line::write_period_line;
use engine::{OpenGate, Team, load};
use period_search::least_period;
use plane::{Fault, Sink, Source};
use std::alloc::Global;
use std::thread::Threads;

/// Runs the pattern in a file's bytes, and writes one line to `report` with the least period of its
/// last generation, as `period 4, moves 1, 1`, if it is one of the numbers that are tried; else a
/// line that none of them is a period.
///
/// It refuses, in this order and before the line, a text that is not a pattern file, by its first
/// fault; the file's rule (`BadRule`, `BirthOnZero`), unless another one is given; a run that would
/// leave the range (`TooFar`); and what a number that is tried is refused for, where none before it
/// is a period: `TooFar`, if the generations up to it leave the range, and `NodesFull`. `NoMemory`
/// and `NodesFull` come as in a run of lifebatch. `WriteFailed` comes if the sink failed, which took
/// a beginning of the line.
pub fn find<R: Threads + Sync, W: Sink>(
    rt: &R,
    alloc: Global,
    bytes: &[u8],
    search: &Search,
    report: &mut W,
) -> Result<(), Fault>
    requires pairs { IsPairCount search.now.run.pairs }
    requires workers { IsWorkerCount search.now.run.workers }
    requires candidates { AreSome search.now.candidates }
    ensures { IsFinding bytes.now search.now
        (change_of W.taken W.failure_count report.old report.new) result }
{
    let team = Team {
        runtime: rt,
        alloc,
        workers: search.run.workers,
        gate: &OpenGate,
    };
    let mut session = last_session(&team, bytes, &search.run)?;
    let found = least_period(&team, &mut session, search.candidates)?;
    write_period_line(report, search.candidates, found)?;
    Ok(())
}

/// Reads all bytes of a source, and does with the pattern in them as [`find`] does. It refuses
/// `ReadFailed` where the source failed, and `NoMemory`; before all bytes are read, nothing is
/// written.
pub fn find_from<R: Threads + Sync, S: Source, W: Sink>(
    rt: &R,
    alloc: Global,
    source: &mut S,
    search: &Search,
    report: &mut W,
) -> Result<(), Fault>
    requires pairs { IsPairCount search.now.run.pairs }
    requires workers { IsWorkerCount search.now.run.workers }
    requires candidates { AreSome search.now.candidates }
    ensures { IsDoneWithAll
        (reading_of S.remaining S.given S.has_ended S.failure_count source.old source.new)
        (λ bytes. IsFinding bytes search.now
        (change_of W.taken W.failure_count report.old report.new) result)
        result (report.new ≡ report.old) }
{
    let bytes = load(alloc, source)?;
    find(rt, alloc, bytes.as_slice(), search, report)
}
