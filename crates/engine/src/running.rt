//! A run from end to end.

ghost use Rattle.std.specs.Prelude.{◌≡◌, IfOk, IfSome, IsOkUnless};
ghost use Rattle.run_options.specs.Workers.{IsWorkerCount};
ghost use Rattle.table_core.specs.Sizes.{IsPairCount};
ghost use Rattle.plane.specs.SinkChange.{change_of};
ghost use Rattle.viewport.specs.Population.{HasPopulation};
ghost use Rattle.engine.specs.Accepted.{SumsUp};
ghost use Rattle.plane.specs.SourceChange.{IsDoneWithAll, reading_of};
ghost use Rattle.engine.specs.Run.{IsRun};
ghost use Rattle.engine.specs.Sessions.{IsSameSession, cells_of};

use crate::input::load;
use crate::options::Options;
use crate::reported::run_reported;
use crate::session::Session;
use plane::{Bounds, Fault, Refusal, Sink, Source};
use run_options::RunOptions;
use std::alloc::Global;
use std::thread::Threads;
use worker_split::{Gate, OpenGate, Team};

/// What a run ends with.
#[derive(Clone, Copy, Debug, PartialEq, Eq)]
pub struct Summary {
    /// The last generation.
    pub generation: u64,
    /// How many cells are live in it.
    pub population: u128,
    /// The smallest box that holds them, if there are any.
    pub bounds: Option<Bounds>,
}

/// Runs the pattern in a file's bytes. It writes the report to `report` (the first generation, the
/// last, and each multiple of the step between, unless it is to be quiet), then the picture of the
/// window, if one is asked for; then the last pattern to `file`, if a format is.
///
/// It refuses, in this order, a text that is not a pattern file, by its first fault; the file's
/// rule (`BadRule`, `BirthOnZero`), at the byte offset of the header, unless another rule is given;
/// and a run that would leave the range (`TooFar`). Until then nothing is written.
///
/// Three refusals leave `file` as it was: `BoxTooLarge`, if a side of the last pattern's box is
/// 2^31 or more; `NoMemory`; and `NodesFull`, if a table of the largest size that the options allow
/// was full while the file's cells were built, or, opened with only the cells of a generation, was
/// full before the next one or had no room for these cells.
///
/// `WriteFailed` comes if a sink failed, and whenever one did; that sink took a beginning of its
/// text. Nothing is written to `file` before the box is known to fit.
pub fn run<R: Threads + Sync, W: Sink, V: Sink>(
    rt: &R,
    alloc: Global,
    bytes: &[u8],
    options: &Options,
    report: &mut W,
    file: &mut V,
) -> Result<Summary, Fault>
    requires pairs { IsPairCount options.now.pairs }
    requires workers { IsWorkerCount options.now.workers }
    ensures { IsRun bytes.now options.now
        (change_of W.taken W.failure_count report.old report.new)
        (change_of V.taken V.failure_count file.old file.new) result }
{
    run_gated(rt, alloc, bytes, options, report, file, &OpenGate)
}

/// Reads all bytes of a source, and runs the pattern in them as [`run`] does. It refuses
/// `ReadFailed` where the source failed, and `NoMemory`; before all bytes are read, nothing is
/// written.
pub fn run_from<R: Threads + Sync, S: Source, W: Sink, V: Sink>(
    rt: &R,
    alloc: Global,
    source: &mut S,
    options: &Options,
    report: &mut W,
    file: &mut V,
) -> Result<Summary, Fault>
    requires pairs { IsPairCount options.now.pairs }
    requires workers { IsWorkerCount options.now.workers }
    ensures { IsDoneWithAll
        (reading_of S.remaining S.given S.has_ended S.failure_count source.old source.new)
        (λ bytes. IsRun bytes options.now
        (change_of W.taken W.failure_count report.old report.new)
        (change_of V.taken V.failure_count file.old file.new) result)
        result ((report.new ≡ report.old) × (file.new ≡ file.old)) }
{
    let bytes = load(alloc, source)?;
    run(rt, alloc, bytes.as_slice(), options, report, file)
}

/// The same as [`run`], with a gate, which is called before and after each job of several workers.
/// No clause can say that it is called. Tests show it: in a run with two workers each sees, before
/// its first job, that the other has begun.
pub fn run_gated<R: Threads + Sync, G: Gate, W: Sink, V: Sink>(
    rt: &R,
    alloc: Global,
    bytes: &[u8],
    options: &Options,
    report: &mut W,
    file: &mut V,
    gate: &G,
) -> Result<Summary, Fault>
    requires pairs { IsPairCount options.now.pairs }
    requires workers { IsWorkerCount options.now.workers }
    ensures { IsRun bytes.now options.now
        (change_of W.taken W.failure_count report.old report.new)
        (change_of V.taken V.failure_count file.old file.new) result }
{
    let run = options.run();
    let mut session = Session::open_for(alloc, bytes, &run)?;
    let team = team_of(rt, alloc, &run, gate);
    let counted = run_reported(&team, &mut session, options, report)?;
    let summary = finish(alloc, &mut session, counted)?;
    session.write_window(options.window, report)?;
    session.write(rt, alloc, options.format, file)?;
    Ok(summary)
}

/// The workers that take the steps.
pub(crate) fn team_of<'a, R, G>(
    rt: &'a R,
    alloc: Global,
    run: &RunOptions,
    gate: &'a G,
) -> Team<'a, R, G>
    requires { IsWorkerCount run.now.workers }
    ensures { result.workers ≡ run.now.workers }
{
    Team {
        runtime: rt,
        alloc,
        workers: run.workers,
        gate,
    }
}

/// What a run ends with: a session of its last generation, whose live cells may have been counted.
/// All tables beside the words that hold these cells are freed.
pub(crate) fn finish(
    alloc: Global,
    session: &mut Session,
    counted: Option<u128>,
) -> Result<Summary, Refusal>
    requires counted { IfSome counted (HasPopulation (cells_of session.old)) }
    ensures same { IsSameSession session.old session.new }
    ensures ok { IfOk result (SumsUp session.new.generation (cells_of session.new)) }
    ensures memory { IsOkUnless result Refusal.NoMemory }
{
    let population = match counted {
        Some(population) => population,
        None => session.population(alloc)?,
    };
    session.free_other_tables(alloc);
    session.summary_with(alloc, population)
}
