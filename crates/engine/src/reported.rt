//! A run with its report.

ghost use Rattle.std.specs.Prelude.{◌≡◌, ◌⊎◌, ◌+◌, ◌^◌, ◌<◌, ◌≤◌, ℕ, List, not, false, IfOk, IfErr, IfSome, OnOk};
ghost use Rattle.std.specs.Io.KnownBytes.{Appends};
ghost use Rattle.plane.specs.Plane.{after};
ghost use Rattle.plane.specs.Square.{IsSame, empty};
ghost use Rattle.plane.specs.declared.range.TheConstants.{GENERATION_LIMIT};
ghost use Rattle.plane.specs.Device.{AppendsBeginning, IsWriteRefusal};
ghost use Rattle.universe.specs.StaysWithinRoot.{StaysWithinRoot};
ghost use Rattle.universe.specs.Outcomes.{LacksMemoryOrRoom};
ghost use Rattle.viewport.specs.Population.{HasPopulation};
ghost use Rattle.engine.specs.Report.{AreFirstLines, AreLinesAfter, is_shown, shown};
ghost use Rattle.engine.specs.Room.{IsStuckWithin};
ghost use Rattle.engine.specs.Sessions.{IsLaterSession, cells_of, pairs_of};

use crate::options::Options;
use crate::report::report_generation;
use crate::session::Session;
use plane::{Refusal, Sink};
use std::thread::Threads;
use worker_split::{Gate, Team};

/// Runs a session, by a team, as many generations on as the options ask for, and reports generations
/// on the way. It answers how many cells are live in the last one if that is reported. `NoMemory`
/// and `NodesFull` come between two lines. Where the sink failed, it took a beginning of some lines.
pub(crate) fn run_reported<R: Threads + Sync, G: Gate, W: Sink>(
    team: &Team<'_, R, G>,
    session: &mut Session,
    options: &Options,
    report: &mut W,
) -> Result<Option<u128>, Refusal>
    requires held { StaysWithinRoot session.old.rule (cells_of session.old) options.now.gens }
    requires short { (IsSame (cells_of session.old) empty → ⊥) → options.now.gens < 2 ^ 63 }
    requires last { session.old.generation + options.now.gens ≤ GENERATION_LIMIT }
    ensures later { OnOk result (IsLaterSession session.old options.now.gens session.new) }
    ensures counted { IfOk result (λ population.
        IfSome population (HasPopulation (cells_of session.new))) }
    ensures reported { OnOk result ((said : List ℕ)
        × AreLinesAfter session.old.rule (cells_of session.old) session.old.generation
        (shown options.now) said
        × Appends (W.taken report.old) (W.taken report.new) said) }
    ensures unfailed { OnOk result (W.failure_count report.new ≡ W.failure_count report.old) }
    ensures refused { IfErr result (λ refusal.
        (LacksMemoryOrRoom refusal
        × (W.failure_count report.new ≡ W.failure_count report.old)
        × ((said : List ℕ)
        × AreFirstLines session.old.rule (cells_of session.old) session.old.generation
        options.now said
        × Appends (W.taken report.old) (W.taken report.new) said))
        ⊎ (IsWriteRefusal (W.failure_count report.old) (W.failure_count report.new) refusal
        × ((said : List ℕ)
        × AreFirstLines session.old.rule (cells_of session.old) session.old.generation
        options.now said
        × AppendsBeginning (W.taken report.old) (W.taken report.new) said))) }
    ensures full { IfErr result (λ refusal. refusal ≡ Refusal.NodesFull
        → IsStuckWithin session.old.rule (cells_of session.old) (pairs_of session.old)
        options.now.gens) }
{
    let (alloc, quiet) = (team.alloc, options.quiet);
    let mut done = 0;
    'lines: loop {
        let population = report_generation(alloc, report, quiet, session)?;
        if done == options.gens {
            return Ok(population);
        }
        let next = next_shown(options, done);
        session.advance_within(team, next - done)?;
        done = next;
    }
}

// The next number of generations after which there is a line, or that of the last where there are
// none.
fn next_shown(options: &Options, done: u64) -> u64
    requires { done < options.now.gens }
    ensures later { done < result }
    ensures within { result ≤ options.now.gens }
    ensures shown { is_shown options.now result ≡ not options.now.quiet }
    ensures between { (number : ℕ) → done < number → number < result →
        is_shown options.now number ≡ false }
{
    let gens = options.gens;
    if options.quiet || options.step == 0 {
        return gens;
    }
    match (done / options.step + 1).checked_mul(options.step) {
        Some(next) if next < gens => next,
        _ => gens,
    }
}
