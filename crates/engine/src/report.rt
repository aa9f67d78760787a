//! The lines of the report.

ghost use Rattle.std.specs.Prelude.{◌≡◌, ◌⊎◌, ℕ, List, IfOk, IfSome, OnErr, OnOk, IfErr};
ghost use Rattle.std.specs.Io.KnownBytes.{Appends};
ghost use Rattle.plane.specs.Device.{AppendsBeginning, IsWriteRefusal, TellsFailure};
ghost use Rattle.viewport.specs.Population.{HasPopulation};
ghost use Rattle.engine.specs.Report.{IsSaid, report_line};
ghost use Rattle.engine.specs.Sessions.{IsSameSession, cells_of};

use crate::session::Session;
use plane::{Refusal, Sink, TextLine};
use std::alloc::Global;

// Room for two numbers of up to 40 digits and what stands round them.
const LINE_ROOM: usize = 96;

/// Says how many cells of a session's generation are live, unless the report is left out, and answers that
/// number. `NoMemory` if there is no room to count them.
pub(crate) fn report_generation<W: Sink>(
    alloc: Global,
    report: &mut W,
    quiet: bool,
    session: &mut Session,
) -> Result<Option<u128>, Refusal>
    ensures same { IsSameSession session.old session.new }
    ensures counted { IfOk result (λ population.
        IfSome population (HasPopulation (cells_of session.new))) }
    ensures written { OnOk result
        ((said : List ℕ) × IsSaid quiet session.old.generation (cells_of session.old) said
        × Appends (W.taken report.old) (W.taken report.new) said) }
    ensures unfailed { OnOk result (W.failure_count report.new ≡ W.failure_count report.old) }
    ensures refused { IfErr result (λ refusal.
        ((refusal ≡ Refusal.NoMemory) × (report.new ≡ report.old))
        ⊎ (IsWriteRefusal (W.failure_count report.old) (W.failure_count report.new) refusal
        × ((said : List ℕ) × IsSaid quiet session.old.generation (cells_of session.old) said
        × AppendsBeginning (W.taken report.old) (W.taken report.new) said))) }
{
    if quiet {
        return Ok(None);
    }
    let population = session.population(alloc)?;
    write_report_line(report, session.generation(), population)?;
    Ok(Some(population))
}

// Writes the line of one generation: its number and how many cells are live.
fn write_report_line<W: Sink>(
    report: &mut W,
    generation: u64,
    population: u128,
) -> Result<(), Refusal>
    ensures written { OnOk result (Appends (W.taken report.old) (W.taken report.new)
        (report_line generation population)) }
    ensures beginning { OnErr result (AppendsBeginning (W.taken report.old) (W.taken report.new)
        (report_line generation population)) }
    ensures failure { TellsFailure
        (W.failure_count report.old) (W.failure_count report.new) result }
{
    let mut line = TextLine::<LINE_ROOM>::new();
    line.push_number(generation);
    line.push(": ");
    line.push_number(population);
    line.push("\n");
    line.write_to(report)
}
