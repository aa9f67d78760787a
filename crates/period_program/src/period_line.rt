//! The line that says what a search has found.

ghost use Rattle.std.specs.Prelude.{◌≡◌, OnErr, OnOk};
ghost use Rattle.std.specs.Io.KnownBytes.{Appends};
ghost use Rattle.plane.specs.Device.{AppendsBeginning, TellsFailure};
ghost use Rattle.period_program.specs.PeriodLine.{found_line, none_line, period_line};

use period_search::{Candidates, Period};
use plane::{Refusal, Sink, TextLine};

// Room for three numbers of up to 40 digits and the words around them.
const LINE_ROOM: usize = 160;

/// Writes one line with the period that was found among some numbers, or that none of these is one.
/// `WriteFailed` if the sink failed, which took a beginning of the line then.
pub(crate) fn write_period_line<W: Sink>(
    out: &mut W,
    candidates: Candidates,
    found: Option<Period>,
) -> Result<(), Refusal>
    ensures written { OnOk result (Appends (W.taken out.old) (W.taken out.new)
        (period_line candidates found)) }
    ensures beginning { OnErr result (AppendsBeginning (W.taken out.old) (W.taken out.new)
        (period_line candidates found)) }
    ensures failure { TellsFailure (W.failure_count out.old) (W.failure_count out.new) result }
{
    period_line(candidates, found).write_to(out)
}

// The line of what was found.
fn period_line(candidates: Candidates, found: Option<Period>) -> TextLine<LINE_ROOM>
    ensures { result ≡ period_line candidates found }
{
    match found {
        Some(period) => found_line(period),
        None => none_line(candidates),
    }
}

// The line of a period.
fn found_line(period: Period) -> TextLine<LINE_ROOM>
    ensures { result ≡ found_line period }
{
    let mut line = TextLine::new();
    line.push("period ");
    line.push_number(period.generations);
    line.push(", moves ");
    line.push_signed(period.right);
    line.push(", ");
    line.push_signed(period.down);
    line.push("\n");
    line
}

// The line where no number that was tried is a period.
fn none_line(candidates: Candidates) -> TextLine<LINE_ROOM>
    ensures { result ≡ none_line candidates }
{
    let mut line = TextLine::new();
    match candidates {
        Candidates::UpTo(most) => {
            line.push("no period up to ");
            line.push_number(most);
        }
        Candidates::DivisorsOf(whole) => {
            line.push("no period divides ");
            line.push_number(whole);
        }
    }
    line.push("\n");
    line
}
