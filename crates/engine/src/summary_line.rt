//! The line of a generation.

ghost use Rattle.std.specs.Prelude.{◌≡◌, OnErr, OnOk};
ghost use Rattle.std.specs.Io.KnownBytes.{Appends};
ghost use Rattle.plane.specs.Device.{AppendsBeginning, TellsFailure};
ghost use Rattle.engine.specs.SummaryLine.{bounds_text, summary_line};

use crate::running::Summary;
use plane::{Bounds, Refusal, Sink, TextLine};

// Room for four numbers of up to 40 digits and the words around them, and for a whole line.
const BOUNDS_ROOM: usize = 176;

const LINE_ROOM: usize = 272;

/// Writes one line with the generation, its population and its bounding box, as `4: 5 cells, x 0 to
/// 2, y 1 to 3`. `WriteFailed` if the sink failed, which took a beginning of the line then.
pub fn write_summary<W: Sink>(out: &mut W, summary: &Summary) -> Result<(), Refusal>
    ensures written { OnOk result (Appends (W.taken out.old) (W.taken out.new)
        (summary_line summary.now)) }
    ensures beginning { OnErr result (AppendsBeginning (W.taken out.old) (W.taken out.new)
        (summary_line summary.now)) }
    ensures failure { TellsFailure (W.failure_count out.old) (W.failure_count out.new) result }
{
    let mut line = TextLine::<LINE_ROOM>::new();
    line.push_number(summary.generation);
    line.push(": ");
    line.push_number(summary.population);
    line.push(" cells");
    line.push(bounds_text(summary.bounds).as_str());
    line.push("\n");
    line.write_to(out)
}

// From where to where a bounding box goes.
fn bounds_text(bounds: Option<Bounds>) -> TextLine<BOUNDS_ROOM>
    ensures { result ≡ bounds_text bounds }
{
    let mut text = TextLine::new();
    if let Some(bounds) = bounds {
        text.push(", x ");
        text.push_signed(bounds.left);
        text.push(" to ");
        text.push_signed(bounds.right);
        text.push(", y ");
        text.push_signed(bounds.top);
        text.push(" to ");
        text.push_signed(bounds.bottom);
    }
    text
}
