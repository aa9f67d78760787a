//! A run, and the picture of its last generation.

ghost use Rattle.std.specs.Prelude.{◌≡◌, IfSome};
ghost use Rattle.plane.specs.SourceChange.{IsDoneWithAll, reading_of};
ghost use Rattle.pattern_picture.specs.Scale.{IsShown, IsSize};
ghost use Rattle.engine.specs.RunOptions.{IsPairCount, IsWorkerCount};
ghost use Rattle.plane.specs.SinkChange.{change_of};
ghost use Rattle.view_program.specs.View.{IsView};

use crate::asking::View;
use crate::picture_format::picture_file;
use crate::picture_line::write_picture_line;
use crate::rectangle::drawing_of;
use crate::shown::rectangle_shown;
use engine::{last_pattern, load, write_summary};
use plane::{Fault, Sink, Source, write_all};
use png_writer::Image;
use std::alloc::Global;
use std::thread::Threads;

/// Runs the pattern in a file's bytes, and draws its last generation in the view's format. It writes
/// two lines to `report`: the generation, the population and the bounding box; and the name of the
/// picture, its size and what a pixel is. Then it writes the picture to `file`, whose bytes are all
/// in memory by then.
///
/// It refuses, in this order, a text that is not a pattern file, by its first fault; the file's
/// rule (`BadRule`, `BirthOnZero`), unless another one is given; and a run that would leave the
/// range (`TooFar`). `NoMemory` and `NodesFull` come as in a run of lifebatch, before anything is
/// written. `WriteFailed` comes if a sink failed, and whenever one did; that sink took a beginning
/// of its text. Nothing is written to `file` where the report failed.
pub fn draw<R: Threads + Sync, W: Sink, V: Sink>(
    rt: &R,
    alloc: Global,
    bytes: &[u8],
    view: &View,
    name: &str,
    report: &mut W,
    file: &mut V,
) -> Result<(), Fault>
    requires pairs { IsPairCount view.now.run.pairs }
    requires workers { IsWorkerCount view.now.run.workers }
    requires window { IfSome view.now.window IsShown }
    requires size { IsSize view.now.size }
    ensures { IsView bytes.now view.now name.now
        (change_of W.taken W.failure_count report.old report.new)
        (change_of V.taken V.failure_count file.old file.new) result }
{
    let (last, summary) = last_pattern(rt, alloc, bytes, &view.run)?;
    let shown = rectangle_shown(view.window, summary.bounds);
    let drawing = drawing_of(alloc, &last, shown, view.size)?;
    let image = Image::zoomed(
        alloc,
        drawing.shades.as_slice(),
        drawing.blocks.width,
        drawing.blocks.height,
        drawing.scale.zoom,
    )?;
    let text = picture_file(alloc, view.format, &image)?;
    write_summary(report, &summary)?;
    write_picture_line(report, name, shown, drawing.scale)?;
    write_all(file, text.as_slice())?;
    Ok(())
}

/// Reads all bytes of a source, and draws the pattern in them as [`draw`] does. It refuses
/// `ReadFailed` where the source failed, and `NoMemory`; before all bytes are read, nothing is
/// written.
pub fn draw_from<R: Threads + Sync, S: Source, W: Sink, V: Sink>(
    rt: &R,
    alloc: Global,
    source: &mut S,
    view: &View,
    name: &str,
    report: &mut W,
    file: &mut V,
) -> Result<(), Fault>
    requires pairs { IsPairCount view.now.run.pairs }
    requires workers { IsWorkerCount view.now.run.workers }
    requires window { IfSome view.now.window IsShown }
    requires size { IsSize view.now.size }
    ensures { IsDoneWithAll
        (reading_of S.remaining S.given S.has_ended S.failure_count source.old source.new)
        (λ bytes. IsView bytes view.now name.now
        (change_of W.taken W.failure_count report.old report.new)
        (change_of V.taken V.failure_count file.old file.new) result)
        result ((report.new ≡ report.old) × (file.new ≡ file.old)) }
{
    let bytes = load(alloc, source)?;
    draw(rt, alloc, bytes.as_slice(), view, name, report, file)
}
