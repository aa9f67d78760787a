//! What an open pattern shows: windows, pictures and pattern files; and which other one it may be.

ghost use Rattle.std.specs.Prelude.{◌≡◌, ◌⊎◌, ◌↔◌, Ok, Some, true, IfErr, IfOk, IsOkUnless, IsTrue, OnOk};
ghost use Rattle.plane.specs.Fault.{placeless};
ghost use Rattle.plane.specs.Window.{IsWindow};
ghost use Rattle.engine.specs.Formats.{Exceeds, HasText};
ghost use Rattle.engine.specs.Judgement.{Start, Judges};
ghost use Rattle.pattern_picture.specs.Scale.{IsShown, IsShownSide, IsSize};
ghost use Rattle.engine.specs.Refused.{IsRefused};
ghost use Rattle.engine.specs.Report.{window_text};
ghost use Rattle.engine.specs.Sessions.{IsSameSession, cells_of, comments_of, is_open, opening};
ghost use Rattle.engine.specs.RunOptions.{IsPairCount};
ghost use Rattle.pipe_program.specs.Answers.{IsDisplacement, IsPictureFile, file_format};

use engine::{Format, Session, Team};
use period_search::displacement_from;
use pipe_requests::TextFormat;
use plane::{Bounds, Fault, Refusal, Window};
use png_writer::Image;
use program_parts::GrowingText;
use std::alloc::Global;
use std::thread::Threads;
use view_program::{ImageFormat, drawing_of, picture_file};

// Sides of a rectangle that is shown lie from -SIDE_LIMIT to SIDE_LIMIT.
const SIDE_LIMIT: i64 = 1 << 62;

/// The window with these numbers. `WindowTooLarge` if there is none.
pub(crate) fn window_of(x: i64, y: i64, width: u64, height: u64) -> Result<Window, Refusal>
    ensures ok { IfOk result (λ window.
        IsWindow window × (window ≡ record { x = x; y = y; width = width; height = height })) }
    ensures err { IfErr result (λ refusal. (refusal ≡ Refusal.WindowTooLarge)
        × ¬ IsWindow (record { x = x; y = y; width = width; height = height })) }
{
    match (u32::try_from(width), u32::try_from(height)) {
        (Ok(width), Ok(height)) => Window::new(x, y, width, height),
        _ => Err(Refusal::WindowTooLarge),
    }
}

/// The text of a window of its cells. `NoMemory` where there is no room for it.
pub(crate) fn window_text(
    alloc: Global,
    session: &mut Session,
    window: Window,
) -> Result<Vec<u8>, Refusal>
    ensures ok { IfOk result
        (λ text. text.items ≡ window_text (Some window) (cells_of session.old)) }
    ensures same { IsSameSession session.old session.new }
    ensures opened { OnOk result (is_open session.old ≡ true) }
    ensures memory { IsOkUnless result Refusal.NoMemory }
{
    let mut text = GrowingText::new(alloc);
    match session.write_window(Some(window), &mut text) {
        Ok(()) => Ok(text.into_bytes()),
        Err(_) => Err(Refusal::NoMemory),
    }
}

/// Its pattern file. `BoxTooLarge` where the format can't hold its cells, and `NoMemory` where
/// there is no room for it.
pub(crate) fn pattern_text<R: Threads + Sync>(
    rt: &R,
    alloc: Global,
    session: &mut Session,
    format: TextFormat,
) -> Result<Vec<u8>, Refusal>
    ensures ok { IfOk result (λ text. HasText (file_format format) (cells_of session.old)
        (comments_of session.old) session.old.rule session.old.generation
        (λ written. text.items ≡ written)) }
    ensures same { IsSameSession session.old session.new }
    ensures opened { OnOk result (is_open session.old ≡ true) }
    ensures refused { IfErr result (λ refusal. (refusal ≡ Refusal.NoMemory)
        ⊎ ((refusal ≡ Refusal.BoxTooLarge) × (is_open session.old ≡ true)
        × Exceeds (file_format format) (cells_of session.old))) }
{
    let mut text = GrowingText::new(alloc);
    let format = match format {
        TextFormat::Rle => Format::Rle,
        TextFormat::Macrocell => Format::Macrocell,
    };
    match session.write(rt, alloc, Some(format), &mut text) {
        Ok(()) => Ok(text.into_bytes()),
        Err(Refusal::BoxTooLarge) => Err(Refusal::BoxTooLarge),
        Err(_) => Err(Refusal::NoMemory),
    }
}

/// The picture of a rectangle, as large as can be with at most `size` pixels on each side, as a PNG
/// file. `WindowTooLarge` where there is no such rectangle, or it is too far away, and `NoMemory`.
pub(crate) fn picture_text(
    alloc: Global,
    session: &mut Session,
    shown: Bounds,
    size: u32,
) -> Result<Vec<u8>, Refusal>
    requires { IsSize size }
    ensures ok { IfOk result (λ text. IsShown shown
        × IsPictureFile (cells_of session.old) shown size text.items) }
    ensures same { IsSameSession session.old session.new }
    ensures opened { OnOk result (is_open session.old ≡ true) }
    ensures refused { IfErr result (λ refusal. (refusal ≡ Refusal.NoMemory)
        ⊎ ((refusal ≡ Refusal.WindowTooLarge) × ¬ IsShown shown)) }
{
    if !can_be_shown(shown) {
        return Err(Refusal::WindowTooLarge);
    }
    session.rest();
    let pattern = session.pattern().ok_or(Refusal::NoMemory)?;
    let drawing = drawing_of(alloc, pattern, shown, size)?;
    let image = Image::zoomed(
        alloc,
        drawing.shades.as_slice(),
        drawing.blocks.width,
        drawing.blocks.height,
        drawing.scale.zoom,
    )?;
    picture_file(alloc, ImageFormat::Png, &image)
}

fn can_be_shown(shown: Bounds) -> bool
    ensures { IsTrue result ↔ IsShown shown }
{
    are_sides(shown.left, shown.right) && are_sides(shown.top, shown.bottom)
}

fn are_sides(first: i64, last: i64) -> bool
    ensures { IsTrue result ↔ IsShownSide first last }
{
    -SIDE_LIMIT <= first && first <= last && last <= SIDE_LIMIT
}

/// How far its cells are those of a pattern file, moved. It refuses a text that is not a pattern
/// file, by its first fault, and `NodesFull` and `NoMemory`.
pub(crate) fn displacement_of<R: Threads + Sync, G: engine::Gate>(
    team: &Team<'_, R, G>,
    session: &mut Session,
    file: &[u8],
    pairs: u32,
) -> Result<Option<(i64, i64)>, Fault>
    requires { IsPairCount pairs }
    ensures ok { IfOk result (λ by. (start : Start)
        × Judges file.now (opening (Some session.old.rule) pairs) (Ok start)
        × IsDisplacement (cells_of session.old) start.meaning.live by) }
    ensures same { IsSameSession session.old session.new }
    ensures opened { OnOk result (is_open session.old ≡ true) }
    ensures refused { IfErr result (λ fault. (fault ≡ placeless Refusal.NoMemory)
        ⊎ IsRefused file.now (opening (Some session.old.rule) pairs) fault) }
{
    let other = Session::open(team.alloc, file, Some(session.rule()), pairs)?;
    let first = other.into_pattern(team.alloc)?;
    Ok(displacement_from(team.alloc, &first, session)?)
}
