//! The picture of a window on a square.

ghost use Rattle.std.specs.Prelude.{◌≡◌, ◌≤◌, ◌<◌, ◌+◌, ◌^◌, [], ◌∷◌, pos, ◌+ℤ◌, length, OnErr, OnOk};
ghost use Rattle.std.specs.Io.KnownBytes.{Appends};
ghost use Rattle.plane.specs.Centred.{centred};
ghost use Rattle.plane.specs.Device.{AppendsBeginning, TellsFailure};
ghost use Rattle.squares.specs.Book.{IsKnown};
ghost use Rattle.squares.specs.declared.sq.TheConstants.{HIGHEST_ROOT_LEVEL};
ghost use Rattle.viewport.specs.Picture.{mark_of, picture_text, row_text};

use crate::halves::half_with_row;
use crate::sides::offset_in;
use plane::{Refusal, Sink, WINDOW_SIDE_LIMIT, Window, write_all};
use squares::{LEAF_LEVEL, Look, Sq, half_side};

// Room for the widest row and its line end.
const LINE_ROOM: usize = WINDOW_SIDE_LIMIT as usize + 1;

/// Draws the cells of a window that looks at a square of a level up to 63: a line for each row,
/// with `*` for each live cell and `.` for each dead one. What lies outside the square is dead. It
/// takes no memory. `WriteFailed` where the sink failed in this call, which took a beginning of the
/// text then.
pub fn picture<B: Look, W: Sink>(
    book: &B,
    sq: Sq,
    window: &Window,
    sink: &mut W,
) -> Result<(), Refusal>
    requires known { IsKnown (B.book book.now) sq.level sq }
    requires level { sq.level ≤ HIGHEST_ROOT_LEVEL }
    ensures drawn { OnOk result (Appends (W.taken sink.old) (W.taken sink.new)
        (picture_text (centred sq.level ((B.book book.now).cells sq)) window.now)) }
    ensures beginning { OnErr result (AppendsBeginning (W.taken sink.old) (W.taken sink.new)
        (picture_text (centred sq.level ((B.book book.now).cells sq)) window.now)) }
    ensures failure { TellsFailure (W.failure_count sink.old) (W.failure_count sink.new) result }
{
    let mut room = [0; LINE_ROOM];
    let line = &mut room[..window.width() as usize + 1];
    for row in 0..window.height() {
        draw_row(book, sq, window, row, line);
        write_all(sink, line)?;
    }
    Ok(())
}

// Draws a row of the window, counted from its first one, and the line end behind it.
fn draw_row<B: Look>(book: &B, sq: Sq, window: &Window, row: u32, line: &mut [u8])
    requires known { IsKnown (B.book book.now) sq.level sq }
    requires level { sq.level ≤ HIGHEST_ROOT_LEVEL }
    requires row { row < window.now.height }
    requires line { length line.old ≡ window.now.width + 1 }
    ensures { line.new ≡ row_text (centred sq.level ((B.book book.now).cells sq))
        (window.now.y +ℤ pos row) window.now.x window.now.width }
{
    let y = window.y() + i64::from(row);
    for column in 0..window.width() {
        let x = window.x() + i64::from(column);
        line[column as usize] = mark(is_live(book, sq, x, y));
    }
    line[window.width() as usize] = b'\n';
}

// How a cell is drawn.
fn mark(live: bool) -> u8
    ensures { result ∷ [] ≡ mark_of live }
{
    if live { b'*' } else { b'.' }
}

// Whether the cell (x, y) is live; outside the square none is.
fn is_live<B: Look>(book: &B, sq: Sq, x: i64, y: i64) -> bool
    requires known { IsKnown (B.book book.now) sq.level sq }
    requires level { sq.level ≤ HIGHEST_ROOT_LEVEL }
    ensures { result ≡ centred sq.level ((B.book book.now).cells sq) x y }
{
    let Some(column) = offset_in(x, sq.level) else {
        return false;
    };
    let Some(row) = offset_in(y, sq.level) else {
        return false;
    };
    has_cell(book, sq, column, row)
}

// Whether the cell is live that lies so far from the left side and from the top of the square.
fn has_cell<B: Look>(book: &B, sq: Sq, x: u64, y: u64) -> bool
    requires known { IsKnown (B.book book.now) sq.level sq }
    requires level { sq.level ≤ HIGHEST_ROOT_LEVEL }
    requires column { x < 2 ^ sq.level }
    requires row { y < 2 ^ sq.level }
    ensures { result ≡ (B.book book.now).cells sq (pos x) (pos y) }
{
    if sq.is_empty() {
        return false;
    }
    if sq.level == LEAF_LEVEL {
        return (book.bits(sq) >> (8 * y + x)) & 1 == 1;
    }
    let (first, second, row) = half_with_row(book, sq, y);
    let half = half_side(sq.level);
    let (quarter, column) = if x < half {
        (first, x)
    } else {
        (second, x - half)
    };
    has_cell(book, quarter, column, row)
}
