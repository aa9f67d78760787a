//! From the cells of a square to its frame and its items.

ghost use Rattle.std.specs.Prelude.{◌≤◌, IfOk, IfErr};
ghost use Rattle.squares.specs.Book.{IsKnown};
ghost use Rattle.pattern_writers.specs.Frame.{HasRoom};
ghost use Rattle.pattern_writers.specs.RleText.{HasFrame, HasItems, IsFrameRefusal};
ghost use Rattle.squares.specs.Roots.{square_plane};
ghost use Rattle.squares.specs.declared.sq.TheConstants.{HIGHEST_ROOT_LEVEL};

use super::bands::banded_runs;
use super::frame::Frame;
use super::items::{Item, items};
use plane::Refusal;
use squares::{Look, Sq};
use std::alloc::Global;
use std::thread::Threads;
use viewport::bounds;

/// The frame of a square's cells, and their items in it.
pub(crate) fn framed_items<R: Threads + Sync, B: Look + Sync>(
    rt: &R,
    alloc: Global,
    book: &B,
    sq: Sq,
) -> Result<(Frame, Vec<Item>), Refusal>
    requires known { IsKnown (B.book book.now) sq.level sq }
    requires level { sq.level ≤ HIGHEST_ROOT_LEVEL }
    ensures ok { IfOk result (λ framed.
        HasItems (square_plane (B.book book.now) sq) framed.0 framed.1.items) }
    ensures refused { IfErr result (IsFrameRefusal (square_plane (B.book book.now) sq)) }
{
    let frame = cells_frame(alloc, book, sq)?;
    let bands = banded_runs(rt, alloc, book, sq, frame)?;
    let items = items(alloc, frame.corner, bands.as_slice())?;
    Ok((frame, items))
}

// The frame of a square's cells.
fn cells_frame<B: Look>(alloc: Global, book: &B, sq: Sq) -> Result<Frame, Refusal>
    requires known { IsKnown (B.book book.now) sq.level sq }
    requires level { sq.level ≤ HIGHEST_ROOT_LEVEL }
    ensures frame { IfOk result (HasFrame (square_plane (B.book book.now) sq)) }
    ensures room { IfOk result HasRoom }
    ensures refused { IfErr result (IsFrameRefusal (square_plane (B.book book.now) sq)) }
{
    Frame::of(bounds(alloc, book, sq)?)
}
