//! The smallest box round the live cells of a square.

ghost use Rattle.std.specs.Prelude.{◌≡◌, ◌≤◌, ◌-◌, ◌^◌, IfOk, IsOkUnless};
ghost use Rattle.std.specs.Option.{ForSome};
ghost use Rattle.plane.specs.Centred.{centred};
ghost use Rattle.squares.specs.Book.{AddsSquares, IsKnown};
ghost use Rattle.squares.specs.declared.sq.TheConstants.{HIGHEST_ROOT_LEVEL};
ghost use Rattle.viewport.specs.BoundingBox.{FitsMoved, HasBounds, IsLocalBox, moved_box};
ghost use Rattle.viewport.specs.Gaps.{IsGap};

use crate::gaps::{Side, gap};
use crate::sides::signed_half_side;
use plane::{Bounds, Refusal};
use squares::{Look, Looked, Reading, Sq, side};
use std::alloc::{AllocError, Global};
use std::collections::HashMap;

/// The smallest box round the live cells of a square of a level up to 63, if it has any. From each
/// side of the square only the first squares with live cells are read, each number above level 5
/// once. `NoMemory` where there is no room for one more gap.
pub fn bounds<B: Look>(alloc: Global, book: &B, sq: Sq) -> Result<Option<Bounds>, Refusal>
    requires known { IsKnown (B.book book.now) sq.level sq }
    requires level { sq.level ≤ HIGHEST_ROOT_LEVEL }
    ensures ok { IfOk result (HasBounds (centred sq.level ((B.book book.now).cells sq))) }
    ensures memory { IsOkUnless result Refusal.NoMemory }
{
    bounds_at(alloc, &mut Looked(book), sq)
}

/// The smallest box round the live cells of a square of a level up to 63, if it has any, found at a
/// book that is read. The book goes on knowing what it knew. From each side of the square only the
/// first squares with live cells are read, each number above level 5 once. `NoMemory` where there
/// is no room for one more gap.
pub fn bounds_at<R: Reading>(alloc: Global, book: &mut R, sq: Sq) -> Result<Option<Bounds>, Refusal>
    requires known { IsKnown (R.book book.old) sq.level sq }
    requires level { sq.level ≤ HIGHEST_ROOT_LEVEL }
    ensures ok { IfOk result (HasBounds (centred sq.level ((R.book book.old).cells sq))) }
    ensures memory { IsOkUnless result Refusal.NoMemory }
    ensures adds { AddsSquares (R.book book.old) (R.book book.new) }
{
    let local = local_box(alloc, book, sq)?;
    let half = signed_half_side(sq.level);
    Ok(shift(local, -half, -half))
}

// The box of the square's live cells, from its upper left corner, by the gaps at its sides.
fn local_box<R: Reading>(alloc: Global, book: &mut R, sq: Sq) -> Result<Option<Bounds>, AllocError>
    requires known { IsKnown (R.book book.old) sq.level sq }
    requires level { sq.level ≤ HIGHEST_ROOT_LEVEL }
    ensures ok { IfOk result (IsLocalBox (2 ^ sq.level) ((R.book book.old).cells sq)) }
    ensures adds { AddsSquares (R.book book.old) (R.book book.new) }
{
    let Some(left) = side_gap(alloc, book, sq, Side::Left)? else {
        return Ok(None);
    };
    let Some(right) = side_gap(alloc, book, sq, Side::Right)? else {
        return Ok(None);
    };
    let Some(top) = side_gap(alloc, book, sq, Side::Top)? else {
        return Ok(None);
    };
    let Some(bottom) = side_gap(alloc, book, sq, Side::Bottom)? else {
        return Ok(None);
    };
    let last = side(sq.level) - 1;
    Ok(Some(Bounds {
        left: left as i64,
        top: top as i64,
        right: (last - right) as i64,
        bottom: (last - bottom) as i64,
    }))
}

// The gap of the square at this side, where none is known yet.
fn side_gap<R: Reading>(
    alloc: Global,
    book: &mut R,
    sq: Sq,
    side: Side,
) -> Result<Option<u64>, AllocError>
    requires known { IsKnown (R.book book.old) sq.level sq }
    requires level { sq.level ≤ HIGHEST_ROOT_LEVEL }
    ensures ok { IfOk result (IsGap side (2 ^ sq.level) ((R.book book.old).cells sq)) }
    ensures adds { AddsSquares (R.book book.old) (R.book book.new) }
{
    let mut gaps = HashMap::new(alloc);
    gap(book, sq, side, &mut gaps)
}

// The box, shifted so far to the right and down.
fn shift(bounds: Option<Bounds>, right: i64, down: i64) -> Option<Bounds>
    requires { ForSome bounds (FitsMoved right down) }
    ensures { result ≡ moved_box right down bounds }
{
    let bounds = bounds?;
    Some(Bounds {
        left: bounds.left + right,
        top: bounds.top + down,
        right: bounds.right + right,
        bottom: bounds.bottom + down,
    })
}
