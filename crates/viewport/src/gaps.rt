//! How far the live cells of a square lie from its sides.

ghost use Rattle.std.specs.Prelude.{◌≡◌, ◌+◌, ◌≤◌, ◌<◌, ◌^◌, IfOk};
ghost use Rattle.std.specs.Option.{ForSome, option_map};
ghost use Rattle.plane.specs.Square.{bits_plane};
ghost use Rattle.squares.specs.Book.{AddsSquares, IsKnown};
ghost use Rattle.squares.specs.declared.sq.TheConstants.{HIGHEST_ROOT_LEVEL};
ghost use Rattle.viewport.specs.Gaps.{AreGaps, IsGap, lesser, near_first};
ghost use Rattle.viewport.specs.Halves.{either};

use crate::leaf_boxes::leaf_box;
use crate::populations::LOWEST_NOTED;
use squares::{LEAF_LEVEL, Reading, Sq, half_side};
use std::alloc::AllocError;
use std::collections::HashMap;

/// A side of a square.
#[derive(Clone, Copy)]
pub(crate) enum Side {
    Left,
    Right,
    Top,
    Bottom,
}

/// The gaps of squares at one side, by level and number.
pub(crate) type Gaps = HashMap<(u8, u32), Option<u64>>;

/// How many columns or rows without a live cell lie between a side of the square and its first live
/// cell from there, by the gaps at that side that are known; it adds what it finds to them. None
/// where no cell is live.
#[cycle(gap)]
pub(crate) fn gap<R: Reading>(
    book: &mut R,
    sq: Sq,
    side: Side,
    gaps: &mut Gaps,
) -> Result<Option<u64>, AllocError>
    requires known { IsKnown (R.book book.old) sq.level sq }
    requires level { sq.level ≤ HIGHEST_ROOT_LEVEL }
    requires noted { AreGaps (R.book book.old) side gaps.old }
    ensures ok { IfOk result (IsGap side (2 ^ sq.level) ((R.book book.old).cells sq)) }
    ensures noted { AreGaps (R.book book.new) side gaps.new }
    ensures adds { AddsSquares (R.book book.old) (R.book book.new) }
{
    if sq.is_empty() {
        return Ok(None);
    }
    if sq.level == LEAF_LEVEL {
        return Ok(leaf_gap(book.cells_of(sq), side));
    }
    if sq.level < LOWEST_NOTED {
        return quarters_gap(book, sq, side, gaps);
    }
    let key = (sq.level, sq.num.0);
    if let Some(known) = gaps.get(&key) {
        return Ok(*known);
    }
    let whole = quarters_gap(book, sq, side, gaps)?;
    gaps.insert(key, whole)?;
    Ok(whole)
}

// The gap of a square, by its quarters: by the two at the side, and where neither has a live cell,
// by the two others.
#[cycle(gap)]
fn quarters_gap<R: Reading>(
    book: &mut R,
    sq: Sq,
    side: Side,
    gaps: &mut Gaps,
) -> Result<Option<u64>, AllocError>
    requires known { IsKnown (R.book book.old) sq.level sq }
    requires low { 3 < sq.level }
    requires high { sq.level ≤ HIGHEST_ROOT_LEVEL }
    requires noted { AreGaps (R.book book.old) side gaps.old }
    ensures ok { IfOk result (IsGap side (2 ^ sq.level) ((R.book book.old).cells sq)) }
    ensures noted { AreGaps (R.book book.new) side gaps.new }
    ensures adds { AddsSquares (R.book book.old) (R.book book.new) }
{
    let quarters = book.quarters_of(sq);
    let [first, second, third, fourth] = side_first(quarters, side);
    let near = half_gap(book, first, second, side, gaps)?;
    if near.is_some() {
        return Ok(near);
    }
    let far = half_gap(book, third, fourth, side, gaps)?;
    Ok(farther(far, half_side(sq.level)))
}

// The lesser gap of two squares of a level: that of both, laid over one another.
#[cycle(gap)]
fn half_gap<R: Reading>(
    book: &mut R,
    first: Sq,
    second: Sq,
    side: Side,
    gaps: &mut Gaps,
) -> Result<Option<u64>, AllocError>
    requires first { IsKnown (R.book book.old) first.level first }
    requires second { IsKnown (R.book book.old) first.level second }
    requires level { first.level ≤ HIGHEST_ROOT_LEVEL }
    requires noted { AreGaps (R.book book.old) side gaps.old }
    ensures ok { IfOk result (IsGap side (2 ^ first.level)
        (either ((R.book book.old).cells first) ((R.book book.old).cells second))) }
    ensures noted { AreGaps (R.book book.new) side gaps.new }
    ensures adds { AddsSquares (R.book book.old) (R.book book.new) }
{
    let first = gap(book, first, side, gaps)?;
    let second = gap(book, second, side, gaps)?;
    Ok(lesser_gap(first, second))
}

// The quarters of a square, the two at this side first.
fn side_first(quarters: [Sq; 4], side: Side) -> [Sq; 4]
    ensures { result ≡ near_first side quarters }
{
    let [nw, ne, sw, se] = quarters;
    match side {
        Side::Left => [nw, sw, ne, se],
        Side::Right => [ne, se, nw, sw],
        Side::Top => [nw, ne, sw, se],
        Side::Bottom => [sw, se, nw, ne],
    }
}

// The lesser of two gaps.
fn lesser_gap(a: Option<u64>, b: Option<u64>) -> Option<u64>
    ensures { result ≡ lesser a b }
{
    match (a, b) {
        (Some(a), Some(b)) => Some(a.min(b)),
        (None, b) => b,
        (a, None) => a,
    }
}

// The gap, seen from so much farther away.
fn farther(gap: Option<u64>, by: u64) -> Option<u64>
    requires { ForSome gap (λ g. g + by < 2 ^ 64) }
    ensures { result ≡ option_map (λ g. g + by) gap }
{
    let gap = gap?;
    Some(gap + by)
}

// The gap of a leaf.
fn leaf_gap(word: u64, side: Side) -> Option<u64>
    ensures { IsGap side 8 (bits_plane word) result }
{
    let bounds = leaf_box(word)?;
    Some(match side {
        Side::Left => bounds.left as u64,
        Side::Right => (7 - bounds.right) as u64,
        Side::Top => bounds.top as u64,
        Side::Bottom => (7 - bounds.bottom) as u64,
    })
}
