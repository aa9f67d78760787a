//! Empty squares round a square, so that a step has room.
ghost use Rattle.std.specs.Prelude.{◌≡◌, ◌+◌, ◌-◌, ◌^◌, ◌<◌, ◌≤◌, max, IfOk, IfErr};
ghost use Rattle.plane.specs.declared.cell.TheConstants.{HIGHEST_LEVEL};
ghost use Rattle.plane.specs.Centred.{Holds};
ghost use Rattle.plane.specs.Plane.{after};
ghost use Rattle.squares.specs.Book.{AddsSquares, IsKnown, MayRefuse};
ghost use Rattle.squares.specs.Roots.{square_plane};
ghost use Rattle.hashlife_step.specs.ShowsCentred.{ShowsCentred};

use crate::leaf_squares::surround_leaf;
use plane::Refusal;
use squares::{LEAF_LEVEL, Sq, Squares};

// The square of twice the side that has this one in its middle.
fn grow<S: Squares>(book: &mut S, sq: Sq) -> Result<Sq, Refusal>
    requires known { IsKnown (S.book book.old) sq.level sq }
    requires low { 3 < sq.level }
    requires high { sq.level < HIGHEST_LEVEL }
    ensures level { IfOk result (λ grown. grown.level ≡ sq.level + 1) }
    ensures cells { IfOk result (ShowsCentred (S.book book.new) (square_plane (S.book book.old) sq)) }
    ensures refusal { IfErr result (MayRefuse (S.book book.new)) }
    ensures adds { AddsSquares (S.book book.old) (S.book book.new) }
{
    let empty = Sq::empty(sq.level - 1);
    let [nw, ne, sw, se] = book.read_parts(sq);
    let upper_left = book.quad([empty, empty, empty, nw])?;
    let upper_right = book.quad([empty, empty, ne, empty])?;
    let lower_left = book.quad([empty, sw, empty, empty])?;
    let lower_right = book.quad([se, empty, empty, empty])?;
    book.quad([upper_left, upper_right, lower_left, lower_right])
}

/// The square with empty squares round it, so that there is room for 2^exponent generations: at the
/// level `max(level + 2, exponent + 3)`, with the same cells round its centre. So a leaf comes into
/// the middle of a square of level 5 at least.
pub fn pad<S: Squares>(book: &mut S, sq: Sq, exponent: u8) -> Result<Sq, Refusal>
    requires known { IsKnown (S.book book.old) sq.level sq }
    requires high { max (sq.level + 2) (exponent + 3) ≤ HIGHEST_LEVEL }
    ensures level { IfOk result (λ padded. padded.level ≡ max (sq.level + 2) (exponent + 3)) }
    ensures cells { IfOk result (ShowsCentred (S.book book.new) (square_plane (S.book book.old) sq)) }
    // What the cells become in that time lies in the square of the level below, round the same
    // centre.
    ensures room { IfOk result (λ padded. Holds (padded.level - 1)
        (after (S.book book.old).rule (square_plane (S.book book.old) sq) (2 ^ exponent))) }
    ensures refusal { IfErr result (MayRefuse (S.book book.new)) }
    ensures adds { AddsSquares (S.book book.old) (S.book book.new) }
{
    let level = u8::max(sq.level + 2, exponent + 3);
    let mut padded = if sq.level == LEAF_LEVEL {
        surround_leaf(book, sq)?
    } else {
        sq
    };
    while padded.level < level {
        padded = grow(book, padded)?;
    }
    Ok(padded)
}
