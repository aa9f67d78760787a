//! A square without its empty border.
ghost use Rattle.std.specs.Prelude.{◌↔◌, ◌-◌, ◌<◌, ◌≤◌, max, IfOk, IfErr, IsTrue};
ghost use Rattle.plane.specs.Centred.{Holds, IsSmallestLevel};
ghost use Rattle.squares.specs.Book.{AddsSquares, IsKnown, MayRefuse};
ghost use Rattle.squares.specs.Roots.{square_plane};
ghost use Rattle.hashlife_step.specs.ShowsCentred.{ShowsCentred};

use crate::leaf_squares::surround_leaf;
use plane::Refusal;
use squares::{LEAF_LEVEL, LOWEST_ROOT_LEVEL, Sq, Squares, centre, has_empty_border};

// Whether all live cells lie in the square at the centre.
fn is_held_by_centre<S: Squares>(book: &mut S, sq: Sq) -> bool
    requires known { IsKnown (S.book book.old) sq.level sq }
    requires low { 4 < sq.level }
    ensures value { IsTrue result ↔ Holds (sq.level - 1) (square_plane (S.book book.old) sq) }
    ensures adds { AddsSquares (S.book book.old) (S.book book.new) }
{
    let [nw, ne, sw, se] = book.read_parts(sq);
    let nw = book.read_parts(nw);
    let ne = book.read_parts(ne);
    let sw = book.read_parts(sw);
    let se = book.read_parts(se);
    has_empty_border(nw, ne, sw, se)
}

/// The square of the smallest level, but at least 4, that has the same cells round its centre. So a
/// square of level 3 comes into the middle of one of level 4, and no other rises.
pub fn trim<S: Squares>(book: &mut S, sq: Sq) -> Result<Sq, Refusal>
    requires known { IsKnown (S.book book.old) sq.level sq }
    ensures cells { IfOk result (ShowsCentred (S.book book.new) (square_plane (S.book book.old) sq)) }
    ensures level { IfOk result (λ trimmed.
        IsSmallestLevel trimmed.level (square_plane (S.book book.old) sq)) }
    ensures no_rise { IfOk result (λ trimmed. trimmed.level ≤ max 4 sq.level) }
    ensures refusal { IfErr result (MayRefuse (S.book book.new)) }
    ensures adds { AddsSquares (S.book book.old) (S.book book.new) }
{
    let mut trimmed = if sq.level == LEAF_LEVEL {
        surround_leaf(book, sq)?
    } else {
        sq
    };
    while trimmed.level > LOWEST_ROOT_LEVEL && is_held_by_centre(book, trimmed) {
        trimmed = centre(book, trimmed)?;
    }
    Ok(trimmed)
}
