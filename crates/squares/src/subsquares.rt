//! The square at the centre of a square, the nine overlapping squares, and the border: the quarters
//! of its quarters, but for the four that meet at its centre.

ghost use Rattle.std.specs.Prelude.{◌≡◌, ◌↔◌, ◌-◌, ◌<◌, All, IfOk, IfErr, IsTrue};
ghost use Rattle.squares.specs.Book.{AddsSquares, AreSubsquares, IsEmpty, IsKnown, MayRefuse, Shows};
ghost use Rattle.plane.specs.Square.{centre_of};
ghost use Rattle.squares.specs.Borders.{border_of};
ghost use Rattle.squares.specs.Parts.{ArePartsOfParts};

use crate::book::Squares;
use crate::leaves::leaf_centre;
use crate::sq::Sq;
use plane::{LEAF_LEVEL, Refusal};

/// The square at the centre of a square above level 3, with half its side.
pub fn centre<S: Squares>(book: &mut S, sq: Sq) -> Result<Sq, Refusal>
    requires known { IsKnown (S.book book.old) sq.level sq }
    requires level { 3 < sq.level }
    ensures ok { IfOk result (Shows (S.book book.new) (sq.level - 1)
        (centre_of sq.level ((S.book book.old).cells sq))) }
    ensures refusal { IfErr result (MayRefuse (S.book book.new)) }
    ensures adds { AddsSquares (S.book book.old) (S.book book.new) }
{
    if sq.level == LEAF_LEVEL + 1 {
        centre_of_leaves(book, sq)
    } else {
        centre_of_parts(book, sq)
    }
}

/// The nine overlapping squares of a square above level 4, row by row from the top, each with half
/// its side: they begin at 0, a quarter and a half of its side in each direction.
pub fn nine<S: Squares>(book: &mut S, sq: Sq) -> Result<[Sq; 9], Refusal>
    requires known { IsKnown (S.book book.old) sq.level sq }
    requires level { 4 < sq.level }
    ensures ok { IfOk result
        (AreSubsquares (S.book book.new) sq.level ((S.book book.old).cells sq)) }
    ensures refusal { IfErr result (MayRefuse (S.book book.new)) }
    ensures adds { AddsSquares (S.book book.old) (S.book book.new) }
{
    book.nine(sq)
}

// The centre of a square of level 4.
fn centre_of_leaves<S: Squares>(book: &mut S, sq: Sq) -> Result<Sq, Refusal>
    requires known { IsKnown (S.book book.old) sq.level sq }
    requires level { sq.level ≡ 4 }
    ensures ok { IfOk result (Shows (S.book book.new) (sq.level - 1)
        (centre_of sq.level ((S.book book.old).cells sq))) }
    ensures refusal { IfErr result (MayRefuse (S.book book.new)) }
    ensures adds { AddsSquares (S.book book.old) (S.book book.new) }
{
    let leaves = book.read_parts(sq);
    leaf_centre(book, leaves)
}

// The centre of a square above level 4: the quarters of its quarters that meet there.
fn centre_of_parts<S: Squares>(book: &mut S, sq: Sq) -> Result<Sq, Refusal>
    requires known { IsKnown (S.book book.old) sq.level sq }
    requires level { 4 < sq.level }
    ensures ok { IfOk result (Shows (S.book book.new) (sq.level - 1)
        (centre_of sq.level ((S.book book.old).cells sq))) }
    ensures refusal { IfErr result (MayRefuse (S.book book.new)) }
    ensures adds { AddsSquares (S.book book.old) (S.book book.new) }
{
    let parts = read_twice(book, sq);
    let [_, _, _, nw] = parts.nw;
    let [_, _, ne, _] = parts.ne;
    let [_, sw, _, _] = parts.sw;
    let [se, _, _, _] = parts.se;
    book.quad([nw, ne, sw, se])
}

// The quarters of a square, and the quarters of each.
#[derive(Clone, Copy)]
struct Parts {
    whole: [Sq; 4],
    nw: [Sq; 4],
    ne: [Sq; 4],
    sw: [Sq; 4],
    se: [Sq; 4],
}

// Reads the quarters of a square above level 4, and the quarters of each.
fn read_twice<S: Squares>(book: &mut S, sq: Sq) -> Parts
    requires known { IsKnown (S.book book.old) sq.level sq }
    requires level { 4 < sq.level }
    ensures value { ArePartsOfParts (S.book book.new) sq.level ((S.book book.old).cells sq) result }
    ensures adds { AddsSquares (S.book book.old) (S.book book.new) }
{
    let whole = book.read_parts(sq);
    let nw = book.read_parts(whole[0]);
    let ne = book.read_parts(whole[1]);
    let sw = book.read_parts(whole[2]);
    let se = book.read_parts(whole[3]);
    Parts {
        whole,
        nw,
        ne,
        sw,
        se,
    }
}

/// Whether the border of a square is empty, by the quarters of each of its quarters.
pub fn has_empty_border(nw: [Sq; 4], ne: [Sq; 4], sw: [Sq; 4], se: [Sq; 4]) -> bool
    ensures { IsTrue result ↔ All IsEmpty (border_of nw ne sw se) }
{
    let [nw_nw, nw_ne, nw_sw, _] = nw;
    let [ne_nw, ne_ne, _, ne_se] = ne;
    let [sw_nw, _, sw_sw, sw_se] = sw;
    let [_, se_ne, se_sw, se_se] = se;
    are_empty(&[
        nw_nw, nw_ne, nw_sw, ne_nw, ne_ne, ne_se, sw_nw, sw_sw, sw_se, se_ne, se_sw, se_se,
    ])
}

// Whether all squares are empty.
fn are_empty(squares: &[Sq]) -> bool
    ensures { IsTrue result ↔ All IsEmpty squares.now }
{
    squares.iter().all(|sq| sq.is_empty())
}
