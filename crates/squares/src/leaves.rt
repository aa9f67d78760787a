//! Four leaves together: those of a square of level 4, read and made, and the leaf at their centre.

ghost use Rattle.std.specs.Prelude.{◌≡◌, All, IfOk, IfErr};
ghost use Rattle.plane.specs.Leaves.{leaves_plane};
ghost use Rattle.plane.specs.Square.{IsSame, centre_of};
ghost use Rattle.squares.specs.Book.{AddsSquares, IsKnown, MayRefuse, Shows, joined_squares};

use crate::book::Squares;
use crate::sq::Sq;
use plane::{Refusal, centre16};

// The cells of four squares of level 3.
fn read_four<S: Squares>(book: &mut S, four: [Sq; 4]) -> [u64; 4]
    requires known { All (IsKnown (S.book book.old) 3) four }
    ensures value { IsSame (leaves_plane result) (joined_squares (S.book book.old) 3 four) }
    ensures adds { AddsSquares (S.book book.old) (S.book book.new) }
{
    let [nw, ne, sw, se] = four;
    let upper_left = book.read_bits(nw);
    let upper_right = book.read_bits(ne);
    let lower_left = book.read_bits(sw);
    let lower_right = book.read_bits(se);
    [upper_left, upper_right, lower_left, lower_right]
}

/// The cells of the four leaves of a square of level 4: upper left, upper right, lower left, lower
/// right.
pub fn read_leaves<S: Squares>(book: &mut S, sq: Sq) -> [u64; 4]
    requires known { IsKnown (S.book book.old) sq.level sq }
    requires level { sq.level ≡ 4 }
    ensures value { IsSame (leaves_plane result) ((S.book book.old).cells sq) }
    ensures adds { AddsSquares (S.book book.old) (S.book book.new) }
{
    let quarters = book.read_parts(sq);
    read_four(book, quarters)
}

/// The square of level 4 that four leaves make: upper left, upper right, lower left, lower right.
pub fn join_leaves<S: Squares>(book: &mut S, leaves: [u64; 4]) -> Result<Sq, Refusal>
    ensures ok { IfOk result (Shows (S.book book.new) 4 (leaves_plane leaves)) }
    ensures refusal { IfErr result (MayRefuse (S.book book.new)) }
    ensures adds { AddsSquares (S.book book.old) (S.book book.new) }
{
    let [nw, ne, sw, se] = leaves;
    let upper_left = book.leaf(nw)?;
    let upper_right = book.leaf(ne)?;
    let lower_left = book.leaf(sw)?;
    let lower_right = book.leaf(se)?;
    book.quad([upper_left, upper_right, lower_left, lower_right])
}

/// The square of level 3 at the centre of the square that four squares of level 3 make.
pub fn leaf_centre<S: Squares>(book: &mut S, four: [Sq; 4]) -> Result<Sq, Refusal>
    requires known { All (IsKnown (S.book book.old) 3) four }
    ensures ok { IfOk result (Shows (S.book book.new) 3
        (centre_of 4 (joined_squares (S.book book.old) 3 four))) }
    ensures refusal { IfErr result (MayRefuse (S.book book.new)) }
    ensures adds { AddsSquares (S.book book.old) (S.book book.new) }
{
    let leaves = read_four(book, four);
    book.leaf(centre16(leaves))
}
