//! Squares of levels 3 to 6, by the cells of their leaves: read and joined, their futures, and the
//! square round a leaf.
//!
//! Only public calls of this crate ask for the future of a square below level 6: a run pads its root,
//! of level 4 or more, to level 6 or more.
ghost use Rattle.std.specs.Prelude.{◌≡◌, IfOk, IfErr};
ghost use Rattle.leaf_kernels.specs.Rows.{four_fours_plane, four_sixteens_plane, sixteen_plane};
ghost use Rattle.plane.specs.Square.{IsSame};
ghost use Rattle.squares.specs.Book.{AddsSquares, IsFuture, IsKnown, MayRefuse, Shows};
ghost use Rattle.squares.specs.Roots.{square_plane};
ghost use Rattle.hashlife_step.specs.ShowsCentred.{ShowsCentred};

use leaf_kernels::{Leaves64, centre16, result16, result64};
use plane::Refusal;
use squares::{Sq, Squares, join_leaves, read_leaves};

/// The level of a base: of the squares whose futures a kernel makes from all their leaves at once.
/// The future of a larger square is made of those of smaller ones.
pub const BASE_LEVEL: u8 = 6;

// The sixteen leaves of a square of level 5, row by row.
fn read_sixteen<S: Squares>(book: &mut S, sq: Sq) -> [u64; 16]
    requires known { IsKnown (S.book book.old) sq.level sq }
    requires level { sq.level ≡ 5 }
    ensures value { IsSame (sixteen_plane result) ((S.book book.old).cells sq) }
    ensures adds { AddsSquares (S.book book.old) (S.book book.new) }
{
    let [nw, ne, sw, se] = book.read_parts(sq);
    let nw = read_leaves(book, nw);
    let ne = read_leaves(book, ne);
    let sw = read_leaves(book, sw);
    let se = read_leaves(book, se);
    [
        nw[0], nw[1], ne[0], ne[1], //
        nw[2], nw[3], ne[2], ne[3], //
        sw[0], sw[1], se[0], se[1], //
        sw[2], sw[3], se[2], se[3],
    ]
}

// The leaves of a square of level 6, quarter by quarter.
fn read_quarters<S: Squares>(book: &mut S, sq: Sq) -> Leaves64
    requires known { IsKnown (S.book book.old) sq.level sq }
    requires level { sq.level ≡ 6 }
    ensures value { IsSame (four_sixteens_plane result) ((S.book book.old).cells sq) }
    ensures adds { AddsSquares (S.book book.old) (S.book book.new) }
{
    let [nw, ne, sw, se] = book.read_parts(sq);
    let upper_left = read_sixteen(book, nw);
    let upper_right = read_sixteen(book, ne);
    let lower_left = read_sixteen(book, sw);
    let lower_right = read_sixteen(book, se);
    [upper_left, upper_right, lower_left, lower_right]
}

// The square of level 5 that four times four leaves make.
fn join_quarters<S: Squares>(book: &mut S, quarters: [[u64; 4]; 4]) -> Result<Sq, Refusal>
    ensures ok { IfOk result (Shows (S.book book.new) 5 (four_fours_plane quarters)) }
    ensures refusal { IfErr result (MayRefuse (S.book book.new)) }
    ensures adds { AddsSquares (S.book book.old) (S.book book.new) }
{
    let [nw, ne, sw, se] = quarters;
    let upper_left = join_leaves(book, nw)?;
    let upper_right = join_leaves(book, ne)?;
    let lower_left = join_leaves(book, sw)?;
    let lower_right = join_leaves(book, se)?;
    book.quad([upper_left, upper_right, lower_left, lower_right])
}

/// The future of a base, a square of level 6.
pub(crate) fn base_future<S: Squares>(book: &mut S, sq: Sq) -> Result<Sq, Refusal>
    requires known { IsKnown (S.book book.old) sq.level sq }
    requires level { sq.level ≡ 6 }
    ensures ok { IfOk result (IsFuture (S.book book.new) sq) }
    ensures refusal { IfErr result (MayRefuse (S.book book.new)) }
    ensures adds { AddsSquares (S.book book.old) (S.book book.new) }
{
    let quarters = read_quarters(book, sq);
    let exponent = u8::min(book.exponent(), sq.level - 2);
    let middle = result64(book.rule(), quarters, exponent);
    join_quarters(book, middle)
}

/// The future of a square of level 4.
pub(crate) fn leaf_future<S: Squares>(book: &mut S, sq: Sq) -> Result<Sq, Refusal>
    requires known { IsKnown (S.book book.old) sq.level sq }
    requires level { sq.level ≡ 4 }
    ensures ok { IfOk result (IsFuture (S.book book.new) sq) }
    ensures refusal { IfErr result (MayRefuse (S.book book.new)) }
    ensures adds { AddsSquares (S.book book.old) (S.book book.new) }
{
    let leaves = read_leaves(book, sq);
    let exponent = u8::min(book.exponent(), sq.level - 2);
    let word = result16(book.rule(), leaves, exponent);
    book.leaf(word)
}

/// The square of level 4 that has this one, of level 3, in its middle: each quarter is the middle
/// of four leaves, of which this is one.
pub(crate) fn surround_leaf<S: Squares>(book: &mut S, sq: Sq) -> Result<Sq, Refusal>
    requires known { IsKnown (S.book book.old) sq.level sq }
    requires level { sq.level ≡ 3 }
    ensures level { IfOk result (λ whole. whole.level ≡ 4) }
    ensures cells { IfOk result (ShowsCentred (S.book book.new) (square_plane (S.book book.old) sq)) }
    ensures refusal { IfErr result (MayRefuse (S.book book.new)) }
    ensures adds { AddsSquares (S.book book.old) (S.book book.new) }
{
    let word = book.read_bits(sq);
    let upper_left = book.leaf(centre16([0, 0, 0, word]))?;
    let upper_right = book.leaf(centre16([0, 0, word, 0]))?;
    let lower_left = book.leaf(centre16([0, word, 0, 0]))?;
    let lower_right = book.leaf(centre16([word, 0, 0, 0]))?;
    book.quad([upper_left, upper_right, lower_left, lower_right])
}
