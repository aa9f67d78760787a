//! The centres of the four squares that neighbours make among nine squares in three rows.
ghost use Rattle.std.specs.Prelude.{◌<◌, All, IfOk, IfErr};
ghost use Rattle.squares.specs.Book.{AddsSquares, IsKnown, MayRefuse};
ghost use Rattle.hashlife_step.specs.Futures.{AreCentres};
ghost use Rattle.hashlife_step.specs.Quarters.{AreRead};

use plane::Refusal;
use squares::{LEAF_LEVEL, Sq, Squares, leaf_centre};

// The same centres as `four_centres`, of nine squares of level 3.
fn leaf_centres<S: Squares>(book: &mut S, nine: [Sq; 9]) -> Result<[Sq; 4], Refusal>
    requires known { All (IsKnown (S.book book.old) 3) nine }
    ensures ok { IfOk result (AreCentres (S.book book.new) 3 nine) }
    ensures refusal { IfErr result (MayRefuse (S.book book.new)) }
    ensures adds { AddsSquares (S.book book.old) (S.book book.new) }
{
    let [nw, upper, ne, left, middle, right, sw, lower, se] = nine;
    let upper_left = leaf_centre(book, [nw, upper, left, middle])?;
    let upper_right = leaf_centre(book, [upper, ne, middle, right])?;
    let lower_left = leaf_centre(book, [left, middle, sw, lower])?;
    let lower_right = leaf_centre(book, [middle, right, lower, se])?;
    Ok([upper_left, upper_right, lower_left, lower_right])
}

// The quarters of each of three squares.
fn read_row<S: Squares>(book: &mut S, level: u8, row: [Sq; 3]) -> [[Sq; 4]; 3]
    requires known { All (IsKnown (S.book book.old) level) row }
    requires low { 3 < level }
    ensures value { AreRead (S.book book.old) (S.book book.new) level row result }
    ensures adds { AddsSquares (S.book book.old) (S.book book.new) }
{
    let [left, middle, right] = row;
    [
        book.read_parts(left),
        book.read_parts(middle),
        book.read_parts(right),
    ]
}

// The quarters of each of nine squares in three rows.
fn read_nine<S: Squares>(book: &mut S, level: u8, nine: [Sq; 9]) -> [[Sq; 4]; 9]
    requires known { All (IsKnown (S.book book.old) level) nine }
    requires low { 3 < level }
    ensures value { AreRead (S.book book.old) (S.book book.new) level nine result }
    ensures adds { AddsSquares (S.book book.old) (S.book book.new) }
{
    let [nw, upper, ne, left, middle, right, sw, lower, se] = nine;
    let [nw, upper, ne] = read_row(book, level, [nw, upper, ne]);
    let [left, middle, right] = read_row(book, level, [left, middle, right]);
    let [sw, lower, se] = read_row(book, level, [sw, lower, se]);
    [nw, upper, ne, left, middle, right, sw, lower, se]
}

/// Of nine squares in three rows, the centres of the four that neighbours make.
pub(crate) fn four_centres<S: Squares>(
    book: &mut S,
    level: u8,
    nine: [Sq; 9],
) -> Result<[Sq; 4], Refusal>
    requires known { All (IsKnown (S.book book.old) level) nine }
    ensures ok { IfOk result (AreCentres (S.book book.new) level nine) }
    ensures refusal { IfErr result (MayRefuse (S.book book.new)) }
    ensures adds { AddsSquares (S.book book.old) (S.book book.new) }
{
    if level == LEAF_LEVEL {
        return leaf_centres(book, nine);
    }
    // A centre is made of the quarters where its four squares meet.
    let [nw, upper, ne, left, middle, right, sw, lower, se] = read_nine(book, level, nine);
    let upper_left = book.quad([nw[3], upper[2], left[1], middle[0]])?;
    let upper_right = book.quad([upper[3], ne[2], middle[1], right[0]])?;
    let lower_left = book.quad([left[3], middle[2], sw[1], lower[0]])?;
    let lower_right = book.quad([middle[3], right[2], lower[1], se[0]])?;
    Ok([upper_left, upper_right, lower_left, lower_right])
}
