//! A square with a glider, and its future.

ghost use Rattle.std.specs.Prelude.{IfOk};
ghost use Rattle.squares.specs.Book.{IsKnown, Keeps};

use hashlife_step::{Tally, future};
use plane::Refusal;
use squares::{Sq, Squares, join_leaves};

/// The leaves of the square around (0,0) with the glider bob$2bo$3o! whose box begins there: it
/// lies in the upper left of the last leaf, in the square's columns and rows 8 to 10.
pub(crate) const GLIDER: [u64; 4] = [0, 0, 0, 0x70402];

/// The centre of that square after four generations: the glider is in the square's columns and rows
/// 9 to 11, and so in the centre's 5 to 7.
pub(crate) const FOUR_GENERATIONS_ON: u64 = 0xe080_4000_0000_0000;

pub(crate) fn glider<S: Squares>(book: &mut S) -> Result<Sq, Refusal>
    ensures known { IfOk result (IsKnown (S.book book.new) 4) }
    ensures keeps { Keeps (S.book book.old) (S.book book.new) }
{
    join_leaves(book, GLIDER)
}

pub(crate) fn glider_and_future<S: Squares>(book: &mut S) -> Result<(Sq, Sq), Refusal>
    ensures known { IfOk result (λ made. IsKnown (S.book book.new) made.0.level made.0) }
    ensures keeps { Keeps (S.book book.old) (S.book book.new) }
{
    let sq = glider(book)?;
    let later = future(book, sq, &mut Tally { expansions: 0 })?;
    Ok((sq, later))
}

/// The glider's square, and its result where that is known.
pub(crate) fn glider_and_result<S: Squares>(book: &mut S) -> Result<(Sq, Option<Sq>), Refusal> {
    let sq = glider(book)?;
    Ok((sq, book.recall(sq)))
}
