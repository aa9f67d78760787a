//! The recursion of HashLife: the future of a square from the futures of smaller ones. The book is
//! the memo: it recalls the results that it knows and keeps those that are made.
ghost use Rattle.std.specs.Prelude.{◌+◌, ◌-◌, ◌<◌, ◌≤◌, All, IfOk, IfErr, OnErr, OnOk};
ghost use Rattle.plane.specs.declared.cell.TheConstants.{HIGHEST_LEVEL};
ghost use Rattle.squares.specs.Book.{IsFuture, IsKnown, MayRefuse};
ghost use Rattle.hashlife_step.specs.FoundFutures.{FindsFuture};
ghost use Rattle.hashlife_step.specs.Futures.{AreFinished, AreFutures, AreSameOrFutures};
ghost use Rattle.hashlife_step.specs.Tallies.{MakesResults};

use crate::centres::four_centres;
use crate::leaf_squares::{BASE_LEVEL, base_future, leaf_future};
use crate::orders::EvaluationOrder;
use plane::Refusal;
use squares::{LEAF_LEVEL, Sq, Squares, Tally};

/// The future of a square: its centre, which has half its side, after 2^exponent generations of the
/// book's exponent, or after 2^(level - 2) if that is less. A result that the book knows is
/// recalled, and one that is made is kept in the book and counted.
pub fn future<S: Squares>(book: &mut S, sq: Sq, tally: &mut Tally) -> Result<Sq, Refusal>
    requires known { IsKnown (S.book book.old) sq.level sq }
    requires low { 3 < sq.level }
    ensures { FindsFuture (S.book book.old) (S.book book.new) sq
        tally.old.expansions tally.new.expansions result }
{
    future_in_order(book, sq, None, tally)
}

/// The same future. With an order, the futures of several smaller squares are first asked for in
/// this order: of workers at one table, each with an order of its own, each finds most of what the
/// others make.
#[cycle(future)]
pub fn future_in_order<S: Squares>(
    book: &mut S,
    sq: Sq,
    order: Option<EvaluationOrder>,
    tally: &mut Tally,
) -> Result<Sq, Refusal>
    requires known { IsKnown (S.book book.old) sq.level sq }
    requires low { 3 < sq.level }
    ensures { FindsFuture (S.book book.old) (S.book book.new) sq
        tally.old.expansions tally.new.expansions result }
{
    if let Some(future) = book.recall(sq) {
        return Ok(future);
    }
    let future = make(book, sq, order, tally)?;
    book.keep(sq, future)?;
    tally.add();
    Ok(future)
}

// The future of a square whose result is not known.
#[cycle(future)]
fn make<S: Squares>(
    book: &mut S,
    sq: Sq,
    order: Option<EvaluationOrder>,
    tally: &mut Tally,
) -> Result<Sq, Refusal>
    requires known { IsKnown (S.book book.old) sq.level sq }
    requires low { 3 < sq.level }
    ensures ok { IfOk result (IsFuture (S.book book.new) sq) }
    ensures refusal { IfErr result (MayRefuse (S.book book.new)) }
    ensures makes { MakesResults (S.book book.old) (S.book book.new) (sq.level - 1)
        tally.old.expansions tally.new.expansions }
{
    if sq.level == LEAF_LEVEL + 1 {
        return leaf_future(book, sq);
    }
    if sq.level == BASE_LEVEL {
        return base_future(book, sq);
    }
    let level = sq.level - 1;
    let mut parts = book.nine(sq)?;
    replace_by_futures(book, level, &mut parts, order, tally)?;
    let quarters = finish(book, level - 1, parts, order, tally)?;
    book.quad(quarters)
}

// Of nine squares in three rows, the futures of the four that neighbours make, if there is time for
// them, else their centres.
#[cycle(future)]
fn finish<S: Squares>(
    book: &mut S,
    level: u8,
    nine: [Sq; 9],
    order: Option<EvaluationOrder>,
    tally: &mut Tally,
) -> Result<[Sq; 4], Refusal>
    requires known { All (IsKnown (S.book book.old) level) nine }
    requires low { 3 ≤ level }
    requires high { level < HIGHEST_LEVEL }
    ensures ok { IfOk result (AreFinished (S.book book.new) level nine) }
    ensures refusal { IfErr result (MayRefuse (S.book book.new)) }
    ensures makes { MakesResults (S.book book.old) (S.book book.new) (level + 1)
        tally.old.expansions tally.new.expansions }
{
    if book.exponent() < level {
        return four_centres(book, level, nine);
    }
    let mut four = book.overlaps(level, nine)?;
    replace_by_futures(book, level + 1, &mut four, order, tally)?;
    Ok(four)
}

/// Puts its future in the place of each square of a level. With an order, they are first asked for
/// in this order, as in [`future_in_order`]. Where it refuses, each place has its square or its
/// future.
#[cycle(future)]
pub fn replace_by_futures<S: Squares>(
    book: &mut S,
    level: u8,
    squares: &mut [Sq],
    order: Option<EvaluationOrder>,
    tally: &mut Tally,
) -> Result<(), Refusal>
    requires known { All (IsKnown (S.book book.old) level) squares.old }
    requires low { 3 < level }
    ensures ok { OnOk result (AreFutures (S.book book.new) level squares.old squares.new) }
    ensures err { OnErr result (AreSameOrFutures (S.book book.new) level squares.old squares.new) }
    ensures refusal { IfErr result (MayRefuse (S.book book.new)) }
    ensures makes { MakesResults (S.book book.old) (S.book book.new) level
        tally.old.expansions tally.new.expansions }
{
    ask_ahead(book, level, squares, order, tally)?;
    for i in 0..squares.len() {
        squares[i] = future_in_order(book, squares[i], order, tally)?;
    }
    Ok(())
}

// Asks for the futures of the squares in this order, if there is one.
#[cycle(future)]
fn ask_ahead<S: Squares>(
    book: &mut S,
    level: u8,
    squares: &[Sq],
    order: Option<EvaluationOrder>,
    tally: &mut Tally,
) -> Result<(), Refusal>
    requires known { All (IsKnown (S.book book.old) level) squares.now }
    requires low { 3 < level }
    ensures refusal { IfErr result (MayRefuse (S.book book.new)) }
    ensures makes { MakesResults (S.book book.old) (S.book book.new) level
        tally.old.expansions tally.new.expansions }
{
    let Some(order) = order else {
        return Ok(());
    };
    for k in 0..squares.len() {
        let next = squares[order.index(k, squares.len())];
        future_in_order(book, next, Some(order), tally)?;
    }
    Ok(())
}
