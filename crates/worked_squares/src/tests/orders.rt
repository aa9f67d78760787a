//! A future asked for in each order of the smaller squares: one square, after as many expansions.

ghost use Rattle.std.specs.Prelude.{IfOk};
ghost use Rattle.squares.specs.Book.{IsKnown};

use crate::tests::books::book_of;
use crate::tests::rows::assert_same;
use hashlife_step::{EvaluationOrder, Tally, future_in_order, pad};
use plane::Refusal;
use sample_patterns::R_PENTOMINO_LEAVES;
use squares::{PlainBook, Sq, Squares, copy_square, join_leaves};
use std::alloc::Global;

// The future of the padded R-pentomino.
fn future_of_pentomino<S: Squares>(
    book: &mut S,
    order: Option<EvaluationOrder>,
    tally: &mut Tally,
) -> Result<Sq, Refusal>
    ensures { IfOk result (λ sq. IsKnown (S.book book.new) sq.level sq) }
{
    let root = join_leaves(book, R_PENTOMINO_LEAVES)?;
    let padded = pad(book, root, 6)?;
    future_in_order(book, padded, order, tally)
}

// The future that a book of its own gives in this order, as a square of the first book, and the
// expansions that it took.
fn asked_in_order(
    alloc: Global,
    first: &mut PlainBook,
    order: Option<EvaluationOrder>,
) -> Result<(Sq, u64), Refusal> {
    let mut book = book_of(alloc, "B3/S23", 6)?;
    let mut tally = Tally { expansions: 0 };
    let sq = future_of_pentomino(&mut book, order, &mut tally)?;
    Ok((copy_square(alloc, &book, sq, first)?, tally.expansions))
}

// The first worker whose order gives another future than no order, or takes other expansions.
fn first_other_order(alloc: Global, first: &mut PlainBook, in_turn: (Sq, u64)) -> Option<u8> {
    for worker in 1..=64 {
        let order = EvaluationOrder::of_worker(worker);
        if asked_in_order(alloc, first, order) != Ok(in_turn) {
            return Some(worker);
        }
    }
    None
}

#[test]
fn all_orders_give_one_future(rt: HostRuntime) -> Result<(), Refusal> {
    let mut first = book_of(rt.alloc(), "B3/S23", 6)?;
    let in_turn = asked_in_order(rt.alloc(), &mut first, None)?;
    assert!(rt; in_turn.1 > 0);
    assert_same(
        &rt,
        first_other_order(rt.alloc(), &mut first, in_turn),
        None,
    );
    Ok(())
}
