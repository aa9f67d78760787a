//! A step at a desk, beside that of a plain book.

ghost use Rattle.std.specs.Prelude.{◌≤◌, IfOk};
ghost use Rattle.squares.specs.Book.{IsKnown, Keeps};
ghost use Rattle.node_table.specs.Stills.{book_in};

use crate::tests::tables::empty_table;
use hashlife_step::{Tally, step};
use node_table::Still;
use plane::Refusal;
use rule_text::Rule;
use sample_patterns::R_PENTOMINO_LEAVES;
use squares::{PlainBook, Sq, Squares, copy_square, join_leaves};
use std::process::Abort;
use std::test::Fail;

// Room for a thousand generations of the R-pentomino.
const PAIRS: u32 = 262144;

// 2^10 generations of the R-pentomino.
fn stepped<S: Squares>(book: &mut S, tally: &mut Tally) -> Result<Sq, Refusal>
    requires { (S.book book.old).exponent ≤ 62 }
    ensures known { IfOk result (λ sq. IsKnown (S.book book.new) sq.level sq) }
    ensures keeps { Keeps (S.book book.old) (S.book book.new) }
{
    let root = join_leaves(book, R_PENTOMINO_LEAVES)?;
    step(book, root, tally)
}

// The words of a table after the step, the square in them, and the expansions that it took.
fn stepped_at_desk(rt: &(impl Abort + AllocGlobal)) -> Result<(Still, Sq, Tally), Fail>
    ensures { IfOk result (λ made. IsKnown (book_in made.0) made.1.level made.1) }
{
    let (table, desk) = empty_table(rt.alloc(), PAIRS, 10)?;
    let mut at = table.at(desk);
    assert!(rt; at.exponent() <= 62);
    let mut tally = Tally { expansions: 0 };
    let made = stepped(&mut at, &mut tally);
    let desk = at.leave();
    let words = table.close(desk);
    let sq = made?;
    Ok((words, sq, tally))
}

#[test]
fn a_step_is_that_of_a_plain_book(rt: HostRuntime) -> Result<(), Fail> {
    let (words, sq, shared) = stepped_at_desk(&rt)?;
    let mut plain = PlainBook::new(rt.alloc(), Rule::read(b"B3/S23")?, 10);
    let mut own = Tally { expansions: 0 };
    let other = stepped(&mut plain, &mut own)?;
    assert_eq!(rt; copy_square(rt.alloc(), &words, sq, &mut plain)?, other);
    assert_eq!(rt; shared.expansions, own.expansions);
    Ok(())
}
