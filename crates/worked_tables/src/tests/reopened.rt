//! The results that stay where closed words are opened again.

ghost use Rattle.std.specs.Prelude.{◌<◌, ◌≤◌, IfOk};
ghost use Rattle.squares.specs.Book.{IsKnown, Keeps};

use crate::tests::tables::{PAIRS, empty_table, open_table};
use hashlife_step::{Tally, future};
use node_table::Still;
use plane::Refusal;
use rule_text::Rule;
use squares::{Sq, Squares, join_leaves};
use std::process::Abort;
use std::test::Fail;

// A rule and an exponent under which words are opened again, and whether the results of squares of
// the levels 4, 5 and 6 stay that were made under B3/S23 and the exponent 3.
const REOPENINGS: [(&str, u8, [bool; 3]); 4] = [
    ("B3/S23", 2, [true, false, false]),
    ("B3/S23", 5, [true, true, false]),
    ("B3/S23", 3, [true, true, true]),
    ("B36/S23", 3, [false, false, false]),
];

// A square of a level from 4 to 6 that is full of blocks.
fn blocks<S: Squares>(book: &mut S, level: u8) -> Result<Sq, Refusal>
    ensures known { IfOk result (λ sq. IsKnown (S.book book.new) sq.level sq) }
    ensures level { IfOk result (λ sq. (3 < sq.level) × (sq.level ≤ 6)) }
    ensures keeps { Keeps (S.book book.old) (S.book book.new) }
{
    let small = join_leaves(book, [0x1818000000; 4])?;
    if level == 4 {
        return Ok(small);
    }
    let middle = book.quad([small; 4])?;
    if level == 5 {
        return Ok(middle);
    }
    book.quad([middle; 4])
}

fn has_result<S: Squares>(book: &mut S, level: u8) -> Result<bool, Refusal>
    ensures { Keeps (S.book book.old) (S.book book.new) }
{
    let sq = blocks(book, level)?;
    Ok(book.recall(sq).is_some())
}

fn make_result<S: Squares>(book: &mut S, level: u8) -> Result<Sq, Refusal>
    ensures { Keeps (S.book book.old) (S.book book.new) }
{
    let sq = blocks(book, level)?;
    future(book, sq, &mut Tally { expansions: 0 })
}

// Makes the result of a square, and answers whether it is there then.
fn makes_result<S: Squares>(book: &mut S, level: u8) -> Result<bool, Refusal>
    ensures { Keeps (S.book book.old) (S.book book.new) }
{
    let _ = make_result(book, level)?;
    has_result(book, level)
}

// The words in which the result of a square of this level was made.
fn words_with_result(rt: &(impl Abort + AllocGlobal), level: u8) -> Result<Still, Fail> {
    let (table, desk) = empty_table(rt.alloc(), PAIRS, 3)?;
    let mut at = table.at(desk);
    let is_there = makes_result(&mut at, level);
    let desk = at.leave();
    let words = table.close(desk);
    assert!(rt; is_there?);
    Ok(words)
}

// Whether the result of a square of this level is there where the words are opened again.
fn keeps_result(
    rt: &(impl Abort + AllocGlobal),
    level: u8,
    rule: &str,
    exponent: u8,
) -> Result<bool, Fail> {
    let words = words_with_result(rt, level)?;
    let (table, desk) = open_table(rt.alloc(), words, Rule::read(rule.as_bytes())?, exponent)?;
    Ok(has_result(&mut table.at(desk), level)?)
}

#[test]
fn results_stay_where_they_are_the_same(rt: HostRuntime) -> Result<(), Fail> {
    for (rule, exponent, kept) in REOPENINGS {
        for (level, stays) in [(4, kept[0]), (5, kept[1]), (6, kept[2])] {
            let is_there = keeps_result(&rt, level, rule, exponent)?;
            assert_eq!(rt;
                (rule, exponent, level, is_there),
                (rule, exponent, level, stays)
            );
        }
    }
    Ok(())
}
