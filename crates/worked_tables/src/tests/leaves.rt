//! Leaves at one desk: where their words stand, and the word that finds no room.

ghost use Rattle.squares.specs.Book.{Keeps};

use crate::tests::tables::{PAIRS, empty_table};
use crate::tests::threads::numbers_and_refusals;
use plane::Refusal;
use squares::{Num, Sq, Squares};
use std::process::Abort;
use std::test::Fail;

// A word, and the number of its leaf in a table without a square.
const FIRST_NUMBERS: [(u64, u32); 2] = [(1, 159), (2, 61)];

fn leaf<S: Squares>(book: &mut S, word: u64) -> Result<Sq, Refusal> {
    book.leaf(word)
}

/// Makes the leaves of the words from the first to the last, and says how many were not refused.
pub(crate) fn make_leaves<S: Squares>(book: &mut S, first: u64, last: u64) -> u64
    ensures { Keeps (S.book book.old) (S.book book.new) }
{
    let mut made = 0u64;
    for word in first..=last {
        if book.leaf(word).is_ok() {
            made = made.wrapping_add(1);
        }
    }
    made
}

fn first_number(rt: &(impl Abort + AllocGlobal), word: u64) -> Result<u32, Fail> {
    let (table, desk) = empty_table(rt.alloc(), PAIRS, 0)?;
    Ok(leaf(&mut table.at(desk), word)?.num.0)
}

#[test]
fn leaves_stand_on_their_ways(rt: HostRuntime) -> Result<(), Fail> {
    for (word, wanted) in FIRST_NUMBERS {
        assert_eq!(rt; (word, first_number(&rt, word)?), (word, wanted));
    }
    Ok(())
}

// The first of the words 1 to 257 that is refused.
fn first_refused<S: Squares>(book: &mut S) -> Option<(u64, Refusal)> {
    for word in 1..=257 {
        if let Err(refusal) = book.leaf(word) {
            return Some((word, refusal));
        }
    }
    None
}

#[test]
fn a_full_table_refuses_one_word_more(rt: HostRuntime) -> Result<(), Fail> {
    let (table, desk) = empty_table(rt.alloc(), PAIRS, 0)?;
    let mut at = table.at(desk);
    let first = leaf(&mut at, 1)?;
    assert_eq!(rt; first_refused(&mut at), Some((257, Refusal::NodesFull)));
    assert_eq!(rt; leaf(&mut at, 1)?, first);
    assert_eq!(rt; leaf(&mut at, 0)?.num, Num(0));
    Ok(())
}

#[test]
fn at_one_desk_256_words_have_256_numbers(rt: HostRuntime) -> Result<(), Fail> {
    let (table, desk) = empty_table(rt.alloc(), PAIRS, 0)?;
    assert_eq!(rt; numbers_and_refusals(&mut table.at(desk)), (256, 1));
    Ok(())
}
