//! Want of memory: no words are made, or no table is opened and the words come back as they were,
//! or the words can't be copied and stay.
//!
//! In a plain run of the tests there is memory. `rt try --test --fail-alloc N -- want_of_memory`
//! makes the Nth allocation fail, and is run for each N from 1 up to the first at which no test
//! prints a line of its own.

ghost use Rattle.std.specs.Prelude.{IfOk};
ghost use Rattle.node_table.specs.Desks.{IsDeskOf};
ghost use Rattle.node_table.specs.Stills.{book_in};
ghost use Rattle.squares.specs.Book.{IsKnown};

use crate::tests::copies::{Copying, copied_from};
use crate::tests::glider::{glider, glider_and_future, glider_and_result};
use crate::tests::tables::{PAIRS, open_table};
use node_sweep::{Keep, sweep};
use node_table::{Desk, NodeTable, Still};
use plane::Refusal;
use rule_text::Rule;
use squares::Sq;
use std::process::Abort;
use std::test::Fail;
use std::thread::Threads;
use table_core::Shape;
use table_growth::COLLECTION_SHARES;

/// A running table of these words. Where memory was wanting, it is opened at the second try, with
/// the words that came back from the first.
pub(crate) fn opened<R: Abort + AllocGlobal + Print>(
    rt: &R,
    still: Still,
    exponent: u8,
) -> Result<(NodeTable, Desk), Fail>
    ensures { IfOk result (λ opened. IsDeskOf opened.0 opened.1) }
{
    let rule = Rule::read(b"B3/S23")?;
    match NodeTable::open(rt.alloc(), still, rule, exponent) {
        Ok(opened) => Ok(opened),
        Err((same, refusal)) => {
            assert_eq!(rt; refusal, Refusal::NoMemory);
            println!(rt; "not opened")?;
            open_table(rt.alloc(), same, rule, exponent)
        }
    }
}

/// The words of a table without a square, where there is memory for them.
pub(crate) fn empty_words<R: Abort + AllocGlobal + Print>(
    rt: &R,
    pairs: u32,
) -> Result<Option<Still>, Fail> {
    assert!(rt; Shape::is_pair_count(pairs));
    match Still::empty(rt.alloc(), pairs) {
        Ok(still) => Ok(Some(still)),
        Err(refusal) => {
            assert_eq!(rt; refusal, Refusal::NoMemory);
            println!(rt; "no words")?;
            Ok(None)
        }
    }
}

// The words in which a glider's square and its future were made, and these squares.
fn words_with_future<R: Abort + AllocGlobal + Print>(
    rt: &R,
    still: Still,
) -> Result<(Still, Sq, Sq), Fail>
    ensures { IfOk result (λ made. IsKnown (book_in made.0) made.1.level made.1) }
{
    let (table, desk) = opened(rt, still, 2)?;
    let mut at = table.at(desk);
    let made = glider_and_future(&mut at);
    let desk = at.leave();
    let words = table.close(desk);
    let (sq, later) = made?;
    Ok((words, sq, later))
}

#[test]
fn words_come_back_for_want_of_memory(rt: HostRuntime) -> Result<(), Fail> {
    let Some(still) = empty_words(&rt, PAIRS)? else {
        return Ok(());
    };
    let (words, sq, later) = words_with_future(&rt, still)?;
    let (table, desk) = opened(&rt, words, 2)?;
    assert_eq!(rt; glider_and_result(&mut table.at(desk))?, (sq, Some(later)));
    Ok(())
}

// The fresh words, where there was memory for them.
fn fresh<R: Abort + Print>(
    rt: &R,
    first: Result<(Still, Sq), Refusal>,
) -> Result<Option<Still>, Fail> {
    match first {
        Ok((copy, _)) => Ok(Some(copy)),
        Err(refusal) => {
            assert_eq!(rt; refusal, Refusal::NoMemory);
            println!(rt; "not copied")?;
            Ok(None)
        }
    }
}

// These words, and whether there was memory for a copy of a glider's square in them.
fn copied_in_want<R: Abort + AllocGlobal + Print + Threads + Sync>(
    rt: &R,
    words: Still,
    keep: Keep,
) -> Result<(Still, bool), Fail> {
    let (table, desk) = opened(rt, words, 2)?;
    let mut at = table.at(desk);
    let found = glider(&mut at);
    let desk = at.leave();
    let copying = Copying {
        keep,
        pairs: PAIRS,
        workers: 1,
    };
    let copied = copied_from(rt, table, desk, found?, copying)?;
    let is_made = fresh(rt, copied.made)?.is_some();
    Ok((copied.words, is_made))
}

#[test]
fn words_stay_for_want_of_memory(rt: HostRuntime) -> Result<(), Fail> {
    let Some(still) = empty_words(&rt, PAIRS)? else {
        return Ok(());
    };
    let (words, sq, later) = words_with_future(&rt, still)?;
    assert!(rt; Shape::is_pair_count(PAIRS));
    let swept = fresh(&rt, sweep(rt.alloc(), &words, sq, PAIRS))?;
    let (words, is_enlarged) = copied_in_want(&rt, words, Keep::Everything)?;
    let collected = Keep::Collected(COLLECTION_SHARES);
    let (words, is_collected) = copied_in_want(&rt, words, collected)?;
    assert!(rt; swept.is_some() || is_enlarged || is_collected);
    let (table, desk) = opened(&rt, words, 2)?;
    assert_eq!(rt; glider_and_result(&mut table.at(desk))?, (sq, Some(later)));
    Ok(())
}
