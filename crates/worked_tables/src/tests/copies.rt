//! Copies as they were planned at an open table: growths and collections.

ghost use Rattle.std.specs.Prelude.{◌≤◌, IfOk};
ghost use Rattle.std.proofs.Props.{props};
ghost use Rattle.squares.specs.Book.{IsKnown};
ghost use Rattle.node_table.specs.Desks.{IsDeskOf, book_at};
ghost use Rattle.node_table.specs.Stills.{book_in};

use crate::tests::leaves::make_leaves;
use crate::tests::sweeps::{Made, are_same, make};
use crate::tests::tables::{PAIRS, empty_table, open_table};
use hashlife_step::{Tally, step};
use node_sweep::{BlankWords, CopyPlan, Finished, Keep, Workers, copy, sweep};
use node_table::{Desk, NodeTable, Still};
use plane::Refusal;
use rule_text::Rule;
use sample_patterns::R_PENTOMINO_LEAVES;
use squares::{Sq, Squares, join_leaves};
use std::process::Abort;
use std::test::Fail;
use std::thread::Threads;
use table_core::{Kind, Shape};
use table_growth::{COLLECTION_SHARES, has_come_far};

const COLLECTED: Keep = Keep::Collected(COLLECTION_SHARES);

/// How a copy is made.
#[derive(Clone, Copy)]
pub(crate) struct Copying {
    pub(crate) keep: Keep,
    /// How many pair slots the new words have.
    pub(crate) pairs: u32,
    pub(crate) workers: usize,
}

/// Words of which a square was copied, and what came of it.
#[derive(Drop)]
pub(crate) struct Copied {
    pub(crate) words: Still,
    pub(crate) root: Sq,
    pub(crate) made: Result<(Still, Sq), Refusal>,
    finished: Option<Finished>,
    ghost known: { IsKnown (book_in words) root.level root },
    ghost copy_known: { IfOk made (λ made. IsKnown (book_in made.0) made.1.level made.1) } by { Prim.hlevel props },
}

/// A known square of a table, copied as it is planned there; the table is closed before.
pub(crate) fn copied_from<R: Abort + AllocGlobal + Threads + Sync>(
    rt: &R,
    table: NodeTable,
    desk: Desk,
    root: Sq,
    copying: Copying,
) -> Result<Copied, Fail>
    requires desk { IsDeskOf table desk }
    requires known { IsKnown (book_at table desk) root.level root }
{
    let Copying {
        keep,
        pairs,
        workers,
    } = copying;
    let workers = Workers {
        runtime: rt,
        alloc: rt.alloc(),
        count: workers,
    };
    assert!(rt; Shape::is_pair_count(pairs));
    let shape = Shape::new(pairs);
    let plan = CopyPlan::of_table(&workers, &table, root, keep, shape);
    let words = table.close(desk);
    let plan = match plan {
        Ok(plan) => plan,
        Err(_) => return Ok(not_copied(words, root)),
    };
    let finished = plan.finished();
    let made = match BlankWords::new(rt.alloc(), words.key(), shape) {
        Ok(blank) => copy(rt.alloc(), &words, root, &plan, blank),
        Err(_) => Err(Refusal::NoMemory),
    };
    Ok(Copied {
        words,
        root,
        made,
        finished,
    })
}

// A square that was not copied for want of memory.
fn not_copied(words: Still, root: Sq) -> Copied
    requires { IsKnown (book_in words) root.level root }
{
    Copied {
        words,
        root,
        made: Err(Refusal::NoMemory),
        finished: None,
    }
}

// What is made at a table of so many pair slots under this exponent, copied. The copy has the same
// cells.
fn make_and_copy<R: Abort + AllocGlobal + Threads + Sync>(
    rt: &R,
    made: Made,
    pairs: u32,
    exponent: u8,
    copying: Copying,
) -> Result<Copied, Fail> {
    let (table, desk) = empty_table(rt.alloc(), pairs, exponent)?;
    let mut at = table.at(desk);
    assert!(rt; at.exponent() <= 62);
    let root = make(&mut at, made);
    let desk = at.leave();
    let copied = copied_from(rt, table, desk, root?, copying)?;
    if let Ok((still, copy)) = &copied.made {
        let original = (&copied.words, copied.root);
        assert!(rt; are_same(rt.alloc(), original, (still, *copy))?);
    }
    Ok(copied)
}

// All leaves of a full table stay where it is enlarged, and one of twice the size has room for one
// more.
#[test]
fn all_leaves_of_256_stay(rt: HostRuntime) -> Result<(), Fail> {
    for (pairs, more) in [(PAIRS, 0), (2 * PAIRS, 1)] {
        let copying = Copying {
            keep: Keep::Everything,
            pairs,
            workers: 1,
        };
        let copied = make_and_copy(&rt, Made::OneLeafOfMany, PAIRS, 5, copying)?;
        let (still, _) = copied.made?;
        let (table, desk) = open_table(rt.alloc(), still, Rule::read(b"B3/S23")?, 5)?;
        let mut at = table.at(desk);
        assert_eq!(rt; make_leaves(&mut at, 1, 256), 256);
        assert_eq!(rt; make_leaves(&mut at, 1000, 1000), more);
    }
    Ok(())
}

// 1024 different leaves have no room in the smallest table.
#[test]
fn many_planned_words_have_no_room(rt: HostRuntime) -> Result<(), Fail> {
    for keep in [Keep::Everything, COLLECTED] {
        let copying = Copying {
            keep,
            pairs: PAIRS,
            workers: 1,
        };
        let copied = make_and_copy(&rt, Made::LargerLeaves, 16 * PAIRS, 5, copying)?;
        let refused = copied.made.map(|made| made.1);
        assert_eq!(rt; refused, Err(Refusal::NodesFull));
    }
    Ok(())
}

// The number of squares that a step expands at these words.
fn expansions_at(rt: &(impl Abort + AllocGlobal), words: Still) -> Result<u64, Fail> {
    let (table, desk) = open_table(rt.alloc(), words, Rule::read(b"B3/S23")?, 10)?;
    let mut at = table.at(desk);
    assert!(rt; at.exponent() <= 62);
    Ok(step_again(&mut at)?)
}

// A step whose square has its result is recalled after a collection, and made anew after a sweep,
// in tables of the same size and of half of it.
fn assert_recalled<R: Abort + AllocGlobal + Threads + Sync>(
    rt: &R,
    pairs: u32,
) -> Result<(), Fail> {
    let copying = Copying {
        keep: COLLECTED,
        pairs,
        workers: 2,
    };
    let copied = make_and_copy(rt, Made::Step, 262144, 10, copying)?;
    let (collected, _) = copied.made?;
    assert_eq!(rt; expansions_at(rt, collected)?, 0);
    assert!(rt; Shape::is_pair_count(pairs));
    let (swept, _) = sweep(rt.alloc(), &copied.words, copied.root, pairs)?;
    assert!(rt; expansions_at(rt, swept)? > 0);
    Ok(())
}

#[test]
fn a_step_is_recalled_after_a_collection(rt: HostRuntime) -> Result<(), Fail> {
    assert_recalled(&rt, 131072)?;
    assert_recalled(&rt, 262144)
}

/// What is finished after a step of the R-pentomino.
pub(crate) fn finished_after_step<R: Abort + AllocGlobal + Threads + Sync>(
    rt: &R,
) -> Result<Finished, Fail> {
    let copying = Copying {
        keep: COLLECTED,
        pairs: 262144,
        workers: 1,
    };
    let copied = make_and_copy(rt, Made::Step, 262144, 10, copying)?;
    Ok(copied.finished.ok_or(Refusal::NodesFull)?)
}

fn step_again<S: Squares>(book: &mut S) -> Result<u64, Refusal>
    requires { (S.book book.old).exponent ≤ 62 }
{
    let mut tally = Tally { expansions: 0 };
    let root = join_leaves(book, R_PENTOMINO_LEAVES)?;
    step(book, root, &mut tally)?;
    Ok(tally.expansions)
}

// How many pairs and how many results these words have.
fn pairs_and_results(words: &Still) -> (u32, u32) {
    let shape = words.key().shape;
    let (mut pairs, mut results) = (0u32, 0u32);
    for slot in 0..shape.slot_count(Kind::Pair) {
        let pair = shape.index(Kind::Pair, slot);
        if words.words().word(pair as usize) != 0 {
            pairs = pairs.saturating_add(1);
        }
        if words.words().word(shape.result_index(pair) as usize) != 0 {
            results = results.saturating_add(1);
        }
    }
    (pairs, results)
}

// A step that is begun again in a larger table finds all that it made: no pair and no result is
// lost, with any number of workers.
#[test]
fn nothing_is_lost_in_a_larger_table(rt: HostRuntime) -> Result<(), Fail> {
    for workers in [1, 2, 4] {
        let copying = Copying {
            keep: Keep::Everything,
            pairs: 1048576,
            workers,
        };
        let copied = make_and_copy(&rt, Made::Step, 524288, 10, copying)?;
        let (larger, _) = copied.made?;
        let counts = pairs_and_results(&larger);
        assert_eq!(rt; counts, pairs_and_results(&copied.words));
        assert!(rt; counts.1 > 0);
        let (table, desk) = open_table(rt.alloc(), larger, Rule::read(b"B3/S23")?, 10)?;
        let mut at = table.at(desk);
        assert!(rt; at.exponent() <= 62);
        assert_eq!(rt; step_again(&mut at)?, 0);
    }
    Ok(())
}

// A step of 2^7 generations has come far where more than 100 squares of level 4 are known, and one
// of 2^8 where as many of level 5 are.
fn assert_come_far<R: Abort + AllocGlobal + Threads + Sync>(
    rt: &R,
    made: Made,
    exponent: u8,
    is_far: bool,
) -> Result<(), Fail> {
    let (table, desk) = empty_table(rt.alloc(), 16 * PAIRS, exponent)?;
    let mut at = table.at(desk);
    assert!(rt; at.exponent() <= 62);
    let root = make(&mut at, made)?;
    let workers = Workers {
        runtime: rt,
        alloc: rt.alloc(),
        count: 1,
    };
    let shape = table.key().shape;
    let plan = CopyPlan::of_table(&workers, &table, root, Keep::Everything, shape)?;
    assert_eq!(rt; has_come_far(&plan, exponent), is_far);
    Ok(())
}

#[test]
fn many_small_squares_show_how_far_a_step_has_come(rt: HostRuntime) -> Result<(), Fail> {
    assert_come_far(&rt, Made::LargerLeaves, 7, true)?;
    assert_come_far(&rt, Made::LargerLeaves, 8, false)?;
    assert_come_far(&rt, Made::SmallerLeaves, 7, false)?;
    assert_come_far(&rt, Made::LargerLeaves, 6, false)
}
