//! Squares copied into fresh words: which leaves and results come along, and what has no room.

ghost use Rattle.std.specs.Prelude.{◌≤◌, IfOk};
ghost use Rattle.squares.specs.Book.{IsKnown, Keeps};
ghost use Rattle.node_table.specs.Stills.{book_in};

use crate::tests::leaves::make_leaves;
use crate::tests::tables::{PAIRS, empty_table, open_table};
use hashlife_step::{Tally, future, step};
use node_sweep::sweep;
use node_table::Still;
use plane::Refusal;
use rule_text::Rule;
use sample_patterns::R_PENTOMINO_LEAVES;
use squares::{PlainBook, Sq, Squares, copy_square, join_leaves};
use std::alloc::Global;
use std::process::Abort;
use std::test::Fail;
use table_core::Shape;
use viewport::population;

/// What is made at a table, and which square of it is the root.
#[derive(Clone, Copy)]
pub(crate) enum Made {
    /// Leaves of the words 1 to 256, and a square with one of them.
    OneLeafOfMany,
    /// A square of 256 leaves, all of them different.
    SmallerLeaves,
    /// A square of 1024 leaves, all of them different.
    LargerLeaves,
    /// A square with a result, and beside it in the root the leaf of that result, or nothing.
    Result { is_reached: bool },
    /// The R-pentomino, and what comes of it in one step.
    Step,
    /// The same, but what comes of it is the root.
    Stepped,
}

// A square of a level whose leaves are the words from the first on, one after the other.
fn different_leaves<S: Squares>(book: &mut S, level: u8, first: u64) -> Result<Sq, Refusal>
    requires { (3 ≤ level) × (level ≤ 8) }
    ensures known { IfOk result (IsKnown (S.book book.new) level) }
    ensures keeps { Keeps (S.book book.old) (S.book book.new) }
{
    if level == 3 {
        return book.leaf(first);
    }
    let more = 1u64 << (2 * (level - 4));
    let nw = different_leaves(book, level - 1, first)?;
    let ne = different_leaves(book, level - 1, first.wrapping_add(more))?;
    let sw = different_leaves(book, level - 1, first.wrapping_add(2 * more))?;
    let se = different_leaves(book, level - 1, first.wrapping_add(3 * more))?;
    book.quad([nw, ne, sw, se])
}

// A square of level 4 with a result, and the leaf of that result.
fn square_and_result<S: Squares>(book: &mut S) -> Result<(Sq, Sq), Refusal>
    ensures sq { IfOk result (λ made. IsKnown (S.book book.new) 4 made.0) }
    ensures result { IfOk result (λ made. IsKnown (S.book book.new) 3 made.1) }
    ensures keeps { Keeps (S.book book.old) (S.book book.new) }
{
    let sq = join_leaves(book, [0x1818000000, 0x3c00000000, 0, 0x1818000000])?;
    let later = future(book, sq, &mut Tally { expansions: 0 })?;
    Ok((sq, later))
}

// A square with that one in it, and the leaf of its result beside it, or nothing.
fn beside_result<S: Squares>(book: &mut S, is_reached: bool) -> Result<Sq, Refusal>
    ensures known { IfOk result (IsKnown (S.book book.new) 5) }
    ensures keeps { Keeps (S.book book.old) (S.book book.new) }
{
    let (sq, later) = square_and_result(book)?;
    let empty = book.leaf(0)?;
    let leaf = if is_reached { later } else { empty };
    let other = book.quad([leaf, empty, empty, empty])?;
    book.quad([sq, other, other, other])
}

/// Makes what is asked for, and answers the root.
pub(crate) fn make<S: Squares>(book: &mut S, made: Made) -> Result<Sq, Refusal>
    requires { (S.book book.old).exponent ≤ 62 }
    ensures known { IfOk result (λ sq. IsKnown (S.book book.new) sq.level sq) }
    ensures keeps { Keeps (S.book book.old) (S.book book.new) }
{
    match made {
        Made::OneLeafOfMany => {
            make_leaves(book, 1, 256);
            join_leaves(book, [7; 4])
        }
        Made::SmallerLeaves => different_leaves(book, 7, 1),
        Made::LargerLeaves => different_leaves(book, 8, 1),
        Made::Result { is_reached } => beside_result(book, is_reached),
        Made::Step => {
            let root = join_leaves(book, R_PENTOMINO_LEAVES)?;
            step(book, root, &mut Tally { expansions: 0 })?;
            Ok(root)
        }
        Made::Stepped => {
            let root = join_leaves(book, R_PENTOMINO_LEAVES)?;
            step(book, root, &mut Tally { expansions: 0 })
        }
    }
}

// The words of a table in which it is made under this exponent, and the root.
fn words_of(
    rt: &(impl Abort + AllocGlobal),
    made: Made,
    pairs: u32,
    exponent: u8,
) -> Result<(Still, Sq), Fail>
    ensures { IfOk result (λ made. IsKnown (book_in made.0) made.1.level made.1) }
{
    let (table, desk) = empty_table(rt.alloc(), pairs, exponent)?;
    let mut at = table.at(desk);
    assert!(rt; at.exponent() <= 62);
    let root = make(&mut at, made);
    let desk = at.leave();
    let words = table.close(desk);
    Ok((words, root?))
}

/// Whether two squares have the same cells.
pub(crate) fn are_same(
    alloc: Global,
    first: (&Still, Sq),
    second: (&Still, Sq),
) -> Result<bool, Fail>
    requires first { IsKnown (book_in first.0.now) first.1.level first.1 }
    requires second { IsKnown (book_in second.0.now) second.1.level second.1 }
{
    let mut plain = PlainBook::new(alloc, Rule::read(b"B3/S23")?, 0);
    let one = copy_square(alloc, first.0, first.1, &mut plain)?;
    Ok(copy_square(alloc, second.0, second.1, &mut plain)? == one)
}

#[test]
fn one_leaf_of_256_stays(rt: HostRuntime) -> Result<(), Fail> {
    let (words, root) = words_of(&rt, Made::OneLeafOfMany, PAIRS, 5)?;
    assert!(rt; Shape::is_pair_count(PAIRS));
    let (swept, copy) = sweep(rt.alloc(), &words, root, PAIRS)?;
    assert!(rt; are_same(rt.alloc(), (&words, root), (&swept, copy))?);
    let (table, desk) = open_table(rt.alloc(), swept, Rule::read(b"B3/S23")?, 5)?;
    let mut at = table.at(desk);
    assert_eq!(rt; make_leaves(&mut at, 1000, 1254), 255);
    assert_eq!(rt; make_leaves(&mut at, 7, 7), 1);
    assert_eq!(rt; make_leaves(&mut at, 2000, 2000), 0);
    Ok(())
}

// 256 different leaves and the 255 pairs above them have room in the smallest table.
#[test]
fn few_words_have_room(rt: HostRuntime) -> Result<(), Fail> {
    let (words, root) = words_of(&rt, Made::SmallerLeaves, 4 * PAIRS, 5)?;
    assert!(rt; Shape::is_pair_count(PAIRS));
    let (swept, copy) = sweep(rt.alloc(), &words, root, PAIRS)?;
    assert!(rt; are_same(rt.alloc(), (&words, root), (&swept, copy))?);
    Ok(())
}

// 1024 different leaves have no room in the smallest table, and the words from which they were to
// be copied are as they were.
#[test]
fn many_words_have_no_room(rt: HostRuntime) -> Result<(), Fail> {
    let (words, root) = words_of(&rt, Made::LargerLeaves, 16 * PAIRS, 5)?;
    assert!(rt; Shape::is_pair_count(PAIRS));
    let refused = sweep(rt.alloc(), &words, root, PAIRS).map(|swept| swept.1);
    assert_eq!(rt; refused, Err(Refusal::NodesFull));
    let (fresh, same) = words_of(&rt, Made::LargerLeaves, 16 * PAIRS, 5)?;
    assert!(rt; are_same(rt.alloc(), (&words, root), (&fresh, same))?);
    Ok(())
}

// The R-pentomino after 1024 generations, in tables of half, the same and twice the size.
#[test]
fn a_swept_square_has_its_cells(rt: HostRuntime) -> Result<(), Fail> {
    let (words, root) = words_of(&rt, Made::Stepped, 262144, 10)?;
    for pairs in [131072, 262144, 524288] {
        assert!(rt; Shape::is_pair_count(pairs));
        let (swept, copy) = sweep(rt.alloc(), &words, root, pairs)?;
        assert!(rt; are_same(rt.alloc(), (&words, root), (&swept, copy))?);
        let mut plain = PlainBook::new(rt.alloc(), Rule::read(b"B3/S23")?, 0);
        let cells = copy_square(rt.alloc(), &swept, copy, &mut plain)?;
        assert!(rt; cells.level <= 63);
        assert_eq!(rt; population(rt.alloc(), &plain, cells)?, 162);
    }
    Ok(())
}

fn has_result<S: Squares>(book: &mut S) -> Result<bool, Refusal> {
    let sq = join_leaves(book, [0x1818000000, 0x3c00000000, 0, 0x1818000000])?;
    Ok(book.recall(sq).is_some())
}

// The result of a square stays where its leaf is reached too, and goes where it isn't.
#[test]
fn results_that_are_reached_stay(rt: HostRuntime) -> Result<(), Fail> {
    for is_reached in [true, false] {
        let (words, root) = words_of(&rt, Made::Result { is_reached }, PAIRS, 3)?;
        assert!(rt; Shape::is_pair_count(PAIRS));
        let (swept, _) = sweep(rt.alloc(), &words, root, PAIRS)?;
        let (table, desk) = open_table(rt.alloc(), swept, Rule::read(b"B3/S23")?, 3)?;
        assert_eq!(rt; has_result(&mut table.at(desk))?, is_reached);
    }
    Ok(())
}
