//! Plans, paddings, futures and steps of squares.

ghost use Rattle.std.specs.Prelude.{IfOk};
ghost use Rattle.squares.specs.Book.{IsKnown};

use crate::tests::books::{book_of, root_of_cells, rule_of};
use crate::tests::places::{cell_at, next_of};
use crate::tests::rows::assert_no_row;
use hashlife_step::{Tally, future, pad, plan, step, trim};
use plane::{CellSet, Refusal};
use rule_text::Rule;
use sample_patterns::BLINKER_LEAVES;
use squares::{Look, PlainBook, Sq, Squares, join_leaves};
use std::alloc::Global;

// A number of generations, and the exponents of its steps.
const PLANS: &[(u64, &[u8])] = &[
    (0, &[]),
    (1, &[0]),
    (10, &[1, 3]),
    (1103, &[0, 1, 2, 3, 6, 10]),
    (1099511627776, &[40]),
    (
        u64::MAX - 3 * (1 << 62),
        &[
            0, 1, 2, 3, 4, 5, 6, 7, 8, 9, 10, 11, 12, 13, 14, 15, 16, 17, 18, 19, 20, 21, 22, 23,
            24, 25, 26, 27, 28, 29, 30, 31, 32, 33, 34, 35, 36, 37, 38, 39, 40, 41, 42, 43, 44, 45,
            46, 47, 48, 49, 50, 51, 52, 53, 54, 55, 56, 57, 58, 59, 60, 61,
        ],
    ),
];

fn first_wrong_plan(rows: &[(u64, &[u8])]) -> Option<usize> {
    for (row, (generations, exponents)) in rows.iter().enumerate() {
        if plan(*generations).as_slice() != *exponents {
            return Some(row);
        }
    }
    None
}

#[test]
fn plans_of_worked_numbers(rt: HostRuntime) {
    assert_no_row(&rt, first_wrong_plan(PLANS));
}

// The level of a root, an exponent, and the level that the root is padded to.
const PADDINGS: &[(u8, u8, u8)] = &[
    (3, 0, 5),
    (3, 2, 5),
    (3, 3, 6),
    (3, 62, 65),
    (4, 0, 6),
    (4, 3, 6),
    (4, 4, 7),
    (4, 40, 43),
    (61, 0, 63),
    (61, 60, 63),
    (63, 62, 65),
];

// A root that has one cell, of level 3 or 4 or of a level from 7 on.
fn root_of<S: Squares>(book: &mut S, level: u8) -> Result<Sq, Refusal>
    ensures { IfOk result (λ sq. IsKnown (S.book book.new) sq.level sq) }
{
    if level == 3 {
        return book.leaf(1);
    }
    let root = join_leaves(book, [0, 0, 0, 1])?;
    if level < 7 || level > 65 {
        return Ok(root);
    }
    pad(book, root, level - 3)
}

// Pads the root, and trims it again. Answers the levels after both.
fn padded_and_trimmed<S: Squares>(book: &mut S, root: Sq, exponent: u8) -> Result<(u8, u8), Refusal>
    requires { IsKnown (S.book book.old) root.level root }
{
    if root.level > 63 || exponent > 62 {
        return Err(Refusal::OutOfRange);
    }
    let padded = pad(book, root, exponent)?;
    let trimmed = trim(book, padded)?;
    Ok((padded.level, trimmed.level))
}

// The levels of a root of this level when it was padded, and when it was trimmed again.
fn levels(alloc: Global, level: u8, exponent: u8) -> Result<(u8, u8), Refusal> {
    let mut book = book_of(alloc, "B3/S23", exponent)?;
    let root = root_of(&mut book, level)?;
    padded_and_trimmed(&mut book, root, exponent)
}

fn first_wrong_padding(alloc: Global, rows: &[(u8, u8, u8)]) -> Option<usize> {
    for (row, (level, exponent, padded)) in rows.iter().enumerate() {
        if levels(alloc, *level, *exponent) != Ok((*padded, 4)) {
            return Some(row);
        }
    }
    None
}

#[test]
fn levels_of_worked_paddings(rt: HostRuntime) {
    assert_no_row(&rt, first_wrong_padding(rt.alloc(), PADDINGS));
}

// A leaf, and the four leaves of the square of level 4 that has it in its middle: each corner of
// the leaf, a glider, a row, all cells, and none.
const SURROUNDED: &[(u64, [u64; 4])] = &[
    (1, [1 << 36, 0, 0, 0]),
    (1 << 7, [0, 1 << 35, 0, 0]),
    (1 << 56, [0, 0, 1 << 28, 0]),
    (1 << 63, [0, 0, 0, 1 << 27]),
    (0x70402, [0x70402000000000, 0, 0, 0]),
    (0xff00000000, [0, 0, 0xf0, 0x0f]),
    (
        u64::MAX,
        [
            0xf0f0f0f000000000,
            0x0f0f0f0f00000000,
            0xf0f0f0f0,
            0x0f0f0f0f,
        ],
    ),
    (0, [0; 4]),
];

// The leaves of a square of level 4.
fn leaves_of<B: Look>(book: &B, sq: Sq) -> [u64; 4]
    requires { IsKnown (B.book book.now) 4 sq }
{
    let [nw, ne, sw, se] = book.parts(sq);
    [book.bits(nw), book.bits(ne), book.bits(sw), book.bits(se)]
}

// A leaf trimmed: its level, whether its number is 0, and its four leaves.
fn trimmed_leaf(alloc: Global, word: u64) -> Result<(u8, bool, [u64; 4]), Refusal> {
    let mut book = book_of(alloc, "B3/S23", 0)?;
    let leaf = book.leaf(word)?;
    let trimmed = trim(&mut book, leaf)?;
    let leaves = leaves_of(&book, trimmed);
    Ok((trimmed.level, trimmed.num.0 == 0, leaves))
}

fn first_wrong_leaf(alloc: Global, rows: &[(u64, [u64; 4])]) -> Option<usize> {
    for (row, (word, leaves)) in rows.iter().enumerate() {
        if trimmed_leaf(alloc, *word) != Ok((4, *word == 0, *leaves)) {
            return Some(row);
        }
    }
    None
}

// A leaf's corner (0,0) comes to (4,4), so that its centre stays the centre.
#[test]
fn leaves_in_the_middle(rt: HostRuntime) {
    assert_no_row(&rt, first_wrong_leaf(rt.alloc(), SURROUNDED));
}

// The cells of the future of a square of level 4.
fn future_bits(book: &mut PlainBook, sq: Sq, tally: &mut Tally) -> Result<u64, Refusal>
    requires { IsKnown (⟦<PlainBook as Squares>⟧.book book.old) 4 sq }
    ensures { IsKnown (⟦<PlainBook as Squares>⟧.book book.new) 4 sq }
{
    let result = future(book, sq, tally)?;
    Ok(book.bits(result))
}

// The cells of the future of a square of level 4, and the tally after it was asked for once and
// twice.
fn future_twice(alloc: Global, exponent: u8, leaves: [u64; 4]) -> Result<(u64, u64, u64), Refusal> {
    let mut book = book_of(alloc, "B3/S23", exponent)?;
    let sq = join_leaves(&mut book, leaves)?;
    let mut tally = Tally { expansions: 0 };
    future_bits(&mut book, sq, &mut tally)?;
    let once = tally.expansions;
    let again = future_bits(&mut book, sq, &mut tally)?;
    Ok((again, once, tally.expansions))
}

// An exponent, a square of level 4, and the cells of its future and the tally after each time.
const FUTURES: &[(u8, [u64; 4], (u64, u64, u64))] = &[
    (0, BLINKER_LEAVES, (0x1010100000, 1, 1)),
    (1, BLINKER_LEAVES, (0x38000000, 1, 1)),
    (2, BLINKER_LEAVES, (0x38000000, 1, 1)),
    (40, BLINKER_LEAVES, (0x38000000, 1, 1)),
    (0, [0; 4], (0, 0, 0)),
];

fn first_wrong_future(alloc: Global, rows: &[(u8, [u64; 4], (u64, u64, u64))]) -> Option<usize> {
    for (row, (exponent, leaves, wanted)) in rows.iter().enumerate() {
        if future_twice(alloc, *exponent, *leaves) != Ok(*wanted) {
            return Some(row);
        }
    }
    None
}

#[test]
fn futures_are_made_once(rt: HostRuntime) {
    assert_no_row(&rt, first_wrong_future(rt.alloc(), FUTURES));
}

// The root after a step of the book.
fn stepped<S: Squares>(book: &mut S, root: Sq) -> Result<Sq, Refusal>
    requires { IsKnown (S.book book.old) root.level root }
{
    if root.level > 60 || book.exponent() > 62 {
        return Err(Refusal::OutOfRange);
    }
    step(book, root, &mut Tally { expansions: 0 })
}

// The level of the square around (0,0) of a glider that began right of and below (0,0), after a
// step.
fn level_of_stepped_glider(alloc: Global, exponent: u8) -> Result<u8, Refusal> {
    let mut book = book_of(alloc, "B3/S23", exponent)?;
    let root = join_leaves(&mut book, [0, 0, 0, 0x70402])?;
    Ok(stepped(&mut book, root)?.level)
}

// An exponent, and the level of the glider's square after a step.
const FAR: &[(u8, u8)] = &[(0, 4), (4, 4), (5, 5), (6, 6), (40, 40), (62, 62)];

fn first_wrong_level(alloc: Global, rows: &[(u8, u8)]) -> Option<usize> {
    for (row, (exponent, level)) in rows.iter().enumerate() {
        if level_of_stepped_glider(alloc, *exponent) != Ok(*level) {
            return Some(row);
        }
    }
    None
}

// A glider goes one cell right and down in four generations.
#[test]
fn a_glider_goes_far(rt: HostRuntime) {
    assert_no_row(&rt, first_wrong_level(rt.alloc(), FAR));
}

// About a quarter of the cells of a square of 8 by 8 at (-4, -4), by a linear congruential
// generator.
fn soup(alloc: Global, seed: u32) -> Result<CellSet, Refusal> {
    let mut cells = CellSet::new(alloc);
    let mut word = seed;
    for y in -4..4i8 {
        for x in -4..4i8 {
            word = word.wrapping_mul(1664525).wrapping_add(1013904223);
            if word >> 16 & 3 == 0 {
                cells.insert(cell_at((x, y)))?;
            }
        }
    }
    Ok(cells)
}

// The cells after so many single generations.
fn later(
    alloc: Global,
    mut cells: CellSet,
    text: &str,
    generations: u64,
) -> Result<CellSet, Refusal> {
    let rule = rule_of(text)?;
    for _ in 0..generations {
        cells = next_of(alloc, &cells, &rule)?;
    }
    Ok(cells)
}

// Whether a step of a soup gives the square of the cells that single generations give.
fn step_agrees(alloc: Global, text: &str, exponent: u8, generations: u64) -> Result<bool, Refusal> {
    let cells = soup(alloc, u32::from(exponent))?;
    let mut book = book_of(alloc, text, exponent)?;
    let root = root_of_cells(alloc, &mut book, &cells)?;
    let root = stepped(&mut book, root)?;
    let cells = later(alloc, cells, text, generations)?;
    Ok(root_of_cells(alloc, &mut book, &cells)? == root)
}

// Rules of the three neighbourhoods, and exponents with their powers of two.
const SOUPS: &[(&str, u8, u64)] = &[
    ("B3/S23", 0, 1),
    ("B3/S23", 3, 8),
    ("B3/S23", 6, 64),
    ("B2/S34H", 1, 2),
    ("B2/S34H", 4, 16),
    ("B13/S024V", 2, 4),
    ("B13/S024V", 4, 16),
    ("B1357/S1357", 3, 8),
];

fn first_wrong_soup(alloc: Global, rows: &[(&str, u8, u64)]) -> Option<usize> {
    for (row, (text, exponent, generations)) in rows.iter().enumerate() {
        if step_agrees(alloc, text, *exponent, *generations) != Ok(true) {
            return Some(row);
        }
    }
    None
}

#[test]
fn steps_of_soups(rt: HostRuntime) {
    assert_no_row(&rt, first_wrong_soup(rt.alloc(), SOUPS));
}
