//! Squares and their numbers, from cells, runs and leaves.

use crate::tests::books::{book_of, root_at};
use crate::tests::places::Place;
use crate::tests::rows::assert_same;
use plane::{Cell, Refusal};
use sample_patterns::BLINKER_LEAVES;
use squares::{Num, PlainBook, Sq, Squares, centre, copy_square, join_leaves, runs_to_square};
use std::alloc::Global;
use std::process::Abort;

// A glider, as its cells, as runs and as the bits of a leaf.
const GLIDER: [Place; 5] = [(1, 0), (2, 1), (0, 2), (1, 2), (2, 2)];

const GLIDER_RUNS: [(Cell, u64); 3] = [
    (Cell { y: 0, x: 1 }, 1),
    (Cell { y: 1, x: 2 }, 1),
    (Cell { y: 2, x: 0 }, 3),
];

const GLIDER_BITS: u64 = 0x7_0402;

fn life_book(alloc: Global) -> Result<PlainBook, Refusal> {
    book_of(alloc, "B3/S23", 2)
}

// The glider's squares by its runs, by its cells and by its leaf.
fn gliders(alloc: Global, book: &mut PlainBook) -> Result<[Sq; 3], Refusal> {
    let of_runs = runs_to_square(alloc, book, &GLIDER_RUNS)?;
    let of_cells = root_at(alloc, book, &GLIDER)?;
    let square = join_leaves(book, [0, 0, 0, GLIDER_BITS])?;
    Ok([of_runs, of_cells, square])
}

#[test]
fn cells_and_runs_make_one_square(rt: HostRuntime) -> Result<(), Refusal> {
    let mut book = life_book(rt.alloc())?;
    let squares = gliders(rt.alloc(), &mut book)?;
    assert_same(&rt, squares, [squares[2]; 3]);
    Ok(())
}

const FIRST: i64 = -(1 << 62);

const LAST: i64 = (1 << 62) - 1;

// A run and the level of its square.
const LEVELS: [(Cell, u64, u8); 7] = [
    (Cell { y: -8, x: -8 }, 16, 4),
    (Cell { y: 7, x: 7 }, 1, 4),
    (Cell { y: 8, x: 0 }, 1, 5),
    (Cell { y: 0, x: 0 }, 9, 5),
    (Cell { y: 3, x: -9 }, 1, 5),
    (Cell { y: LAST, x: LAST }, 1, 63),
    (Cell { y: 0, x: FIRST }, 1, 63),
];

fn assert_levels<R: Abort>(rt: &R, alloc: Global, book: &mut PlainBook) -> Result<(), Refusal> {
    for (cell, count, level) in LEVELS {
        let square = runs_to_square(alloc, book, &[(cell, count)])?;
        assert_same(rt, square.level, level);
    }
    Ok(())
}

#[test]
fn levels_of_runs(rt: HostRuntime) -> Result<(), Refusal> {
    let mut book = life_book(rt.alloc())?;
    assert_levels(&rt, rt.alloc(), &mut book)
}

#[test]
fn no_runs_make_the_empty_square(rt: HostRuntime) -> Result<(), Refusal> {
    let mut book = life_book(rt.alloc())?;
    let none = Sq {
        level: 4,
        num: Num(0),
    };
    assert_same(&rt, runs_to_square(rt.alloc(), &mut book, &[]), Ok(none));
    Ok(())
}

// A square of level 5 with the leaves 1, 2, 3 and 4 round its centre, and 1 at its first corner.
const ROUND_THE_CENTRE: [(Cell, u64); 5] = [
    (Cell { y: -16, x: -16 }, 1),
    (Cell { y: -8, x: -8 }, 1),
    (Cell { y: -8, x: 1 }, 1),
    (Cell { y: 0, x: -8 }, 2),
    (Cell { y: 0, x: 2 }, 1),
];

// Its nine squares and its centre.
fn inner_squares(alloc: Global, book: &mut PlainBook) -> Result<([Sq; 9], Sq), Refusal> {
    let whole = runs_to_square(alloc, book, &ROUND_THE_CENTRE)?;
    if whole.level != 5 {
        return Err(Refusal::OutOfRange);
    }
    let middle = centre(book, whole)?;
    Ok((book.nine(whole)?, middle))
}

// The leaves of the nine squares.
const NINE: [[u64; 4]; 9] = [
    [1, 0, 0, 1],
    [0, 0, 1, 2],
    [0, 0, 2, 0],
    [0, 1, 0, 3],
    [1, 2, 3, 4],
    [2, 0, 4, 0],
    [0, 3, 0, 0],
    [3, 4, 0, 0],
    [4, 0, 0, 0],
];

fn squares_of_nine<S: Squares>(book: &mut S) -> Result<[Sq; 9], Refusal> {
    let none = Sq {
        level: 4,
        num: Num(0),
    };
    let mut squares = [none; 9];
    for place in 0..9usize {
        squares[place] = join_leaves(book, NINE[place])?;
    }
    Ok(squares)
}

#[test]
fn nine_squares_and_the_centre(rt: HostRuntime) -> Result<(), Refusal> {
    let mut book = life_book(rt.alloc())?;
    let inner = inner_squares(rt.alloc(), &mut book);
    let wanted = squares_of_nine(&mut book)?;
    assert_same(&rt, inner, Ok((wanted, wanted[4])));
    Ok(())
}

// The glider's square, made in one book and copied into another that has other squares, and the
// glider's square that the other makes.
fn copied(alloc: Global, from: &mut PlainBook, to: &mut PlainBook) -> Result<(Sq, Sq), Refusal> {
    join_leaves(to, [5, 6, 7, 8])?;
    let square = join_leaves(from, [0, 0, 0, GLIDER_BITS])?;
    let copy = copy_square(alloc, from, square, to)?;
    Ok((copy, join_leaves(to, [0, 0, 0, GLIDER_BITS])?))
}

#[test]
fn a_copy_in_another_book(rt: HostRuntime) -> Result<(), Refusal> {
    let mut from = life_book(rt.alloc())?;
    let mut to = life_book(rt.alloc())?;
    let (copy, square) = copied(rt.alloc(), &mut from, &mut to)?;
    assert_same(&rt, copy, square);
    Ok(())
}

// The result of the empty square, before and after it is kept.
fn results_of_nothing(book: &mut PlainBook) -> (Option<Sq>, Option<Sq>) {
    let none = Sq {
        level: 5,
        num: Num(0),
    };
    let before = book.recall(none);
    if let Some(future) = before {
        let _ = book.keep(none, future);
    }
    (before, book.recall(none))
}

#[test]
fn the_empty_square_has_a_result(rt: HostRuntime) -> Result<(), Refusal> {
    let mut book = life_book(rt.alloc())?;
    let empty = Sq {
        level: 4,
        num: Num(0),
    };
    let results = results_of_nothing(&mut book);
    assert_same(&rt, results, (Some(empty), Some(empty)));
    Ok(())
}

// Three live cells in a row in the middle of a square of level 4, and the leaf at its centre.
const BLINKER_CENTRE: u64 = 0x38000000;

fn centre_of_blinker(book: &mut PlainBook) -> Result<Sq, Refusal> {
    let blinker = join_leaves(book, BLINKER_LEAVES)?;
    centre(book, blinker)
}

#[test]
fn the_centre_of_level_four(rt: HostRuntime) -> Result<(), Refusal> {
    let mut book = life_book(rt.alloc())?;
    let middle = centre_of_blinker(&mut book);
    let wanted = book.leaf(BLINKER_CENTRE)?;
    assert_same(&rt, middle, Ok(wanted));
    Ok(())
}
