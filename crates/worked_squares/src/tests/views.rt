//! What squares show: their populations, boxes, rows and pictures.

ghost use Rattle.std.specs.Prelude.{◌≤◌, IfOk};
ghost use Rattle.squares.specs.Book.{IsKnown};

use crate::tests::books::{book_of, root_at};
use crate::tests::places::Place;
use crate::tests::rows::{assert_no_row, assert_same};
use plane::{Bounds, FailAt, Memory, Refusal, Sink, Window};
use squares::{Look, PlainBook, Sq, Squares};
use std::alloc::Global;
use viewport::{bounds, first_row, picture, population, population_at, row_runs};

/// The square of this level that has the leaf everywhere.
pub(crate) fn shared<S: Squares>(book: &mut S, word: u64, level: u8) -> Result<Sq, Refusal>
    requires low { 3 ≤ level }
    requires high { level ≤ 63 }
    ensures { IfOk result (IsKnown (S.book book.new) level) }
{
    if level == 3 {
        return book.leaf(word);
    }
    let quarter = shared(book, word, level - 1)?;
    book.quad([quarter; 4])
}

fn empty_book(alloc: Global) -> Result<PlainBook, Refusal> {
    book_of(alloc, "B3/S23", 0)
}

// The square of a level from 3 to 63 that has the leaf everywhere.
fn filled<S: Squares>(book: &mut S, word: u64, level: u8) -> Result<Sq, Refusal>
    ensures known { IfOk result (λ sq. IsKnown (S.book book.new) sq.level sq) }
    ensures level { IfOk result (λ sq. sq.level ≤ 63) }
{
    if level < 3 || level > 63 {
        return Err(Refusal::OutOfRange);
    }
    shared(book, word, level)
}

fn sides_of(bounds: Bounds) -> [i64; 4] {
    [bounds.left, bounds.top, bounds.right, bounds.bottom]
}

// How many cells the square has, and the sides of their box.
fn size_of(alloc: Global, word: u64, level: u8) -> Result<(u128, Option<[i64; 4]>), Refusal> {
    let mut book = empty_book(alloc)?;
    let sq = filled(&mut book, word, level)?;
    let sides = match bounds(alloc, &book, sq)? {
        Some(bounds) => Some(sides_of(bounds)),
        None => None,
    };
    Ok((population(alloc, &book, sq)?, sides))
}

// How many cells the square has, counted at the book that made it.
fn count_at_book(alloc: Global, word: u64, level: u8) -> Result<u128, Refusal> {
    let mut book = empty_book(alloc)?;
    let sq = filled(&mut book, word, level)?;
    population_at(alloc, &mut book, sq)
}

const FULL: u64 = u64::MAX;

const LOW: i64 = -4611686018427387904;

const HIGH: i64 = 4611686018427387903;

// A leaf, the level of the square that has it everywhere, how many cells that has, and the sides of
// their box. The last is the largest square, 2^63 cells on each side.
type Size = (u64, u8, u128, Option<[i64; 4]>);

const SIZES: &[Size] = &[
    (0, 3, 0, None),
    (0, 4, 0, None),
    (0, 63, 0, None),
    (1, 3, 1, Some([-4, -4, -4, -4])),
    (1, 4, 4, Some([-8, -8, 0, 0])),
    (0x76 << 16, 3, 5, Some([-3, -2, 2, -2])),
    (0x81, 4, 8, Some([-8, -8, 7, 0])),
    (FULL, 5, 1024, Some([-16, -16, 15, 15])),
    (
        FULL,
        63,
        85070591730234615865843651857942052864,
        Some([LOW, LOW, HIGH, HIGH]),
    ),
];

fn first_wrong_size(alloc: Global, rows: &[Size]) -> Option<usize> {
    for (row, (word, level, count, sides)) in rows.iter().enumerate() {
        if size_of(alloc, *word, *level) != Ok((*count, *sides)) {
            return Some(row);
        }
    }
    None
}

#[test]
fn populations_and_boxes(rt: HostRuntime) {
    assert_no_row(&rt, first_wrong_size(rt.alloc(), SIZES));
}

fn first_wrong_count(alloc: Global, rows: &[Size]) -> Option<usize> {
    for (row, (word, level, count, _)) in rows.iter().enumerate() {
        if count_at_book(alloc, *word, *level) != Ok(*count) {
            return Some(row);
        }
    }
    None
}

#[test]
fn populations_at_books(rt: HostRuntime) {
    assert_no_row(&rt, first_wrong_count(rt.alloc(), SIZES));
}

// The runs of a row, and the first live row from it on.
fn row_of(
    alloc: Global,
    word: u64,
    level: u8,
    y: i64,
) -> Result<(Vec<(i64, u64)>, Option<i64>), Refusal> {
    let mut book = empty_book(alloc)?;
    let sq = filled(&mut book, word, level)?;
    Ok((row_runs(alloc, &book, sq, y)?, first_row(&book, sq, y)))
}

// A leaf, the level of the square that has it everywhere, a row, its runs, and the first live row
// from it on.
type Runs = (u64, u8, i64, &'static [(i64, u64)], Option<i64>);

const ROWS: &[Runs] = &[
    (0, 3, 0, &[], None),
    (0, 63, -1, &[], None),
    (1, 3, -4, &[(-4, 1)], Some(-4)),
    (1, 4, 0, &[(-8, 1), (0, 1)], Some(0)),
    (1, 4, -7, &[], Some(0)),
    (1, 4, 1, &[], None),
    // Cells 1, 2, 4, 5 and 6 of the third row.
    (0x76 << 16, 3, -2, &[(-3, 2), (0, 3)], Some(-2)),
    // Both ends of the first row: two of them touch in the middle.
    (0x81, 4, -8, &[(-8, 1), (-1, 2), (7, 1)], Some(-8)),
    (FULL, 5, 15, &[(-16, 32)], Some(15)),
];

fn first_wrong_runs(alloc: Global, rows: &[Runs]) -> Result<Option<usize>, Refusal> {
    for (row, (word, level, y, wanted, wanted_first)) in rows.iter().enumerate() {
        let (runs, first) = row_of(alloc, *word, *level, *y)?;
        if runs.as_slice() != *wanted || first != *wanted_first {
            return Ok(Some(row));
        }
    }
    Ok(None)
}

#[test]
fn rows(rt: HostRuntime) -> Result<(), Refusal> {
    assert_no_row(&rt, first_wrong_runs(rt.alloc(), ROWS)?);
    Ok(())
}

// The first live row of the largest square, from far above it, from its last row and from far
// below.
fn first_rows_of_largest(alloc: Global) -> Result<[Option<i64>; 3], Refusal> {
    let mut book = empty_book(alloc)?;
    let sq = filled(&mut book, FULL, 63)?;
    Ok([
        first_row(&book, sq, i64::MIN),
        first_row(&book, sq, HIGH),
        first_row(&book, sq, i64::MAX),
    ])
}

#[test]
fn first_rows_of_the_largest_square(rt: HostRuntime) {
    let wanted = [Some(LOW), Some(HIGH), None];
    assert_same(&rt, first_rows_of_largest(rt.alloc()), Ok(wanted));
}

// The first row and column of a window, and how many columns and rows it has.
type Sides = (i64, i64, u32, u32);

fn window_of(sides: Sides) -> Result<Window, Refusal> {
    Window::new(sides.0, sides.1, sides.2, sides.3)
}

// Draws the windows one after another.
fn draw_windows<B: Look, W: Sink>(
    book: &B,
    sq: Sq,
    windows: &[Sides],
    sink: &mut W,
) -> Result<(), Refusal>
    requires known { IsKnown (B.book book.now) sq.level sq }
    requires level { sq.level ≤ 63 }
{
    for sides in windows {
        picture(book, sq, &window_of(*sides)?, sink)?;
    }
    Ok(())
}

// Draws the cells into the sink.
fn draw<W: Sink>(
    alloc: Global,
    places: &[Place],
    sides: Sides,
    sink: &mut W,
) -> Result<(), Refusal> {
    let mut book = empty_book(alloc)?;
    let sq = root_at(alloc, &mut book, places)?;
    draw_windows(&book, sq, &[sides], sink)
}

// A blinker that stands, and five cells on both sides of (0,0), some at the corners of the square
// of level 4.
const BLINKER: [Place; 3] = [(1, -1), (1, 0), (1, 1)];

const SPREAD: [Place; 5] = [(-8, -8), (-1, -1), (0, 0), (-2, 1), (7, 7)];

const FAR: i64 = 1 << 62;

// Some cells, a window, and its picture.
const PICTURES: &[(&[Place], Sides, &str)] = &[
    (&BLINKER, (0, -1, 3, 3), ".*.\n.*.\n.*.\n"),
    (&BLINKER, (1, 0, 2, 3), "*.\n*.\n..\n"),
    (&[], (-1, -1, 2, 2), "..\n..\n"),
    (&[(3, 1)], (2, 0, 3, 2), "...\n.*.\n"),
    (&SPREAD, (-2, -1, 3, 3), ".*.\n..*\n*..\n"),
    (&SPREAD, (6, 6, 3, 3), "...\n.*.\n...\n"),
    (&SPREAD, (-10, -9, 4, 2), "....\n..*.\n"),
    (&SPREAD, (7, 7, 1, 1), "*\n"),
    (&SPREAD, (8, 7, 2, 1), "..\n"),
    (&SPREAD, (-100, 100, 2, 2), "..\n..\n"),
    (&SPREAD, (FAR, -FAR, 1, 2), ".\n.\n"),
];

fn drawing_of(alloc: Global, places: &[Place], sides: Sides) -> Result<Memory, Refusal> {
    let mut drawn = Memory::with_room(alloc, 100)?;
    draw(alloc, places, sides, &mut drawn)?;
    Ok(drawn)
}

fn is_drawn(alloc: Global, places: &[Place], sides: Sides, text: &str) -> Result<bool, Refusal> {
    let drawn = drawing_of(alloc, places, sides)?;
    Ok(drawn.bytes() == text.as_bytes())
}

fn first_wrong_picture(alloc: Global, rows: &[(&[Place], Sides, &str)]) -> Option<usize> {
    for (row, (places, sides, text)) in rows.iter().enumerate() {
        if is_drawn(alloc, places, *sides, text) != Ok(true) {
            return Some(row);
        }
    }
    None
}

#[test]
fn pictures(rt: HostRuntime) {
    assert_no_row(&rt, first_wrong_picture(rt.alloc(), PICTURES));
}

#[test]
fn picture_that_is_not_taken(rt: HostRuntime) -> Result<(), Refusal> {
    let mut drawn = FailAt::new(Memory::with_room(rt.alloc(), 100)?, 2);
    let outcome = draw(rt.alloc(), &BLINKER, (0, -1, 3, 3), &mut drawn);
    assert_same(
        &rt,
        (outcome, drawn.inner().bytes()),
        (Err(Refusal::WriteFailed), b".*.\n".as_slice()),
    );
    Ok(())
}

// Draws windows of the largest square, which is full.
fn draw_largest<W: Sink>(alloc: Global, windows: &[Sides], sink: &mut W) -> Result<(), Refusal> {
    let mut book = empty_book(alloc)?;
    let sq = shared(&mut book, FULL, 63)?;
    draw_windows(&book, sq, windows, sink)
}

// Two corners, and the widest window.
const CORNERS: [Sides; 2] = [(-FAR, -FAR, 2, 1), (FAR - 1, FAR - 2, 2, 3)];

const WIDE: [Sides; 1] = [(-1000, -1, 1024, 2)];

fn count_live(bytes: &[u8]) -> usize {
    bytes.iter().filter(|byte| **byte == b'*').count()
}

#[test]
fn corners_of_the_largest_square(rt: HostRuntime) -> Result<(), Refusal> {
    let mut drawn = Memory::with_room(rt.alloc(), 100)?;
    let outcome = draw_largest(rt.alloc(), &CORNERS, &mut drawn);
    assert_same(
        &rt,
        (outcome, drawn.bytes()),
        (Ok(()), b"**\n*.\n*.\n..\n".as_slice()),
    );
    Ok(())
}

#[test]
fn widest_window(rt: HostRuntime) -> Result<(), Refusal> {
    let mut drawn = Memory::with_room(rt.alloc(), 3000)?;
    let outcome = draw_largest(rt.alloc(), &WIDE, &mut drawn);
    let bytes = drawn.bytes();
    assert_same(
        &rt,
        (outcome, bytes.len(), count_live(bytes)),
        (Ok(()), 2 * 1025, 2 * 1024),
    );
    Ok(())
}
