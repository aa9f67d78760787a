//! Written patterns, and a sink that fails.

ghost use Rattle.std.specs.Prelude.{◌≤◌, IfOk};
ghost use Rattle.squares.specs.Book.{IsKnown};

use super::{assert_none, assert_same};
use pattern_writers::{write_mc, write_rle};
use plane::{FailAt, Memory, Refusal, Sink};
use rle_reader::RleFile;
use rule_text::Rule;
use squares::{LOWEST_ROOT_LEVEL, PlainBook, Sq, Squares, join_leaves};
use std::alloc::Global;
use std::thread::Threads;

// A file with kept comments and one that is not kept.
const COMMENTED: &[u8] = b"#N Glider\n#r 23/3\nx = 3, y = 3\nbob$2bo$3o!";

const NO_COMMENTS: &[u8] = b"x = 0, y = 0\n!";

// The glider with its upper left corner at (1, 1), as the bits of a leaf.
const GLIDER_BITS: u64 = 0xe08_0400;

// The four corners of a leaf.
const CORNER_BITS: u64 = 0x8100_0000_0000_0081;

// A square that is written.
#[derive(Clone, Copy)]
enum Square {
    // A leaf with these cells.
    Leaf(u64),
    // A square of level 4 with these leaves.
    Alone([u64; 4]),
    // Such a square in the upper left quarter of one of level 5.
    UpperLeft([u64; 4]),
    // Such a square in the upper left quarter and in the lower right one.
    UpperLeftAndLowerRight([u64; 4]),
}

// The square of level 5 that has a square of level 4 in its upper left quarter, and another in the
// lower right one.
fn larger_of(book: &mut PlainBook, nw: Sq, se: Sq) -> Result<Sq, Refusal>
    requires nw { IsKnown (⟦<PlainBook as Squares>⟧.book book.old) 4 nw }
    requires se { IsKnown (⟦<PlainBook as Squares>⟧.book book.old) 4 se }
    ensures { IfOk result (IsKnown (⟦<PlainBook as Squares>⟧.book book.new) 5) }
{
    let empty = Sq::empty(LOWEST_ROOT_LEVEL);
    book.quad([nw, empty, empty, se])
}

// The square in a book.
fn build(book: &mut PlainBook, square: Square) -> Result<Sq, Refusal>
    ensures known { IfOk result (λ sq.
        IsKnown (⟦<PlainBook as Squares>⟧.book book.new) sq.level sq) }
    ensures level { IfOk result (λ sq. sq.level ≤ 63) }
{
    match square {
        Square::Leaf(word) => book.leaf(word),
        Square::Alone(leaves) => join_leaves(book, leaves),
        Square::UpperLeft(leaves) => {
            let sq = join_leaves(book, leaves)?;
            larger_of(book, sq, Sq::empty(LOWEST_ROOT_LEVEL))
        }
        Square::UpperLeftAndLowerRight(leaves) => {
            let sq = join_leaves(book, leaves)?;
            larger_of(book, sq, sq)
        }
    }
}

// What stands before the comments of each text.
const OPENING: &[u8] = b"[M2] (lifebatch 1)\n#R B3/S23\n#G 4\n";

// Writes the macrocell text of a square, with the kept comments or with none.
fn write_square<R: Threads + Sync>(
    rt: &R,
    alloc: Global,
    square: Square,
    commented: bool,
    file: &mut Memory,
) -> Result<(), Refusal> {
    let text = if commented { COMMENTED } else { NO_COMMENTS };
    let (Ok(rule), Ok(read)) = (Rule::read(b"23/3"), RleFile::open(text)) else {
        return Err(Refusal::BadRule);
    };
    let mut book = PlainBook::new(alloc, rule, 0);
    let sq = build(&mut book, square)?;
    write_mc(rt, alloc, &book, sq, read.comments(), &rule, 4, file)
}

// Whether this, behind the preamble, is the macrocell text of a square, with the kept comments or
// with none.
fn has_text<R: Threads + Sync>(
    rt: &R,
    alloc: Global,
    square: Square,
    commented: bool,
    wanted: &str,
) -> Result<bool, Refusal> {
    let mut file = Memory::with_room(alloc, 1000)?;
    write_square(rt, alloc, square, commented, &mut file)?;
    Ok(file.bytes().strip_prefix(OPENING) == Some(wanted.as_bytes()))
}

// A square, whether there are comments, and the comments and nodes.
type Text = (Square, bool, &'static str);

const TEXTS: &[Text] = &[
    (
        Square::Alone([0, 0, 0, GLIDER_BITS]),
        true,
        "#N Glider\n$..*$...*$.***$\n4 0 0 0 1\n",
    ),
    // Equal squares stand once.
    (Square::Alone([1; 4]), false, "*$\n4 1 1 1 1\n"),
    (Square::Alone([1, 0, 0, 1]), false, "*$\n4 1 0 0 1\n"),
    (
        Square::Alone([1 << 36, 0, 0, 0]),
        false,
        "$$$$....*$\n4 1 0 0 0\n",
    ),
    (Square::Alone([0; 4]), false, ""),
    // The root is the smallest square around (0,0).
    (Square::UpperLeft([0, 0, 0, 1]), false, "*$\n4 1 0 0 0\n"),
    (Square::UpperLeft([0; 4]), false, ""),
    (
        Square::UpperLeftAndLowerRight([1, 0, 0, 0]),
        false,
        "*$\n4 1 0 0 0\n5 2 0 0 2\n",
    ),
    // A leaf lies from (-4, -4) to (3, 3), in the middle of a root of level 4.
    (
        Square::Leaf(GLIDER_BITS),
        true,
        "#N Glider\n$$$$$......*$.......*$.....***$\n4 1 0 0 0\n",
    ),
    (
        Square::Leaf(CORNER_BITS),
        false,
        "$$$$....*$\n$$$$...*$\n$$$....*$\n$$$...*$\n4 1 2 3 4\n",
    ),
    (Square::Leaf(0), false, ""),
];

// The first text that a square does not have.
fn first_missing<R: Threads + Sync>(rt: &R, alloc: Global, rows: &[Text]) -> Option<&'static str> {
    for (square, commented, wanted) in rows {
        if has_text(rt, alloc, *square, *commented, wanted) != Ok(true) {
            return Some(*wanted);
        }
    }
    None
}

#[test]
fn macrocell_texts(rt: HostRuntime) {
    assert_none(&rt, first_missing(&rt, rt.alloc(), TEXTS));
}

// What is answered where a macrocell text is written, and then where an RLE text is.
fn write_both<R: Threads + Sync, S: Sink>(
    rt: &R,
    alloc: Global,
    file: &mut S,
) -> Result<[Result<(), Refusal>; 2], Refusal> {
    let (Ok(rule), Ok(read)) = (Rule::read(b"23/3"), RleFile::open(NO_COMMENTS)) else {
        return Err(Refusal::BadRule);
    };
    let mut book = PlainBook::new(alloc, rule, 0);
    let sq = build(&mut book, Square::Alone([1; 4]))?;
    let first = write_mc(rt, alloc, &book, sq, read.comments(), &rule, 0, file);
    let second = write_rle(rt, alloc, &book, sq, read.comments(), &rule, 0, file);
    Ok([first, second])
}

// What is answered where the first write fails, and then where none does, and how many have failed.
fn answers_of_writers<R: Threads + Sync>(
    rt: &R,
    alloc: Global,
) -> Result<([Result<(), Refusal>; 2], u64), Refusal> {
    let mut file = FailAt::new(Memory::with_room(alloc, 1000)?, 1);
    let answers = write_both(rt, alloc, &mut file)?;
    Ok((answers, file.failures()))
}

#[test]
fn a_failed_write_is_answered(rt: HostRuntime) {
    let wanted = ([Err(Refusal::WriteFailed), Ok(())], 1);
    assert_same(&rt, answers_of_writers(&rt, rt.alloc()), Ok(wanted));
}
