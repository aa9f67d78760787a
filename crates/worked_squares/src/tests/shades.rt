//! The shades of blocks of cells.

ghost use Rattle.std.specs.Prelude.{◌≤◌, IfOk};
ghost use Rattle.squares.specs.Book.{IsKnown};
ghost use Rattle.viewport.specs.Blocks.{IsBlockRange};

use crate::tests::books::{book_of, root_at};
use crate::tests::places::Place;
use crate::tests::views::shared;
use pattern_picture::block_shades;
use plane::Refusal;
use squares::{Sq, Squares};
use std::alloc::Global;
use viewport::Blocks;

const WHITE: u8 = 255;

// The four blocks around (0,0).
fn four_blocks(exponent: u8) -> Blocks
    requires { exponent ≤ 62 }
    ensures exponent { result.exponent ≤ 62 }
    ensures columns { IsBlockRange result.exponent result.left result.width }
    ensures rows { IsBlockRange result.exponent result.top result.height }
{
    Blocks {
        exponent,
        left: -1,
        top: -1,
        width: 2,
        height: 2,
    }
}

// The shades of blocks of the square around (0,0) that has these cells.
fn shades_at(alloc: Global, places: &[Place], blocks: Blocks) -> Result<Vec<u8>, Refusal>
    requires exponent { blocks.exponent ≤ 62 }
    requires columns { IsBlockRange blocks.exponent blocks.left blocks.width }
    requires rows { IsBlockRange blocks.exponent blocks.top blocks.height }
{
    let mut book = book_of(alloc, "B3/S23", 0)?;
    let sq = root_at(alloc, &mut book, places)?;
    block_shades(alloc, &book, sq, blocks)
}

fn is_just(shades: &Result<Vec<u8>, Refusal>, expected: &[u8]) -> bool {
    match shades {
        Ok(shades) => shades.as_slice() == expected,
        Err(_) => false,
    }
}

// A single cell is black where a block is one cell, and light where it is larger. Blocks of
// exponents 3 to 5 are as large as the square's quarters, or larger.
#[test]
fn single_cells(rt: HostRuntime) {
    for exponent in 0..6u8 {
        let shade = if exponent == 0 { 0 } else { 160 };
        let shades = shades_at(rt.alloc(), &[(0, 0), (-1, -1)], four_blocks(exponent));
        assert!(rt; is_just(&shades, &[shade, WHITE, WHITE, shade]));
    }
}

const ONE_TO_FOUR: &[Place] = &[
    (-4, 0),
    (-2, 0),
    (-1, 1),
    (0, 0),
    (1, 0),
    (0, 1),
    (2, 0),
    (3, 0),
    (2, 1),
    (3, 1),
];

// Blocks with one to four of their four cells, and the last one of a row outside the square.
#[test]
fn one_to_four_cells_of_four(rt: HostRuntime) {
    let blocks = Blocks {
        exponent: 1,
        left: -2,
        top: -1,
        width: 7,
        height: 2,
    };
    let shades = shades_at(rt.alloc(), ONE_TO_FOUR, blocks);
    let expected = [
        WHITE, WHITE, WHITE, WHITE, WHITE, WHITE, WHITE, 160, 80, 80, 0, WHITE, WHITE, WHITE,
    ];
    assert!(rt; is_just(&shades, &expected));
}

// The square of level 12 where all cells live, from -2048 to 2047.
fn full_square<S: Squares>(book: &mut S) -> Result<Sq, Refusal>
    ensures known { IfOk result (λ sq. IsKnown (S.book book.new) sq.level sq) }
    ensures level { IfOk result (λ sq. (4 ≤ sq.level) × (sq.level ≤ 63)) }
{
    shared(book, u64::MAX, 12)
}

// The shades of the four blocks around (0,0) of the full square.
fn full_shades(alloc: Global, exponent: u8) -> Result<Vec<u8>, Refusal> {
    if exponent > 62 {
        return Err(Refusal::OutOfRange);
    }
    let mut book = book_of(alloc, "B3/S23", 0)?;
    let sq = full_square(&mut book)?;
    block_shades(alloc, &book, sq, four_blocks(exponent))
}

// Full blocks are black. Larger ones, which have the 2^22 cells of a quarter, are lighter.
#[test]
fn full_squares(rt: HostRuntime) {
    for (exponent, shade) in [(0, 0), (2, 0), (7, 0), (11, 0), (12, 14), (62, 132)] {
        let shades = full_shades(rt.alloc(), exponent);
        assert!(rt; is_just(&shades, &[shade; 4]));
    }
}
