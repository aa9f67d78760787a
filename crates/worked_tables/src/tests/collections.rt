//! A generation that has no room in the largest table and is made there all the same: squares whose
//! results are known are collected, and what only led to them makes room.

ghost use Rattle.std.specs.Prelude.{⊤};
ghost use Rattle.plane.specs.Listing.{plane_of};

use crate::tests::tables::empty_table;
use crate::tests::universes::assert_comes_to;
use hashlife_step::{Tally, step};
use plane::{Cell, CellSet, Refusal};
use rule_text::Rule;
use squares::{Build, Sq, Squares, cells_to_square};
use std::alloc::Global;
use std::process::Abort;
use std::test::Fail;
use table_core::Shape;
use universe::Universe;

// Live cells as a set.
#[derive(Clone, Copy)]
struct Cells<'a> {
    cells: &'a CellSet,
}

impl Build for Cells<'_> {
    ghost live = { λ s. plane_of s.cells.now };

    ghost is_lawful = { λ _. ⊤ };

    fn build<S: Squares>(&self, alloc: Global, book: &mut S) -> Result<Sq, Refusal> {
        cells_to_square(alloc, book, self.cells)
    }
}

// Whether a leaf has a block, by lot.
fn has_block(column: u16, row: u16) -> bool {
    let place = u64::from(row) * 65536 + u64::from(column);
    let drawn = place.wrapping_mul(6364136223846793005);
    (drawn ^ (drawn >> 29)).wrapping_mul(0x9E37_79B9_7F4A_7C15) >> 63 == 1
}

// Whether a column or a row is one of the two in the middle of a leaf.
fn is_middle(place: u16) -> bool {
    place % 8 == 3 || place % 8 == 4
}

// Blocks in the middle of about half of 80 by 80 leaves. None comes near another, so that all of
// them stay.
fn blocks(alloc: Global) -> Result<CellSet, Refusal> {
    let mut cells = CellSet::new(alloc);
    for y in 0..640u16 {
        for x in 0..640u16 {
            if is_middle(x) && is_middle(y) && has_block(x / 8, y / 8) {
                cells.insert(Cell {
                    y: i64::from(y),
                    x: i64::from(x),
                })?;
            }
        }
    }
    Ok(cells)
}

// The limit of the table.
const PAIRS: u32 = 2048;

// The cells a generation later.
fn later<S: Squares>(alloc: Global, book: &mut S, cells: &CellSet) -> Result<Sq, Refusal> {
    let root = cells_to_square(alloc, book, cells)?;
    if book.exponent() > 62 {
        return Err(Refusal::OutOfRange);
    }
    step(book, root, &mut Tally { expansions: 0 })
}

// One table of so many slots is too small for the generation, also where it begins with only the
// cells; and a single generation is not halved. So what a universe of this limit answers it owes to
// collections.
#[test]
fn a_generation_that_has_no_room_is_made(rt: HostRuntime) -> Result<(), Fail> {
    let cells = blocks(rt.alloc())?;
    assert!(rt; Shape::is_pair_count(PAIRS));
    let (table, desk) = empty_table(rt.alloc(), PAIRS, 0)?;
    let made = later(rt.alloc(), &mut table.at(desk), &cells);
    assert_eq!(rt; made, Err(Refusal::NodesFull));
    let source = Cells { cells: &cells };
    let start = Universe::of(rt.alloc(), &Rule::read(b"B3/S23")?, &source, 0, PAIRS)?;
    assert_comes_to(&rt, start, &[(0, 12716), (1, 12716)])
}
