//! Only squares of the whole set of cells are made: the words that building leaves are counted.

use crate::tests::tables::{PAIRS, empty_table};
use node_table::{Held, Still};
use plane::{Cell, CellSet, Refusal};
use squares::cells_to_square;
use std::alloc::Global;
use std::process::Abort;
use std::test::Fail;

// The words 1 to 160, 16 in a row, each in the middle of a leaf of its own: bit j of the word i is
// the cell (8 (i mod 16) + 1 + j mod 4, 8 (i div 16) + 1 + j div 4).
fn spread_leaves(alloc: Global) -> Result<CellSet, Refusal> {
    let mut cells = CellSet::new(alloc);
    for word in 1..161u8 {
        for bit in 0..8u8 {
            if (word >> bit) % 2 == 1 {
                cells.insert(Cell {
                    y: i64::from(8 * (word / 16) + 1 + bit / 4),
                    x: i64::from(8 * (word % 16) + 1 + bit % 4),
                })?;
            }
        }
    }
    Ok(cells)
}

// All cells of the square of side 16 around (0,0).
fn full_square(alloc: Global) -> Result<CellSet, Refusal> {
    let mut cells = CellSet::new(alloc);
    for place in 0..=255u8 {
        cells.insert(Cell {
            y: i64::from(place / 16) - 8,
            x: i64::from(place % 16) - 8,
        })?;
    }
    Ok(cells)
}

// The words of the smallest table in which the square of the cells was built.
fn built_words(rt: &(impl Abort + AllocGlobal), cells: &CellSet) -> Result<Still, Fail> {
    let (table, desk) = empty_table(rt.alloc(), PAIRS, 0)?;
    let mut at = table.at(desk);
    let made = cells_to_square(rt.alloc(), &mut at, cells);
    let desk = at.leave();
    let words = table.close(desk);
    made?;
    Ok(words)
}

// How many words from this index on, and before the other, aren't vacant.
fn count_words(words: &Held, first: usize, end: usize) -> usize {
    let mut count = 0usize;
    for index in first..end.min(words.len()) {
        if words.word(index) != 0 {
            count = count.wrapping_add(1);
        }
    }
    count
}

// How many leaf words, pair words and results there are after the square of the cells was built.
fn counts(rt: &(impl Abort + AllocGlobal), cells: &CellSet) -> Result<[usize; 3], Fail> {
    let still = built_words(rt, cells)?;
    let words = still.words();
    Ok([
        count_words(words, 1, 257),
        count_words(words, 257, 1281),
        count_words(words, 1281, 2305),
    ])
}

// The leaves differ, and so do the 170 halves and squares of the levels 4 to 8 that have a cell.
#[test]
fn words_of_160_leaves(rt: HostRuntime) -> Result<(), Fail> {
    let cells = spread_leaves(rt.alloc())?;
    assert_eq!(rt; counts(&rt, &cells)?, [160, 170, 0]);
    Ok(())
}

// One leaf stands in each quarter, and one half above and below.
#[test]
fn words_of_a_full_square(rt: HostRuntime) -> Result<(), Fail> {
    let cells = full_square(rt.alloc())?;
    assert_eq!(rt; counts(&rt, &cells)?, [1, 2, 0]);
    Ok(())
}
