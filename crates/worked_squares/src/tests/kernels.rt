//! Sixteen rows one generation on, and the centres of squares of 16 by 16 cells some generations
//! on, beside a plain kernel that goes cell by cell.

use crate::tests::books::rule_of;
use crate::tests::rows::assert_no_row;
use leaf_kernels::{next_rows, result16};
use plane::Refusal;
use rule_text::Rule;
use std::simd::prelude::*;

// A rule's text, and which of the three cells above a cell, beside it (with itself in the middle)
// and below it are its neighbours: bit 0 is the left one.
struct Row {
    text: &'static str,
    above: u32,
    beside: u32,
    below: u32,
}

const ROWS: &[Row] = &[
    Row {
        text: "B3/S23",
        above: 0b111,
        beside: 0b101,
        below: 0b111,
    },
    Row {
        text: "B13/S024V",
        above: 0b010,
        beside: 0b101,
        below: 0b010,
    },
    Row {
        text: "B2/S34H",
        above: 0b011,
        beside: 0b101,
        below: 0b110,
    },
];

// A square of 16 by 16 cells with a border of dead ones: cell (x, y) is bit x + 1 of row y + 1.
type Cells = [u32; 18];

fn next_row(row: &Row, rule: &Rule, above: u32, here: u32, below: u32) -> u32 {
    let mut next = 0;
    for x in 0..16u32 {
        let count = ((above >> x) & row.above).count_ones()
            + ((here >> x) & row.beside).count_ones()
            + ((below >> x) & row.below).count_ones();
        if rule.lives((here >> x) & 2 == 2, (count % 16) as u8) {
            next |= 2 << x;
        }
    }
    next
}

fn next_cells(row: &Row, rule: &Rule, cells: &Cells) -> Cells {
    let mut next = [0; 18];
    for y in 1..17usize {
        next[y] = next_row(row, rule, cells[y - 1], cells[y], cells[y + 1]);
    }
    next
}

// Two leaves beside each other, of which one row is drawn.
fn drawn_row(left: u64, right: u64, y: usize) -> u32 {
    let left = (left >> (8 * (y % 8))) % 256;
    let right = (right >> (8 * (y % 8))) % 256;
    (2 * left + 512 * right) as u32
}

fn cells_of(leaves: [u64; 4]) -> Cells {
    let [upper_left, upper_right, lower_left, lower_right] = leaves;
    let mut cells = [0; 18];
    for y in 0..8usize {
        cells[y + 1] = drawn_row(upper_left, upper_right, y);
        cells[y + 9] = drawn_row(lower_left, lower_right, y);
    }
    cells
}

// The 8 by 8 cells in the middle.
fn centre_of(cells: &Cells) -> u64 {
    let mut centre = 0u64;
    for y in 0..8usize {
        centre |= u64::from((cells[y + 5] >> 5) % 256) << (8 * y);
    }
    centre
}

fn rows_of(cells: &Cells) -> [u16; 16] {
    let mut rows = [0; 16];
    for y in 0..16usize {
        rows[y] = (cells[y + 1] / 2 % 65536) as u16;
    }
    rows
}

// The rows one generation on, and the centres after one, two and four generations.
type Later = ([u16; 16], [u64; 3]);

fn later_by_kernel(rule: &Rule, leaves: [u64; 4]) -> Later {
    let rows = u16x16::from_array(rows_of(&cells_of(leaves)));
    (
        next_rows(rule, rows).to_array(),
        [
            result16(rule, leaves, 0),
            result16(rule, leaves, 1),
            result16(rule, leaves, 2),
        ],
    )
}

fn later_by_cells(row: &Row, rule: &Rule, leaves: [u64; 4]) -> Later {
    let one = next_cells(row, rule, &cells_of(leaves));
    let two = next_cells(row, rule, &one);
    let four = next_cells(row, rule, &next_cells(row, rule, &two));
    (
        rows_of(&one),
        [centre_of(&one), centre_of(&two), centre_of(&four)],
    )
}

// The next word of a sequence that looks random.
fn next_word(state: &mut u64) -> u64 {
    *state ^= *state << 13;
    *state ^= *state >> 7;
    *state ^= *state << 17;
    *state
}

fn next_leaves(state: &mut u64) -> [u64; 4] {
    [
        next_word(state),
        next_word(state),
        next_word(state),
        next_word(state),
    ]
}

// Whether so many squares become the same by both.
fn agree(row: &Row, squares: u32) -> Result<bool, Refusal> {
    let rule = rule_of(row.text)?;
    let mut state = 0x9e3779b97f4a7c15;
    for _ in 0..squares {
        let leaves = next_leaves(&mut state);
        if later_by_kernel(&rule, leaves) != later_by_cells(row, &rule, leaves) {
            return Ok(false);
        }
    }
    Ok(true)
}

fn first_wrong_row(rows: &[Row], squares: u32) -> Option<usize> {
    for (place, row) in rows.iter().enumerate() {
        if agree(row, squares) != Ok(true) {
            return Some(place);
        }
    }
    None
}

#[test]
fn kernels_beside_a_plain_one(rt: HostRuntime) {
    assert_no_row(&rt, first_wrong_row(ROWS, 10000));
}
