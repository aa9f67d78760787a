//! The centres of squares of 16 by 16 cells, also beside a calculation that goes cell by cell.

use crate::tests::books::rule_of;
use crate::tests::rows::assert_no_row;
use leaf_kernels::{centre16, result16};
use plane::Refusal;
use rule_text::Rule;
use sample_patterns::BLINKER_LEAVES;

// Three live cells in a row in the middle of a square, and one live cell right of and below the
// middle.
const ONE_CELL: [u64; 4] = [0, 0, 0, 1];

// A rule's text, a square, and its centre after one, two and four generations.
const RESULTS: &[(&str, [u64; 4], [u64; 3])] = &[
    ("B3/S23", [0; 4], [0, 0, 0]),
    ("B2/S34H", [0; 4], [0, 0, 0]),
    ("B13/S024V", [0; 4], [0, 0, 0]),
    (
        "B3/S23",
        BLINKER_LEAVES,
        [0x1010100000, 0x38000000, 0x38000000],
    ),
    (
        "B1/SV",
        ONE_CELL,
        [0x102810000000, 0x10004400100000, 0x100000010],
    ),
    (
        "B1/SH",
        ONE_CELL,
        [0x302818000000, 0x50004400140000, 0x100000011],
    ),
];

fn results16(rule: &Rule, leaves: [u64; 4]) -> [u64; 3] {
    [
        result16(rule, leaves, 0),
        result16(rule, leaves, 1),
        result16(rule, leaves, 2),
    ]
}

// The centres by the rule that the text says.
fn results(text: &str, leaves: [u64; 4]) -> Result<[u64; 3], Refusal> {
    Ok(results16(&rule_of(text)?, leaves))
}

fn first_wrong_result(rows: &[(&str, [u64; 4], [u64; 3])]) -> Option<usize> {
    for (row, (text, leaves, centres)) in rows.iter().enumerate() {
        if results(text, *leaves) != Ok(*centres) {
            return Some(row);
        }
    }
    None
}

#[test]
fn results_of_worked_squares(rt: HostRuntime) {
    assert_no_row(&rt, first_wrong_result(RESULTS));
}

#[test]
fn centres_of_worked_squares(rt: HostRuntime) {
    assert_eq!(rt;
        [
            centre16(BLINKER_LEAVES),
            centre16(ONE_CELL),
            centre16([0; 4])
        ],
        [0x38000000, 0x1000000000, 0]
    );
}

// A square, cell by cell: cell (x, y) stands at 16y + x.
type Cells = [bool; 256];

fn cells_of(leaves: [u64; 4]) -> Cells {
    let mut cells = [false; 256];
    for y in 0..16usize {
        for x in 0..16usize {
            let leaf = leaves[2 * (y / 8) + x / 8];
            cells[16 * y + x] = (leaf >> (8 * (y % 8) + x % 8)) % 2 == 1;
        }
    }
    cells
}

fn is_live(cells: &Cells, x: i64, y: i64) -> bool {
    if x < 0 || x > 15 || y < 0 || y > 15 {
        return false;
    }
    cells[(16 * y + x) as usize]
}

fn lives_next(rule: &Rule, cells: &Cells, x: i64, y: i64) -> bool {
    let mut count: u8 = 0;
    for offset in rule.neighbourhood().offsets() {
        if is_live(
            cells,
            x.wrapping_add(offset.right),
            y.wrapping_add(offset.down),
        ) {
            count = count.saturating_add(1);
        }
    }
    rule.lives(is_live(cells, x, y), count)
}

fn next_cells(rule: &Rule, cells: &Cells) -> Cells {
    let mut next = [false; 256];
    for place in 0..256usize {
        next[place] = lives_next(rule, cells, (place % 16) as i64, (place / 16) as i64);
    }
    next
}

fn centre_of_cells(cells: &Cells) -> u64 {
    let mut centre = 0u64;
    for bit in 0..64u64 {
        let place = 16 * (bit / 8 + 4) + bit % 8 + 4;
        if cells[place as usize] {
            centre |= 1 << bit;
        }
    }
    centre
}

// The next number of a sequence that looks random.
fn next_number(state: &mut u64) -> u64 {
    *state = state
        .wrapping_mul(6364136223846793005)
        .wrapping_add(1442695040888963407);
    *state ^ (*state >> 29)
}

fn next_leaves(state: &mut u64) -> [u64; 4] {
    [
        next_number(state),
        next_number(state),
        next_number(state),
        next_number(state),
    ]
}

// The centre of a square now, and after one, two and four generations.
type Centres = (u64, [u64; 3]);

fn centres_by_kernel(rule: &Rule, leaves: [u64; 4]) -> Centres {
    (centre16(leaves), results16(rule, leaves))
}

fn centres_by_cells(rule: &Rule, leaves: [u64; 4]) -> Centres {
    let now = cells_of(leaves);
    let one = next_cells(rule, &now);
    let two = next_cells(rule, &one);
    let four = next_cells(rule, &next_cells(rule, &two));
    let results = [
        centre_of_cells(&one),
        centre_of_cells(&two),
        centre_of_cells(&four),
    ];
    (centre_of_cells(&now), results)
}

// The first of so many squares whose centres differ.
fn first_difference(text: &str, rounds: u32) -> Result<Option<[u64; 4]>, Refusal> {
    let rule = rule_of(text)?;
    let mut state = 1;
    for _ in 0..rounds {
        let leaves = next_leaves(&mut state);
        if centres_by_kernel(&rule, leaves) != centres_by_cells(&rule, leaves) {
            return Ok(Some(leaves));
        }
    }
    Ok(None)
}

#[test]
fn results_of_many_squares_cell_by_cell(rt: HostRuntime) {
    for text in ["B3/S23", "B13/S024V", "B2/S34H"] {
        assert_eq!(rt; (text, first_difference(text, 2000)), (text, Ok(None)));
    }
}
