//! The centres of squares of 64 by 64 cells, calculated cell by cell, apart from this program and
//! by it.

use crate::tests::books::rule_of;
use leaf_kernels::{Leaves64, result64};
use plane::Refusal;
use rule_text::{Neighbourhood, Rule};

// The leaves of the middle of a square, quarter by quarter.
type Middle = [[u64; 4]; 4];

// The quarter of sixty-four leaves row by row whose first leaf stands there.
fn quarter_of(leaves: &[u64; 64], first: usize) -> [u64; 16] {
    let mut quarter = [0; 16];
    for place in 0..16usize {
        quarter[place] = leaves[(first % 64 + 8 * (place / 4) + place % 4) % 64];
    }
    quarter
}

fn quarters_of(leaves: &[u64; 64]) -> Leaves64 {
    [
        quarter_of(leaves, 0),
        quarter_of(leaves, 4),
        quarter_of(leaves, 32),
        quarter_of(leaves, 36),
    ]
}

fn middle(text: &str, leaves: &[u64; 64], exponent: u8) -> Result<Middle, Refusal> {
    Ok(result64(&rule_of(text)?, quarters_of(leaves), exponent.min(4)))
}

// Without a live cell nothing comes, and where all live no cell stays: each has eight live
// neighbours.
#[test]
fn centres_of_empty_and_full_squares(rt: HostRuntime) {
    for exponent in 0..5u8 {
        assert_eq!(rt; middle("B3/S23", &[0; 64], exponent), Ok([[0; 4]; 4]));
    }
    assert_eq!(rt; middle("B3/S23", &[u64::MAX; 64], 0), Ok([[0; 4]; 4]));
    assert_eq!(rt;
        middle("B3/S238", &[u64::MAX; 64], 4),
        Ok([[u64::MAX; 4]; 4])
    );
}

// A square, cell by cell: cell (x, y) stands at 64y + x.
type Cells = [bool; 4096];

fn cells_of(leaves: &[u64; 64]) -> Cells {
    let mut cells = [false; 4096];
    for place in 0..4096usize {
        let (x, y) = (place % 64, place / 64);
        cells[place] = (leaves[8 * (y / 8) + x / 8] >> (8 * (y % 8) + x % 8)) % 2 == 1;
    }
    cells
}

// What becomes of dead cells, and of live ones, with each number of live neighbours.
type Next = ([bool; 9], [bool; 9]);

fn next_of(rule: &Rule) -> Next {
    let mut births = [false; 9];
    let mut survivals = [false; 9];
    for count in 0..9u8 {
        births[count as usize] = rule.lives(false, count);
        survivals[count as usize] = rule.lives(true, count);
    }
    (births, survivals)
}

// How far behind a cell's upper left neighbour each of its neighbours stands.
fn ways_of(neighbourhood: Neighbourhood) -> &'static [usize] {
    match neighbourhood {
        Neighbourhood::Moore => &[0, 1, 2, 64, 66, 128, 129, 130],
        Neighbourhood::VonNeumann => &[1, 64, 66, 129],
        Neighbourhood::Hexagonal => &[0, 1, 64, 66, 129, 130],
    }
}

// Whether a cell that doesn't stand at a border lives in the next generation.
fn lives_next(next: &Next, ways: &[usize], cells: &Cells, place: usize) -> bool {
    let mut count = 0usize;
    for way in ways {
        if cells[place.wrapping_sub(65).wrapping_add(*way) % 4096] {
            count = count.saturating_add(1);
        }
    }
    if cells[place % 4096] {
        next.1[count % 9]
    } else {
        next.0[count % 9]
    }
}

// The next generation of the cells in the middle of which those so far round it depend.
fn next_cells(next: &Next, ways: &[usize], cells: &Cells, round: usize) -> Cells {
    let mut later = [false; 4096];
    for y in 0..64usize {
        let first = 16usize.saturating_sub(round);
        for x in first..64usize.saturating_sub(first) {
            if y >= first && y.saturating_add(first) < 64 {
                later[(64 * y + x) % 4096] = lives_next(next, ways, cells, (64 * y + x) % 4096);
            }
        }
    }
    later
}

// The leaf whose first cell stands there.
fn leaf_of(cells: &Cells, first: usize) -> u64 {
    let mut leaf = 0u64;
    for bit in 0..64usize {
        if cells[(first % 4096 + 64 * (bit / 8) + bit % 8) % 4096] {
            leaf |= 1 << bit;
        }
    }
    leaf
}

// The leaves of a quarter of the middle whose first cell stands there.
fn leaves_of(cells: &Cells, first: usize) -> [u64; 4] {
    [
        leaf_of(cells, first),
        leaf_of(cells, first.wrapping_add(8)),
        leaf_of(cells, first.wrapping_add(512)),
        leaf_of(cells, first.wrapping_add(520)),
    ]
}

fn middle_of(cells: &Cells) -> Middle {
    [
        leaves_of(cells, 1040),
        leaves_of(cells, 1056),
        leaves_of(cells, 2064),
        leaves_of(cells, 2080),
    ]
}

// The middle after 2^exponent generations, for an exponent below 5.
fn middle_by_cells(rule: &Rule, leaves: &[u64; 64], exponent: u8) -> Middle {
    let next = next_of(rule);
    let ways = ways_of(rule.neighbourhood());
    let mut cells = cells_of(leaves);
    let generations = 1usize << (exponent % 5);
    for number in 1..generations.saturating_add(1) {
        cells = next_cells(&next, ways, &cells, generations.saturating_sub(number));
    }
    middle_of(&cells)
}

// The next number of a sequence that looks random.
fn next_number(state: &mut u64) -> u64 {
    *state = state
        .wrapping_mul(6364136223846793005)
        .wrapping_add(1442695040888963407);
    *state ^ (*state >> 29)
}

// A square a quarter of whose cells live.
fn next_leaves(state: &mut u64) -> [u64; 64] {
    let mut leaves = [0; 64];
    for place in 0..64usize {
        leaves[place] = next_number(state) & next_number(state);
    }
    leaves
}

fn put(text: &mut [u8; 24], length: &mut usize, byte: u8) {
    text[*length % 24] = byte;
    *length = length.saturating_add(1);
}

// Each digit from the first to the last, or not, by a throw.
fn put_digits(text: &mut [u8; 24], length: &mut usize, first: u8, last: u8, throw: u64) {
    for digit in 0..9u8 {
        if digit >= first && digit <= last && (throw >> (20 + digit)) % 2 == 1 {
            put(text, length, b'0' + digit);
        }
    }
}

// A random rule, of one neighbourhood after the other; the first is B3/S23.
fn rule_at(index: usize, state: &mut u64) -> Result<Rule, Refusal> {
    if index == 0 {
        return rule_of("B3/S23");
    }
    let (last, letter) = match index % 3 {
        0 => (8, b'M'),
        1 => (4, b'V'),
        _ => (6, b'H'),
    };
    let mut text = [b' '; 24];
    let mut length = 0;
    put(&mut text, &mut length, b'B');
    put_digits(&mut text, &mut length, 1, last, next_number(state));
    put(&mut text, &mut length, b'/');
    put(&mut text, &mut length, b'S');
    put_digits(&mut text, &mut length, 0, last, next_number(state));
    put(&mut text, &mut length, letter);
    Rule::read(&text).map_err(|_| Refusal::BadRule)
}

// The index of the first rule under which the centres of one of so many squares differ.
fn first_difference(rules: usize, squares: usize) -> Result<Option<usize>, Refusal> {
    let mut state = 1;
    for index in 0..rules {
        let rule = rule_at(index, &mut state)?;
        for square in 0..squares {
            let leaves = next_leaves(&mut state);
            let exponent = (square % 5) as u8;
            let by_rows = result64(&rule, quarters_of(&leaves), exponent);
            if by_rows != middle_by_cells(&rule, &leaves, exponent) {
                return Ok(Some(index));
            }
        }
    }
    Ok(None)
}

// B3/S23 and sixty more rules, 10004 squares in all, by one exponent after the other.
#[test]
fn centres_of_many_squares_cell_by_cell(rt: HostRuntime) {
    assert_eq!(rt; first_difference(61, 164), Ok(None));
}
