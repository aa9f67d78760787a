//! The items of RLE texts.

use super::assert_none;
use super::rle_texts::keeps;
use rle_reader::{RleFile, Run, Runs, Tag};

// The items of a text, which stay when the file is gone, if it is accepted.
fn runs_of(text: &str) -> Option<Runs<'_>> {
    match RleFile::open(text.as_bytes()) {
        Ok(file) => {
            let moved = file;
            Some(moved.runs())
        }
        Err(_) => None,
    }
}

// How many live cells the items of a text have, if it is accepted.
fn live_cells(text: &str) -> Option<u64> {
    match runs_of(text) {
        Some(runs) => Some(cells_of(runs)),
        None => None,
    }
}

fn cells_of(runs: Runs<'_>) -> u64 {
    let mut cells = 0u64;
    for run in runs {
        if run.tag == Tag::Live {
            cells = cells.saturating_add(run.count);
        }
    }
    cells
}

const CELLS: &[(&str, u64)] = &[
    ("x = 1, y = 1", 0),
    ("x = 1, y = 1\n", 0),
    ("x = 1, y = 1\n3o", 3),
    ("x = 1, y = 1\n3o!", 3),
];

// The first text whose items have another number of live cells.
fn counted_otherwise<'a>(rows: &[(&'a str, u64)]) -> Option<&'a str> {
    for (text, cells) in rows {
        if live_cells(text) != Some(*cells) {
            return Some(*text);
        }
    }
    None
}

#[test]
fn counts_the_cells_of_beginnings(rt: HostRuntime) {
    assert_none(&rt, counted_otherwise(CELLS));
}

// Whether an item has this slice, this place, this count and this tag.
fn is_this(run: Option<Run<'_>>, item: &(&str, u64, u64, Tag)) -> bool {
    let (slice, place, count, tag) = *item;
    let wanted = Run {
        text: slice.as_bytes(),
        place,
        count,
        tag,
    };
    match run {
        Some(run) => run == wanted,
        None => false,
    }
}

// Whether the items of a text are these, each as its slice, its place, its count and its tag, and
// none comes behind them, however often one asks.
fn has_items(text: &str, items: &[(&str, u64, u64, Tag)]) -> bool {
    match runs_of(text) {
        Some(runs) => are_these(runs, items),
        None => false,
    }
}

fn are_these(runs: Runs<'_>, items: &[(&str, u64, u64, Tag)]) -> bool {
    let mut rest = runs;
    for item in items {
        if !is_this(rest.next(), item) {
            return false;
        }
    }
    rest.next().is_none() && rest.next().is_none()
}

const GLIDER: &[(&str, u64, u64, Tag)] = &[
    ("b", 13, 1, Tag::Dead),
    ("2o", 14, 2, Tag::Live),
    ("$", 16, 1, Tag::Row),
    ("2o", 17, 2, Tag::Live),
    ("$", 19, 1, Tag::Row),
    ("b", 20, 1, Tag::Dead),
    ("o", 21, 1, Tag::Live),
];

#[test]
fn reads_items(rt: HostRuntime) {
    assert!(rt; has_items("x = 3, y = 3\nb2o$2o$bo!", GLIDER));
}

// Texts of one item, its slice and its place.
const LONG_ITEMS: &[(&str, &str, u64)] = &[
    ("x = 12, y = 1\n1\n2o\n#C here\n!junk", "1\n2o", 14),
    ("x = 12, y = 1\n1\n2o\n#C here\n", "1\n2o", 14),
    (
        "x = 12, y = 1\r\n1\r\n2o\r\n#C here\r\n!junk",
        "1\r\n2o",
        15,
    ),
    (
        "x = 12, y = 1\n1\n#C 3\n 2 \t\n#\n#C here\no!junk",
        "1\n#C 3\n 2 \t\n#\n#C here\no",
        14,
    ),
    (
        "x = 12, y = 1\r\n1\r\n#C 3b\r\n2\r\r\n#x\r\no",
        "1\r\n#C 3b\r\n2\r\r\n#x\r\no",
        15,
    ),
];

// Whether a text keeps no comment, and its only item is this one, of twelve live cells.
fn has_twelve_cells(text: &str, slice: &str, place: u64) -> bool {
    has_items(text, &[(slice, place, 12, Tag::Live)]) && keeps(text.as_bytes(), "")
}

// The first text that is read otherwise.
fn read_otherwise<'a>(rows: &[(&'a str, &str, u64)]) -> Option<&'a str> {
    for (text, slice, place) in rows {
        if !has_twelve_cells(text, slice, *place) {
            return Some(*text);
        }
    }
    None
}

#[test]
fn reads_a_count_over_lines_and_comments(rt: HostRuntime) {
    assert_none(&rt, read_otherwise(LONG_ITEMS));
}
