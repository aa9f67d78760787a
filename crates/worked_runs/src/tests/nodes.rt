//! Tables of squares that may have few slots: runs that have room in them, and runs that are
//! refused.

use crate::tests::ended::Ended;
use crate::tests::rows::{
    FAR_GLIDER, FAR_REPLICATOR, PLAIN, R_PENTOMINO, RLE, Row, assert_reported,
    assert_reported_by_each, assert_rows,
};
use engine::Options;
use plane::{Fault, Refusal};
use sample_patterns::{leaves_in_a_row, many_leaves};
use std::alloc::{AllocError, Global};
use std::process::Abort;
use std::thread::Threads;

pub(crate) const FULL: Fault = Fault {
    refusal: Refusal::NodesFull,
    place: None,
};

/// The last generations of the R-pentomino.
pub(crate) const SETTLED: Row = Row {
    generations: 1103,
    report: "0: 5\n1103: 116\n",
    text: "#CXRLE Pos=-240,-258 Gen=1103\n\
         x = 501, y = 525, rule = B3/S23\n\
         479b2o$478bobo$480bo28$bo$2o$obo117$180b2o$180bobo$180bo90$265b2o$264b\n\
         o2bo$265bobo$266bo$235bo$234bobo3b2o$235b2o3b2o3$284b3o$271b3o2$293b2o\n\
         $293b2o5$201b2o$200bobo$200b2o31bo$232bobo$232bobo$233bo6bo$219b2o18bo\n\
         bo$219b2o18bobo$240bo2$211b2o$211b2o56b2o$269b2o2$241b3o51b2o$295b2o4$\n\
         307bo$306bobo$283b2o21bobo$283b2o22bo3$295b3o$265bo$264bobo$264bobo$\n\
         265bo2$249b2o$249b2o208$473bo$474b2o$473b2o7$499bo$500bo$498b3o12$454b\n\
         o$455b2o$454b2o!\n",
    ..R_PENTOMINO
};

/// The same, with a line for every hundredth generation.
pub(crate) const REPORTED: Row = Row {
    step: 100,
    report: "0: 5\n100: 121\n200: 120\n300: 168\n400: 195\n500: 174\n600: 213\n700: 194\n\
     800: 228\n900: 204\n1000: 156\n1100: 122\n1103: 116\n",
    ..SETTLED
};

/// 1024 generations of the glider.
pub(crate) const GLIDER: Row = Row {
    generations: 1024,
    report: "0: 5\n1024: 5\n",
    text: "#CXRLE Pos=256,256 Gen=1024\nx = 3, y = 3, rule = B3/S23\nbo$2bo$3o!\n",
    ..FAR_GLIDER
};

/// The same in so few slots that a step fills them more than once: squares are collected, and the
/// step goes on.
pub(crate) const COLLECTED: Row = Row {
    pairs: 4096,
    ..SETTLED
};

// Runs that have room in few slots.
const SMALL: &[Row] = &[
    SETTLED,
    Row {
        pairs: 32768,
        ..SETTLED
    },
    COLLECTED,
    Row {
        pairs: 4096,
        ..REPORTED
    },
    Row {
        pairs: 4096,
        ..FAR_GLIDER
    },
    Row {
        pairs: 4096,
        ..FAR_REPLICATOR
    },
];

#[test]
fn runs_in_few_slots(rt: HostRuntime) -> Result<(), AllocError> {
    assert_rows(&rt, SMALL)
}

#[test]
fn two_workers_run_in_few_slots(rt: HostRuntime) -> Result<(), AllocError> {
    let row = Row {
        pairs: 32768,
        workers: 2,
        ..SETTLED
    };
    assert_rows(&rt, &[row])
}

// There is room for 256 leaves in the fewest slots.
#[test]
fn refuses_300_leaves_in_the_fewest_slots(rt: HostRuntime) -> Result<(), AllocError> {
    let file = leaves_in_a_row(rt.alloc())?;
    let few = Options {
        pairs: 1024,
        ..RLE.options()
    };
    assert_reported(&rt, file.as_str(), &few, Some(FULL), "")?;
    assert_reported(&rt, file.as_str(), &PLAIN, None, "0: 1184\n")
}

// The words 1 to 160, 16 in a row, each in the middle of a leaf of its own: bit j of the word i is
// the cell (8 (i mod 16) + 1 + j mod 4, 8 (i div 16) + 1 + j div 4).
fn spread_leaves(alloc: Global) -> Result<String, AllocError> {
    let mut text = String::from_str(alloc, "x = 128, y = 88, rule = B1/S01234V\n")?;
    for row in 0..11u8 {
        text.push_str("$")?;
        push_centres(&mut text, row, 1)?;
        push_centres(&mut text, row, 16)?;
        text.push_str("5$")?;
    }
    text.push_str("!")?;
    Ok(text)
}

// The cells of so many bits of a word, the lowest first.
fn push_bits(text: &mut String, word: u32, bits: u8) -> Result<(), AllocError> {
    let mut rest = word;
    for _ in 0..bits {
        text.push_str(if rest % 2 == 1 { "o" } else { "b" })?;
        rest /= 2;
    }
    Ok(())
}

// A row of cells through the centres of 16 leaves, of the bits of this worth and the next three of
// their words.
fn push_centres(text: &mut String, row: u8, worth: u32) -> Result<(), AllocError> {
    for column in 0..16u32 {
        let word = 16 * u32::from(row) + column;
        let bits = word.checked_div(worth).unwrap_or(0);
        text.push_str("b")?;
        push_bits(text, if word <= 160 { bits } else { 0 }, 4)?;
        text.push_str("3b")?;
    }
    text.push_str("$")?;
    Ok(())
}

// Runs the 160 leaves for no generation in the fewest slots: the cells are counted.
fn assert_counts<R: Abort + AllocGlobal + Threads + Sync>(
    rt: &R,
    file: &str,
    workers: usize,
) -> Result<(), AllocError> {
    let few = Row {
        pairs: 1024,
        workers,
        ..RLE
    };
    let end = Ended::of(rt, file, &few.options())?;
    assert!(rt; end.is_summed_up_by(0, 562));
    assert_eq!(rt; end.report.text(), "0: 562\n");
    Ok(())
}

#[test]
fn counts_the_cells_of_160_leaves(rt: HostRuntime) -> Result<(), AllocError> {
    let file = spread_leaves(rt.alloc())?;
    assert_counts(&rt, file.as_str(), 1)?;
    assert_counts(&rt, file.as_str(), 2)
}

// After one generation by this rule there are at least 320 different leaves, which have no room.
#[test]
fn refuses_the_first_generation_of_160_leaves(rt: HostRuntime) -> Result<(), AllocError> {
    let file = spread_leaves(rt.alloc())?;
    let few = Options {
        gens: 1,
        pairs: 1024,
        ..RLE.options()
    };
    assert_reported_by_each(&rt, file.as_str(), &few, Some(FULL), "0: 562\n")?;
    let many = Options { gens: 1, ..PLAIN };
    assert_reported_by_each(&rt, file.as_str(), &many, None, "0: 562\n1: 1736\n")
}

// The words 1 to 65535 have 16 * 2^15 bits, and 65536 has one.
#[test]
fn counts_the_cells_of_65536_leaves(rt: HostRuntime) -> Result<(), AllocError> {
    let file = many_leaves(rt.alloc())?;
    assert_reported_by_each(&rt, file.as_str(), &PLAIN, None, "0: 524289\n")
}

// There is room for 16384 leaves in 65536 slots for pairs.
#[test]
fn refuses_65536_leaves(rt: HostRuntime) -> Result<(), AllocError> {
    let file = many_leaves(rt.alloc())?;
    let options = Options {
        pairs: 65536,
        ..RLE.options()
    };
    assert_reported_by_each(&rt, file.as_str(), &options, Some(FULL), "")
}
