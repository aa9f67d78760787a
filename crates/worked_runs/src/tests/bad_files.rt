//! Files that are cut off, hold bytes that no text has, or say more than there is room for.

use crate::tests::ended::Ended;
use crate::tests::rows::{PLAIN, RLE, Row, assert_ends, assert_rows, assert_told};
use plane::{Fault, Refusal};
use sample_patterns::chain;
use std::alloc::{AllocError, Global};
use std::process::Abort;
use std::thread::Threads;

const THREE_CELLS: &str = "x = 1, y = 1\n3o!";

const fn fault(refusal: Refusal, place: u64) -> Fault {
    Fault {
        refusal,
        place: Some(place),
    }
}

// How a run of so many bytes of the three cells ends, and what it reports.
fn beginning_told(length: usize) -> (Option<Fault>, &'static str) {
    match length {
        0 => (Some(fault(Refusal::NotAPattern, 0)), ""),
        1..=11 => (Some(fault(Refusal::BadHeader, 0)), ""),
        12 | 13 => (None, "0: 0\n"),
        14 => (Some(fault(Refusal::BadCount, 13)), ""),
        _ => (None, "0: 3\n"),
    }
}

// Runs bytes that are made of a text, and compares how the run ended, the report and what was
// written with what they are to be.
fn assert_bytes_end<R: Abort + AllocGlobal + Threads + Sync>(
    rt: &R,
    text: &str,
    file: &[u8],
    wanted: (Option<Fault>, &str, &str),
) -> Result<(), AllocError> {
    let end = Ended::of_bytes(rt, file, &PLAIN)?;
    assert_told(rt, text, &end, wanted);
    Ok(())
}

#[test]
fn runs_every_beginning_of_a_file(rt: HostRuntime) -> Result<(), AllocError> {
    let file = THREE_CELLS.as_bytes();
    for length in 0..file.len() + 1 {
        let (fault, report) = beginning_told(length);
        assert_bytes_end(&rt, THREE_CELLS, &file[..length], (fault, report, ""))?;
    }
    Ok(())
}

// Bytes that no file has but in comments.
const STRANGE: [u8; 3] = [0, 0x80, 0xff];

// How a run of the three cells ends where the byte at this place is strange.
fn strange_rle(place: usize) -> Fault {
    match place {
        0 => fault(Refusal::NotAPattern, 0),
        1..=12 => fault(Refusal::BadHeader, 0),
        15 => fault(Refusal::BadTag, 15),
        _ => fault(Refusal::BadTag, 13),
    }
}

const ONE_CELL: &str = "[M2]\n*$\n4 0 0 0 1\n";

// The same for the one cell. Where the end of the first line is strange the leaf is not a line.
fn strange_macrocell(place: usize) -> Fault {
    match place {
        0..=3 => fault(Refusal::NotAPattern, 0),
        4 => fault(Refusal::BadChild, 8),
        5..=7 => fault(Refusal::BadNodeLine, 5),
        _ => fault(Refusal::BadNodeLine, 8),
    }
}

// The bytes of a text with another one at a place.
fn with_byte(alloc: Global, text: &str, place: usize, byte: u8) -> Result<Vec<u8>, AllocError> {
    let mut bytes = Vec::with_capacity(alloc, text.len())?;
    for (index, old) in text.as_bytes().iter().enumerate() {
        bytes.push(if index == place { byte } else { *old })?;
    }
    Ok(bytes)
}

// Runs a text with each strange byte at a place.
fn assert_strange<R: Abort + AllocGlobal + Threads + Sync>(
    rt: &R,
    text: &str,
    place: usize,
    wanted: Fault,
) -> Result<(), AllocError> {
    for byte in &STRANGE {
        let file = with_byte(rt.alloc(), text, place, *byte)?;
        assert_bytes_end(rt, text, file.as_slice(), (Some(wanted), "", ""))?;
    }
    Ok(())
}

#[test]
fn refuses_nul_and_high_bytes_at_each_place(rt: HostRuntime) -> Result<(), AllocError> {
    for place in 0..THREE_CELLS.len() {
        assert_strange(&rt, THREE_CELLS, place, strange_rle(place))?;
    }
    for place in 0..ONE_CELL.len() {
        assert_strange(&rt, ONE_CELL, place, strange_macrocell(place))?;
    }
    Ok(())
}

const REFUSED: &[Row] = &[
    Row {
        file: "[M2]\n4 1 0 0 0\n",
        refusal: Some(Refusal::BadChild),
        place: Some(5),
        ..RLE
    },
    Row {
        file: "[M2]\n4 99999999999999999999 0 0 0\n",
        refusal: Some(Refusal::BadChild),
        place: Some(5),
        ..RLE
    },
    Row {
        file: "[M2]\n99999999999999999999 0 0 0 0\n",
        refusal: Some(Refusal::OutOfRange),
        place: Some(5),
        ..RLE
    },
];

#[test]
fn refuses_numbers_that_are_too_large(rt: HostRuntime) -> Result<(), AllocError> {
    assert_rows(&rt, REFUSED)
}

// As many live cells as a file may have.
#[test]
fn runs_a_file_of_the_most_cells(rt: HostRuntime) -> Result<(), AllocError> {
    let file = "x = 1, y = 1\n268435456o!";
    let text = "#CXRLE Pos=0,0 Gen=0\nx = 268435456, y = 1, rule = B3/S23\n268435456o!\n";
    assert_ends(&rt, file, &RLE.options(), (None, "0: 268435456\n", text))
}

// The last lines of chains, and how they run: the cell lies at (0,0), or where columns and rows
// begin.
const CHAINS: &[(&str, Row)] = &[
    (
        "63 0 0 0 60\n",
        Row {
            report: "0: 1\n",
            text: "#CXRLE Pos=0,0 Gen=0\nx = 1, y = 1, rule = B3/S23\no!\n",
            ..RLE
        },
    ),
    (
        "63 0 0 0 60\n",
        Row {
            generations: 1,
            report: "0: 1\n1: 0\n",
            text: "#CXRLE Pos=0,0 Gen=1\nx = 0, y = 0, rule = B3/S23\n!\n",
            ..RLE
        },
    ),
    (
        "63 60 0 0 0\n",
        Row {
            report: "0: 1\n",
            text: "#CXRLE Pos=-4611686018427387904,-4611686018427387904 Gen=0\n\
             x = 1, y = 1, rule = B3/S23\no!\n",
            ..RLE
        },
    ),
    (
        "63 60 0 0 0\n",
        Row {
            generations: 1,
            refusal: Some(Refusal::TooFar),
            ..RLE
        },
    ),
];

#[test]
fn runs_a_chain_to_the_largest_level(rt: HostRuntime) -> Result<(), AllocError> {
    for (last, row) in CHAINS {
        let file = chain(rt.alloc(), last)?;
        let wanted = (row.fault(), row.report, row.text);
        assert_ends(&rt, file.as_str(), &row.options(), wanted)?;
    }
    Ok(())
}
