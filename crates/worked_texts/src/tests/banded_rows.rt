//! Rows that are written in bands: patterns of few rows and of many, and of rows that lie far
//! apart.
//!
//! In a plain run of the tests there is memory. `rt try --test --fail-alloc N -- want_of_memory`
//! makes the Nth allocation of the last test fail, and is run for each N from 1 up to the first at
//! which it prints no line of its own.

use super::assert_same;
use pattern_writers::write_rle;
use plane::{Cell, CellSet, Memory, Refusal};
use rle_reader::RleFile;
use rule_text::Rule;
use squares::{PlainBook, cells_to_square};
use std::alloc::Global;
use std::process::Abort;
use std::test::Fail;
use std::thread::Threads;

const NO_COMMENTS: &[u8] = b"x = 0, y = 0\n!";

// The row and the column of a cell.
type Place = (u16, u8);

// The set of the cells at these places.
fn cells_at(alloc: Global, places: &[Place]) -> Result<CellSet, Refusal> {
    let mut cells = CellSet::new(alloc);
    for (y, x) in places {
        cells.insert(Cell {
            y: i64::from(*y),
            x: i64::from(*x),
        })?;
    }
    Ok(cells)
}

// The cell (0, y) of each row y from 0 on, so many of them.
fn column(alloc: Global, rows: u16) -> Result<CellSet, Refusal> {
    let mut cells = CellSet::new(alloc);
    for y in 0..rows {
        cells.insert(Cell {
            y: i64::from(y),
            x: 0,
        })?;
    }
    Ok(cells)
}

// What became of writing these cells, and what the file holds then.
fn written<R: Threads + Sync>(
    rt: &R,
    alloc: Global,
    cells: &CellSet,
) -> Result<(Result<(), Refusal>, Memory), Refusal> {
    let Ok(rule) = Rule::read(b"23/3") else {
        return Err(Refusal::NoMemory);
    };
    let Ok(read) = RleFile::open(NO_COMMENTS) else {
        return Err(Refusal::NoMemory);
    };
    let Ok(mut file) = Memory::with_room(alloc, 1000) else {
        return Err(Refusal::NoMemory);
    };
    let mut book = PlainBook::new(alloc, rule, 0);
    let sq = cells_to_square(alloc, &mut book, cells)?;
    let outcome = write_rle(rt, alloc, &book, sq, read.comments(), &rule, 0, &mut file);
    Ok((outcome, file))
}

// The cells have this text.
fn assert_text<R: Threads + Sync + Abort>(
    rt: &R,
    alloc: Global,
    cells: &CellSet,
    text: &str,
) -> Result<(), Refusal> {
    let (outcome, file) = written(rt, alloc, cells)?;
    assert_same(rt, (outcome, file.bytes()), (Ok(()), text.as_bytes()));
    Ok(())
}

// The cells at these places have this text.
fn assert_text_at<R: Threads + Sync + Abort>(
    rt: &R,
    alloc: Global,
    places: &[Place],
    text: &str,
) -> Result<(), Refusal> {
    let cells = cells_at(alloc, places)?;
    assert_text(rt, alloc, &cells, text)
}

// Cells, and their text.
type Text = (&'static [Place], &'static str);

const TEXTS: &[Text] = &[
    (
        &[],
        "#CXRLE Pos=0,0 Gen=0\nx = 0, y = 0, rule = B3/S23\n!\n",
    ),
    (
        &[(0, 0), (9999, 0)],
        "#CXRLE Pos=0,0 Gen=0\nx = 1, y = 10000, rule = B3/S23\no9999$o!\n",
    ),
    // Two rows, of which the second has cells on both sides of the first one's.
    (
        &[(5, 2), (5, 3), (6, 1), (6, 4)],
        "#CXRLE Pos=1,5 Gen=0\nx = 4, y = 2, rule = B3/S23\nb2o$o2bo!\n",
    ),
    // No cell lies in any band between the first and the last.
    (
        &[(1, 0), (2, 1), (2, 2), (639, 2), (640, 0)],
        "#CXRLE Pos=0,1 Gen=0\nx = 3, y = 640, rule = B3/S23\no$b2o637$2bo$o!\n",
    ),
];

#[test]
fn texts_of_few_rows(rt: HostRuntime) -> Result<(), Refusal> {
    for (places, text) in TEXTS {
        assert_text_at(&rt, rt.alloc(), places, text)?;
    }
    Ok(())
}

const COLUMN: &str = "#CXRLE Pos=0,0 Gen=0\nx = 1, y = 100, rule = B3/S23\n\
     o$o$o$o$o$o$o$o$o$o$o$o$o$o$o$o$o$o$o$o$o$o$o$o$o$o$o$o$o$o$o$o$o$o$o$\n\
     o$o$o$o$o$o$o$o$o$o$o$o$o$o$o$o$o$o$o$o$o$o$o$o$o$o$o$o$o$o$o$o$o$o$o$\n\
     o$o$o$o$o$o$o$o$o$o$o$o$o$o$o$o$o$o$o$o$o$o$o$o$o$o$o$o$o$o!\n";

#[test]
fn one_cell_in_each_of_100_rows(rt: HostRuntime) -> Result<(), Refusal> {
    let cells = column(rt.alloc(), 100)?;
    assert_text(&rt, rt.alloc(), &cells, COLUMN)
}

// The text was written, or memory ran out before its first byte; then the cells have it at the
// second try.
fn assert_written_or_refused<R: Threads + Sync + Abort + Print>(
    rt: &R,
    alloc: Global,
    cells: &CellSet,
    text: &str,
    written: (Result<(), Refusal>, &[u8]),
) -> Result<(), Fail> {
    if written.0 == Err(Refusal::NoMemory) {
        println!(rt; "refused")?;
        assert_same(rt, written.1, b"".as_slice());
        return Ok(assert_text(rt, alloc, cells, text)?);
    }
    assert_same(rt, written, (Ok(()), text.as_bytes()));
    Ok(())
}

fn assert_cells_or_refused<R: Threads + Sync + Abort + Print>(
    rt: &R,
    alloc: Global,
    cells: &CellSet,
    text: &str,
) -> Result<(), Fail> {
    match written(rt, alloc, cells) {
        Ok((outcome, file)) => {
            assert_written_or_refused(rt, alloc, cells, text, (outcome, file.bytes()))
        }
        Err(_) => Ok(println!(rt; "no square")?),
    }
}

// The cells have this text, unless memory runs out.
fn assert_text_or_refused<R: Threads + Sync + Abort + Print>(
    rt: &R,
    alloc: Global,
    cells: Result<CellSet, Refusal>,
    text: &str,
) -> Result<(), Fail> {
    match cells {
        Ok(cells) => assert_cells_or_refused(rt, alloc, &cells, text),
        Err(_) => Ok(println!(rt; "no cells")?),
    }
}

#[test]
fn texts_or_nothing_for_want_of_memory(rt: HostRuntime) -> Result<(), Fail> {
    for (places, text) in TEXTS {
        assert_text_or_refused(&rt, rt.alloc(), cells_at(rt.alloc(), places), text)?;
    }
    assert_text_or_refused(&rt, rt.alloc(), column(rt.alloc(), 100), COLUMN)
}
