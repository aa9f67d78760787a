//! Periods that are found, and patterns that have none.

use crate::tests::searches::searched::searched_in;
use period_search::{Candidates, Period};
use plane::Fault;
use sample_patterns::{BLINKER, R_PENTOMINO};
use std::process::Abort;
use std::thread::Threads;

const GLIDER: &str = "x = 3, y = 3\nbo$2bo$3o!";

// A pulsar, whose period is 3, and a blinker.
const PULSAR_AND_BLINKER: &str = "x = 13, y = 18\n\
    2b3o3b3o$$o4bobo4bo$o4bobo4bo$o4bobo4bo$2b3o3b3o$$\
    2b3o3b3o$o4bobo4bo$o4bobo4bo$o4bobo4bo$$2b3o3b3o5$3o!";

// A file, the numbers that are tried, and the period: generations, right and down.
struct Row {
    file: &'static str,
    candidates: Candidates,
    period: Option<(u64, i64, i64)>,
}

const ROWS: [Row; 24] = [
    Row {
        file: GLIDER,
        candidates: Candidates::UpTo(1000),
        period: Some((4, 1, 1)),
    },
    Row {
        file: GLIDER,
        candidates: Candidates::UpTo(4),
        period: Some((4, 1, 1)),
    },
    // After one, two and three generations it has as many cells in as large a box, but others.
    Row {
        file: GLIDER,
        candidates: Candidates::UpTo(3),
        period: None,
    },
    Row {
        file: GLIDER,
        candidates: Candidates::UpTo(0),
        period: None,
    },
    Row {
        file: GLIDER,
        candidates: Candidates::DivisorsOf(1 << 63),
        period: Some((4, 1, 1)),
    },
    Row {
        file: GLIDER,
        candidates: Candidates::DivisorsOf(18),
        period: None,
    },
    // From right to left, upwards.
    Row {
        file: "x = 3, y = 3\n3o$o$bo!",
        candidates: Candidates::UpTo(10),
        period: Some((4, -1, -1)),
    },
    Row {
        file: "#CXRLE Pos=1000000000000,-1000000000000\nx = 3, y = 3\nbo$2bo$3o!",
        candidates: Candidates::UpTo(10),
        period: Some((4, 1, 1)),
    },
    Row {
        file: "x = 3, y = 3, rule = B36/S23\nbo$2bo$3o!",
        candidates: Candidates::UpTo(10),
        period: Some((4, 1, 1)),
    },
    Row {
        file: BLINKER,
        candidates: Candidates::UpTo(1000),
        period: Some((2, 0, 0)),
    },
    Row {
        file: "x = 2, y = 2\n2o$2o!",
        candidates: Candidates::UpTo(1000),
        period: Some((1, 0, 0)),
    },
    // A lightweight spaceship.
    Row {
        file: "x = 5, y = 4\nbo2bo$o$o3bo$4o!",
        candidates: Candidates::UpTo(1000),
        period: Some((4, -2, 0)),
    },
    // The clock: after one generation it has as many cells in the same box, but others.
    Row {
        file: "x = 4, y = 4\n2bo$obo$bobo$bo!",
        candidates: Candidates::UpTo(1000),
        period: Some((2, 0, 0)),
    },
    Row {
        file: PULSAR_AND_BLINKER,
        candidates: Candidates::UpTo(1000),
        period: Some((6, 0, 0)),
    },
    Row {
        file: PULSAR_AND_BLINKER,
        candidates: Candidates::DivisorsOf(12),
        period: Some((6, 0, 0)),
    },
    Row {
        file: PULSAR_AND_BLINKER,
        candidates: Candidates::DivisorsOf(9),
        period: None,
    },
    Row {
        file: R_PENTOMINO,
        candidates: Candidates::UpTo(100),
        period: None,
    },
    // A glider that goes away from a block.
    Row {
        file: "x = 22, y = 5\nbo$2bo$3o$20b2o$20b2o!",
        candidates: Candidates::UpTo(40),
        period: None,
    },
    // No cell is live.
    Row {
        file: "x = 0, y = 0\n!",
        candidates: Candidates::UpTo(1000),
        period: Some((1, 0, 0)),
    },
    Row {
        file: "x = 0, y = 0\n!",
        candidates: Candidates::DivisorsOf(1 << 63),
        period: Some((1, 0, 0)),
    },
    // A cell that dies: none is live then.
    Row {
        file: "x = 1, y = 1\no!",
        candidates: Candidates::UpTo(10),
        period: None,
    },
    // Oscillators by rules of the other two neighbourhoods.
    Row {
        file: "x = 3, y = 3, rule = B25/S345H\no$obo$2bo!",
        candidates: Candidates::UpTo(10),
        period: Some((4, 0, 0)),
    },
    Row {
        file: "x = 4, y = 3, rule = B2/S0234V\no$4o$4o!",
        candidates: Candidates::UpTo(10),
        period: Some((6, 0, 0)),
    },
    Row {
        file: "x = 4, y = 3, rule = B2/S024V\nbobo$o2bo$b3o!",
        candidates: Candidates::DivisorsOf(72),
        period: Some((12, 0, 0)),
    },
];

// Searches in a row's file, and compares the answer and where the session is then.
fn assert_found<R: Abort + AllocGlobal + Threads + Sync>(
    rt: &R,
    row: &Row,
    workers: usize,
) -> Result<(), Fault> {
    let (found, generation) = searched_in(rt, row.file, row.candidates, workers)?;
    let wanted = row.period.map(|(generations, right, down)| Period {
        generations,
        right,
        down,
    });
    let reached = wanted.map_or(generation, |period| period.generations);
    assert_eq!(rt;
        (row.file, row.candidates, found, generation),
        (row.file, row.candidates, Ok(wanted), reached)
    );
    Ok(())
}

#[test]
fn finds_the_least_period(rt: HostRuntime) -> Result<(), Fault> {
    for row in &ROWS {
        assert_found(&rt, row, 1)?;
    }
    Ok(())
}

#[test]
fn two_workers_find_the_same(rt: HostRuntime) -> Result<(), Fault> {
    for row in &ROWS {
        assert_found(&rt, row, 2)?;
    }
    Ok(())
}
