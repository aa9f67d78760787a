//! Few slots: a run writes what it writes in many, or is refused with a beginning of its report and
//! no output. Which of both is said where it is known.

use crate::tests::accepted::{FAR_GLIDERS, LIMITS, LONG_ROWS, PATTERNS, STEPS};
use crate::tests::full_squares::full_square;
use crate::tests::macrocell::{self, WRITTEN};
use crate::tests::nodes::{FULL, GLIDER, REPORTED, SETTLED};
use crate::tests::refused::REFUSED;
use crate::tests::rows::{
    COMMENTED_GLIDER, FAR_REPLICATOR, MACROCELL, NEAR_REPLICATOR, RLE, Row, assert_ends,
    assert_ends_or_is_full, assert_reported_by_each,
};
use engine::Options;
use plane::Refusal;
use sample_patterns::many_leaves;
use std::alloc::AllocError;
use std::process::Abort;
use std::thread::Threads;

// The fewest slots there can be for a run of so many generations. In half as many as a glider for
// 2^40 generations is given, its steps would be halved until they are too many to be taken.
fn fewest(generations: u64) -> u32 {
    if generations < 1 << 39 { 1024 } else { 2048 }
}

fn in_the_fewest(row: &Row, workers: usize) -> Row {
    Row {
        pairs: fewest(row.generations),
        workers,
        ..*row
    }
}

// Runs rows that have room in the fewest slots. One worker takes the same steps in each run, and
// so writes all of it each time.
fn assert_room<R: Abort + AllocGlobal + Threads + Sync>(
    rt: &R,
    rows: &[Row],
) -> Result<(), AllocError> {
    for row in rows {
        let few = in_the_fewest(row, 1);
        let wanted = (few.fault(), few.report, few.text);
        assert_ends(rt, few.file, &few.options(), wanted)?;
    }
    Ok(())
}

// Runs rows in the fewest slots, where it isn't known whether there is room: with two workers the
// schedule decides it.
fn assert_whole_or_full<R: Abort + AllocGlobal + Threads + Sync>(
    rt: &R,
    rows: &[Row],
    workers: usize,
) -> Result<(), AllocError> {
    for row in rows {
        assert_ends_or_is_full(rt, &in_the_fewest(row, workers))?;
    }
    Ok(())
}

/// The rows of short runs.
pub(crate) fn short_runs() -> [&'static [Row]; 7] {
    [
        PATTERNS,
        LIMITS,
        LONG_ROWS,
        STEPS,
        WRITTEN,
        REFUSED,
        macrocell::REFUSED,
    ]
}

#[test]
fn runs_each_pattern_in_the_fewest_slots(rt: HostRuntime) -> Result<(), AllocError> {
    for rows in &short_runs() {
        assert_room(&rt, rows)?;
        assert_whole_or_full(&rt, rows, 2)?;
    }
    Ok(())
}

#[test]
fn runs_far_in_the_fewest_slots(rt: HostRuntime) -> Result<(), AllocError> {
    for rows in &[FAR_GLIDERS, &[GLIDER, COMMENTED_GLIDER, NEAR_REPLICATOR]] {
        assert_room(&rt, rows)?;
        assert_whole_or_full(&rt, rows, 2)?;
    }
    Ok(())
}

// The more a step is halved, the more generations of the replicator have to have room, and most of
// them have more squares than the last. Which of them a run comes to hangs on when its tables are
// full, so no count of squares says how it ends.
#[test]
fn runs_a_replicator_in_the_fewest_slots_or_not(rt: HostRuntime) -> Result<(), AllocError> {
    for workers in 1..=2 {
        assert_whole_or_full(&rt, &[FAR_REPLICATOR], workers)?;
    }
    Ok(())
}

#[test]
fn runs_the_r_pentomino_in_the_fewest_slots(rt: HostRuntime) -> Result<(), AllocError> {
    assert_room(&rt, &[SETTLED, REPORTED])
}

// Where no slot is free.
const NO_ROOM: Row = Row {
    generations: 1,
    refusal: Some(Refusal::NodesFull),
    ..RLE
};

// The line behind the file of a full square, and how it runs in the fewest slots, by whatever
// number of workers. A full square takes two pairs a level, so fewer than a shard has slots. One
// generation on, only the squares of the cells take more than 1800 pairs.
const FULL_SQUARES: &[(&str, Row)] = &[
    (
        "61 58",
        Row {
            report: "0: 1329227995784915872903807060280344576\n",
            ..NO_ROOM
        },
    ),
    (
        "62 59",
        Row {
            refusal: Some(Refusal::BoxTooLarge),
            report: "0: 5316911983139663491615228241121378304\n",
            ..RLE
        },
    ),
    (
        "62 59",
        Row {
            report: "0: 5316911983139663491615228241121378304\n",
            ..NO_ROOM
        },
    ),
];

// Runs a file as a row asks, in the fewest slots, with one worker and with two.
fn assert_in_the_fewest<R: Abort + AllocGlobal + Threads + Sync>(
    rt: &R,
    file: &str,
    row: &Row,
) -> Result<(), AllocError> {
    for workers in 1..=2 {
        let few = in_the_fewest(row, workers);
        assert_ends(rt, file, &few.options(), (few.fault(), few.report, ""))?;
    }
    Ok(())
}

#[test]
fn runs_full_squares_in_the_fewest_slots(rt: HostRuntime) -> Result<(), AllocError> {
    for (line_behind, row) in FULL_SQUARES {
        let file = full_square(rt.alloc(), line_behind)?;
        assert_in_the_fewest(&rt, file.as_str(), row)?;
    }
    Ok(())
}

#[test]
fn refuses_65536_leaves_in_the_fewest_slots(rt: HostRuntime) -> Result<(), AllocError> {
    let file = many_leaves(rt.alloc())?;
    let few = Options {
        pairs: 1024,
        ..MACROCELL.options()
    };
    assert_reported_by_each(&rt, file.as_str(), &few, Some(FULL), "")
}
