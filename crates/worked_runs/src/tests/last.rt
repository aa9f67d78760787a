//! The last pattern of a run: what is said of it, and how it is refused.

use crate::tests::accepted::{LIMITS, PATTERNS, STEPS};
use crate::tests::ended::Ended;
use crate::tests::refused::REFUSED;
use crate::tests::rows::Row;
use engine::{RunOptions, Summary, last_pattern};
use plane::{Fault, Refusal};
use std::alloc::AllocError;
use std::process::Abort;
use std::thread::Threads;
use table_core::Shape;

// What is answered beside the last pattern of a row.
fn answer_of<R: Abort + AllocGlobal + Threads + Sync>(rt: &R, row: &Row) -> Result<Summary, Fault> {
    let run = RunOptions {
        gens: row.generations,
        rule: None,
        pairs: row.pairs,
        workers: row.workers,
    };
    assert!(rt; Shape::is_pair_count(run.pairs));
    assert!(rt; run.workers >= 1 && run.workers <= 64);
    let (_, summary) = last_pattern(rt, rt.alloc(), row.file.as_bytes(), &run)?;
    Ok(summary)
}

// Whether the last pattern of a row is answered as its run is.
fn assert_answered_as_run<R: Abort + AllocGlobal + Threads + Sync>(
    rt: &R,
    row: &Row,
) -> Result<(), AllocError> {
    let end = Ended::of(rt, row.file, &row.options())?;
    assert_eq!(rt; (row.file, answer_of(rt, row)), (row.file, end.outcome));
    Ok(())
}

// Whether the last patterns of rows are answered as their runs are.
fn assert_answered_as_runs<R: Abort + AllocGlobal + Threads + Sync>(
    rt: &R,
    rows: &[Row],
) -> Result<(), AllocError> {
    for row in rows {
        assert_answered_as_run(rt, row)?;
    }
    Ok(())
}

#[test]
fn last_patterns_are_summed_up_as_runs(rt: HostRuntime) -> Result<(), AllocError> {
    assert_answered_as_runs(&rt, PATTERNS)?;
    assert_answered_as_runs(&rt, LIMITS)?;
    assert_answered_as_runs(&rt, STEPS)
}

#[test]
fn last_patterns_are_refused_as_runs(rt: HostRuntime) -> Result<(), AllocError> {
    for row in REFUSED {
        if row.refusal == Some(Refusal::BoxTooLarge) {
            // It has no text in the format, and a pattern.
            assert!(rt; answer_of(&rt, row).is_ok());
        } else {
            assert_answered_as_run(&rt, row)?;
        }
    }
    Ok(())
}
