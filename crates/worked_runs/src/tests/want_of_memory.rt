//! Want of memory: it refuses a run, or changes nothing.
//!
//! In a plain run of the tests there is memory. `rt try --test --fail-alloc N -- want_of_memory`
//! makes the Nth allocation of each of these tests fail, and is run for each N from 1 up to the
//! first at which none of them prints a line of its own. `checks/refused_memory.py` does so with
//! the program.

use crate::tests::ended::Ended;
use crate::tests::nodes::SETTLED;
use crate::tests::rows::{
    BLINKER, COMMENTED_GLIDER, COMMENTED_GLIDER_AS_MACROCELL, FAR_GLIDER, NEAR_REPLICATOR, PLAIN,
    R_PENTOMINO, Row, SHARED_LEAF, SHARED_LEAF_AGAIN, assert_whole_or_refused,
};
use engine::{Options, load};
use plane::{Memory, Refusal, Window};
use std::process::Abort;
use std::test::Fail;
use std::thread::Threads;

// Runs a row: it writes its whole texts, or is refused between two lines of the report, with
// nothing in the file.
fn assert_runs_or_refuses<R: Abort + AllocGlobal + Print + Threads + Sync>(
    rt: &R,
    row: &Row,
) -> Result<(), Fail> {
    assert_asked_or_refuses(rt, row, &row.options())
}

// The same where more is asked for than the row says.
fn assert_asked_or_refuses<R: Abort + AllocGlobal + Print + Threads + Sync>(
    rt: &R,
    row: &Row,
    options: &Options,
) -> Result<(), Fail> {
    let Ok(end) = Ended::of(rt, row.file, options) else {
        return Ok(println!(rt; "no devices")?);
    };
    if assert_whole_or_refused(rt, row, &end, Refusal::NoMemory) {
        println!(rt; "refused")?;
    }
    Ok(())
}

#[test]
fn refuses_the_blinker_for_want_of_memory(rt: HostRuntime) -> Result<(), Fail> {
    let row = Row {
        report: "0: 3\n1: 3\n.*.\n.*.\n.*.\n",
        ..BLINKER
    };
    let options = Options {
        window: Some(Window::new(0, -1, 3, 3)?),
        ..row.options()
    };
    assert_asked_or_refuses(&rt, &row, &options)
}

#[test]
fn refuses_a_far_glider_for_want_of_memory(rt: HostRuntime) -> Result<(), Fail> {
    assert_runs_or_refuses(&rt, &FAR_GLIDER)
}

#[test]
fn refuses_a_shared_leaf_for_want_of_memory(rt: HostRuntime) -> Result<(), Fail> {
    assert_runs_or_refuses(&rt, &SHARED_LEAF)
}

#[test]
fn refuses_to_write_a_shared_leaf_for_want_of_memory(rt: HostRuntime) -> Result<(), Fail> {
    assert_runs_or_refuses(&rt, &SHARED_LEAF_AGAIN)
}

#[test]
fn refuses_the_r_pentomino_for_want_of_memory(rt: HostRuntime) -> Result<(), Fail> {
    assert_runs_or_refuses(&rt, &R_PENTOMINO)
}

#[test]
fn refuses_the_last_r_pentomino_for_want_of_memory(rt: HostRuntime) -> Result<(), Fail> {
    assert_runs_or_refuses(&rt, &SETTLED)
}

#[test]
fn refuses_a_commented_glider_for_want_of_memory(rt: HostRuntime) -> Result<(), Fail> {
    for row in &[COMMENTED_GLIDER, COMMENTED_GLIDER_AS_MACROCELL] {
        assert_runs_or_refuses(&rt, row)?;
    }
    Ok(())
}

#[test]
fn refuses_two_workers_for_want_of_memory(rt: HostRuntime) -> Result<(), Fail> {
    for row in &[R_PENTOMINO, NEAR_REPLICATOR] {
        let row = Row { workers: 2, ..*row };
        assert_runs_or_refuses(&rt, &row)?;
    }
    Ok(())
}

#[test]
fn refuses_to_load_for_want_of_memory(rt: HostRuntime) -> Result<(), Fail> {
    // More bytes than are read at a time.
    let bytes = [7u8; 20000];
    let Ok(mut source) = Memory::holding(rt.alloc(), &bytes) else {
        return Ok(println!(rt; "no source")?);
    };
    let is_right = match load(rt.alloc(), &mut source) {
        Ok(loaded) => loaded.as_slice() == &bytes[..],
        Err(refusal) => {
            println!(rt; "refused to load")?;
            refusal == Refusal::NoMemory
        }
    };
    assert!(rt; is_right);
    Ok(())
}
