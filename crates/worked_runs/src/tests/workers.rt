//! Runs with several workers: they write what one writes.

use crate::tests::full_tables::short_runs;
use crate::tests::nodes::{COLLECTED, REPORTED, SETTLED};
use crate::tests::rows::{
    FAR_GLIDER, FAR_REPLICATOR, Row, assert_ends_or_is_full, assert_row, assert_rows_by,
};
use crate::tests::short_writes::ShortWrites;
use engine::{Gate, run_gated};
use std::alloc::AllocError;
use std::sync::atomic::{AtomicU64, Ordering};
use std::test::Fail;
use table_core::Shape;

// Long runs.
const LONG: &[Row] = &[SETTLED, COLLECTED, REPORTED, FAR_GLIDER, FAR_REPLICATOR];

#[test]
fn any_number_of_workers_writes_the_same(rt: HostRuntime) -> Result<(), AllocError> {
    for workers in &[1, 2, 4, 64] {
        assert_rows_by(&rt, LONG, *workers)?;
    }
    Ok(())
}

#[test]
fn two_workers_answer_each_row(rt: HostRuntime) -> Result<(), AllocError> {
    for rows in &short_runs() {
        assert_rows_by(&rt, rows, 2)?;
    }
    Ok(())
}

fn settled_in(pairs: u32, workers: usize) -> Row {
    Row {
        pairs,
        workers,
        ..SETTLED
    }
}

// One worker takes the same steps in each run, and has room in the fewest slots.
#[test]
fn one_worker_runs_in_few_slots(rt: HostRuntime) -> Result<(), AllocError> {
    for pairs in &[1024, 2048, 4096] {
        let row = settled_in(*pairs, 1);
        assert_row(&rt, row.file, &row)?;
    }
    Ok(())
}

// Several workers write the same, or are refused with no output: whether there is room, the
// schedule decides.
#[test]
fn workers_run_in_few_slots(rt: HostRuntime) -> Result<(), AllocError> {
    for (workers, pairs) in &[(2, 1024), (2, 2048), (64, 1024), (64, 2048)] {
        assert_ends_or_is_full(&rt, &settled_in(*pairs, *workers))?;
    }
    Ok(())
}

const TURNS: u64 = 1_000_000_000;

// Jobs 0 and 1 of a round each set their own flag, and read the other's. Only the first call of
// each counts.
#[derive(Drop)]
struct Meets {
    flags: [AtomicU64; 2],
    calls: [AtomicU64; 2],
    seen: AtomicU64,
}

// Reads a flag until it is set, for so many turns at most, and answers whether it was.
fn sees(flag: &AtomicU64) -> bool {
    for _ in 0..TURNS {
        if flag.load(Ordering::SeqCst) == 1 {
            return true;
        }
    }
    false
}

impl Gate for Meets {
    fn before(&self, job: usize) {
        if job < 2 && self.calls[job].fetch_add(1, Ordering::SeqCst) == 0 {
            self.flags[job].store(1, Ordering::SeqCst);
            if sees(&self.flags[1 - job]) {
                self.seen.fetch_add(1, Ordering::SeqCst);
            }
        }
    }

    fn after(&self, _job: usize) {}
}

#[test]
fn two_workers_of_a_run_meet(rt: HostRuntime) -> Result<(), Fail> {
    let row = Row {
        workers: 2,
        ..FAR_REPLICATOR
    };
    let gate = Meets {
        flags: [AtomicU64::new(0), AtomicU64::new(0)],
        calls: [AtomicU64::new(0), AtomicU64::new(0)],
        seen: AtomicU64::new(0),
    };
    let options = row.options();
    assert!(rt; Shape::is_pair_count(options.pairs) && options.workers == 2);
    let mut report = ShortWrites::new(rt.alloc(), usize::MAX, 0)?;
    let mut file = ShortWrites::new(rt.alloc(), usize::MAX, 0)?;
    let outcome = run_gated(
        &rt,
        rt.alloc(),
        row.file.as_bytes(),
        &options,
        &mut report,
        &mut file,
        &gate,
    );
    assert!(rt; outcome.is_ok());
    assert_eq!(rt; gate.seen.load(Ordering::SeqCst), 2);
    assert!(rt; report.text() == row.report && file.text() == row.text);
    Ok(())
}
