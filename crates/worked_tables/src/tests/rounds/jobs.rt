//! Rounds of no job, of one job, and of as many as there are gates for.

ghost use Rattle.std.specs.Prelude.{◌≤◌};

use crate::tests::rounds::jobs_of_leaves::{jobs_at, leaves_of};
use crate::tests::tables::{PAIRS, empty_table};
use sample_patterns::BLINKER_LEAVES;
use std::process::Abort;
use std::sync::atomic::{AtomicU64, Ordering};
use std::test::Fail;
use std::thread::Threads;
use worker_split::{Gate, OpenGate, round};

#[test]
fn no_jobs_give_no_futures(rt: HostRuntime) -> Result<(), Fail> {
    let (table, desk) = empty_table(rt.alloc(), PAIRS, 0)?;
    let (desk, futures) = round(&rt, rt.alloc(), &table, desk, &[], 3, &OpenGate);
    assert_eq!(rt; futures?.len(), 0);
    assert_eq!(rt; desk.expansions(), 0);
    Ok(())
}

#[test]
fn a_blinker_takes_one_expansion(rt: HostRuntime) -> Result<(), Fail> {
    let (table, desk) = empty_table(rt.alloc(), PAIRS, 0)?;
    let (desk, jobs) = jobs_at(rt.alloc(), &table, desk, &[BLINKER_LEAVES]);
    let jobs = jobs?;
    let (desk, futures) = round(&rt, rt.alloc(), &table, desk, jobs.as_slice(), 1, &OpenGate);
    assert_eq!(rt; futures?.len(), 1);
    assert_eq!(rt; desk.expansions(), 1);
    Ok(())
}

// How often each job was begun, and ended.
#[derive(Drop)]
struct Counts {
    begun: Vec<AtomicU64>,
    ended: Vec<AtomicU64>,
}

fn add_one(counts: &[AtomicU64], job: usize) {
    if let Some(it) = counts.get(job) {
        it.fetch_add(1, Ordering::SeqCst);
    }
}

impl Gate for Counts {
    fn before(&self, job: usize) {
        add_one(self.begun.as_slice(), job);
    }

    fn after(&self, job: usize) {
        add_one(self.ended.as_slice(), job);
    }
}

fn zeros(rt: &impl AllocGlobal, count: usize) -> Result<Vec<AtomicU64>, Fail> {
    let mut list = Vec::new(rt.alloc());
    for _ in 0..count {
        list.push(AtomicU64::new(0))?;
    }
    Ok(list)
}

// How many of the counts are one.
fn ones(counts: &[AtomicU64]) -> usize {
    counts
        .iter()
        .filter(|it| it.load(Ordering::SeqCst) == 1)
        .count()
}

// A round of so many jobs at a table of so many pair slots: the gate sees each job once.
fn assert_each_done_once<R: Threads + Sync + Abort + AllocGlobal>(
    rt: &R,
    pairs: u32,
    count: usize,
    workers: usize,
) -> Result<(), Fail>
    requires { (1 ≤ workers) × (workers ≤ 64) }
{
    let (table, desk) = empty_table(rt.alloc(), pairs, 0)?;
    let gate = Counts {
        begun: zeros(rt, count)?,
        ended: zeros(rt, count)?,
    };
    let leaves = leaves_of(rt.alloc(), count as u64)?;
    let (desk, jobs) = jobs_at(rt.alloc(), &table, desk, leaves.as_slice());
    let jobs = jobs?;
    let (desk, futures) = round(
        rt,
        rt.alloc(),
        &table,
        desk,
        jobs.as_slice(),
        workers,
        &gate,
    );
    assert_eq!(rt; futures?.len(), count);
    assert_eq!(rt;
        (ones(gate.begun.as_slice()), ones(gate.ended.as_slice())),
        (count, count)
    );
    // A worker that helps may make again what another has in hand.
    let expansions = desk.expansions();
    let jobs = count as u64;
    assert!(rt; expansions >= jobs && expansions <= jobs.saturating_mul(workers as u64));
    Ok(())
}

#[test]
fn each_of_1000_jobs_is_done_once(rt: HostRuntime) -> Result<(), Fail> {
    for workers in [1, 2, 64] {
        assert_each_done_once(&rt, 32768, 1000, workers)?;
    }
    Ok(())
}

#[test]
fn each_job_is_done_once(rt: HostRuntime) -> Result<(), Fail> {
    assert_each_done_once(&rt, 262144, 10000, 64)
}
