//! Gates that see what other workers do at the same time.

use crate::tests::rounds::jobs_of_leaves::{jobs_at, leaves_of};
use crate::tests::tables::{PAIRS, empty_table};
use std::process::Abort;
use std::sync::atomic::{AtomicU64, Ordering};
use std::test::Fail;
use std::thread::Threads;
use worker_split::{Gate, round};

const TURNS: u64 = 1_000_000_000;

// Reads a flag until it is set, for so many turns at most, and answers whether it was.
fn sees(flag: &AtomicU64) -> bool {
    for _ in 0..TURNS {
        if flag.load(Ordering::SeqCst) == 1 {
            return true;
        }
    }
    false
}

// The first jobs wait for a flag that another job sets, before or after it is done.
#[derive(Drop)]
struct Waits {
    waiting: usize,
    set_before: Option<usize>,
    set_after: Option<usize>,
    flag: AtomicU64,
    seen: AtomicU64,
}

impl Gate for Waits {
    fn before(&self, job: usize) {
        if self.set_before == Some(job) {
            self.flag.store(1, Ordering::SeqCst);
        }
        if job < self.waiting && sees(&self.flag) {
            self.seen.fetch_add(1, Ordering::SeqCst);
        }
    }

    fn after(&self, job: usize) {
        if self.set_after == Some(job) {
            self.flag.store(1, Ordering::SeqCst);
        }
    }
}

// Jobs 0 and 1 each set their own flag, and then wait for the other's.
#[derive(Drop)]
struct Meets {
    first: AtomicU64,
    second: AtomicU64,
    seen: AtomicU64,
}

impl Meets {
    fn meet(&self, own: &AtomicU64, other: &AtomicU64) {
        own.store(1, Ordering::SeqCst);
        if sees(other) {
            self.seen.fetch_add(1, Ordering::SeqCst);
        }
    }
}

impl Gate for Meets {
    fn before(&self, job: usize) {
        match job {
            0 => self.meet(&self.first, &self.second),
            1 => self.meet(&self.second, &self.first),
            _ => {}
        }
    }

    fn after(&self, job: usize) {
        let _ = job;
    }
}

// A round of so many jobs with two workers, with this gate.
fn by_two<R: Threads + Sync + Abort + AllocGlobal, G: Gate>(
    rt: &R,
    gate: &G,
    jobs: u64,
) -> Result<usize, Fail> {
    let (table, desk) = empty_table(rt.alloc(), PAIRS, 0)?;
    let leaves = leaves_of(rt.alloc(), jobs)?;
    let (desk, jobs) = jobs_at(rt.alloc(), &table, desk, leaves.as_slice());
    let jobs = jobs?;
    let (_desk, futures) = round(rt, rt.alloc(), &table, desk, jobs.as_slice(), 2, gate);
    Ok(futures?.len())
}

#[test]
fn two_workers_meet(rt: HostRuntime) -> Result<(), Fail> {
    let gate = Meets {
        first: AtomicU64::new(0),
        second: AtomicU64::new(0),
        seen: AtomicU64::new(0),
    };
    assert_eq!(rt; by_two(&rt, &gate, 2)?, 2);
    assert_eq!(rt; gate.seen.load(Ordering::SeqCst), 2);
    Ok(())
}

// The other worker begins with job 2 while the first one has job 0, or 1, in hand.
#[test]
fn each_worker_begins_with_its_own_share(rt: HostRuntime) -> Result<(), Fail> {
    let gate = Waits {
        waiting: 2,
        set_before: Some(2),
        set_after: None,
        flag: AtomicU64::new(0),
        seen: AtomicU64::new(0),
    };
    assert_eq!(rt; by_two(&rt, &gate, 4)?, 4);
    assert_eq!(rt; gate.seen.load(Ordering::SeqCst), 2);
    Ok(())
}

// The other worker takes job 1, which isn't of its share, while the first one has job 0 in hand.
#[test]
fn a_worker_takes_jobs_from_another(rt: HostRuntime) -> Result<(), Fail> {
    let gate = Waits {
        waiting: 1,
        set_before: None,
        set_after: Some(1),
        flag: AtomicU64::new(0),
        seen: AtomicU64::new(0),
    };
    assert_eq!(rt; by_two(&rt, &gate, 4)?, 4);
    assert_eq!(rt; gate.seen.load(Ordering::SeqCst), 1);
    Ok(())
}
