//! A queue that two thieves empty at the same time: each job is stolen once.

use job_queues::{JobQueue, JobStealer};
use std::alloc::{AllocError, Global};
use std::test::Fail;
use std::thread::join;

const JOBS: usize = 20000;

// The jobs that a thief gets before it finds none.
fn stolen_by(alloc: Global, mut thief: JobStealer) -> Result<Vec<usize>, AllocError> {
    let mut jobs = Vec::with_capacity(alloc, JOBS)?;
    for _ in 0..=JOBS {
        let Some(job) = thief.steal() else {
            break;
        };
        jobs.push(job)?;
    }
    Ok(jobs)
}

#[test]
fn two_thieves_steal_each_job_once(rt: HostRuntime) -> Result<(), Fail> {
    let alloc = rt.alloc();
    let mut queue = JobQueue::with_share(alloc, 0, JOBS, JOBS)?;
    let (first, second) = (queue.stealer()?, queue.stealer()?);
    let (first, second) = join(
        &rt,
        move || stolen_by(alloc, first),
        move || stolen_by(alloc, second),
    );
    let mut jobs = first?;
    jobs.extend_from_slice(second?.as_slice())?;
    jobs.sort()?;
    assert_eq!(rt; jobs.len(), JOBS);
    for (place, job) in jobs.iter().enumerate() {
        assert_eq!(rt; *job, place);
    }
    assert_eq!(rt; queue.take(), None);
    Ok(())
}
