//! Searches in files.

use crate::tests::rows::PLAIN;
use crate::tests::sessions::opened;
use engine::{OpenGate, Session, Team};
use period_search::{Candidates, Period, least_period};
use plane::{Fault, Refusal};
use std::process::Abort;
use std::thread::Threads;

/// The answer of a search in a session, by so many workers, 1 to 64. The divisors of 0 are not tried.
pub(crate) fn searched<R: Abort + AllocGlobal + Threads + Sync>(
    rt: &R,
    session: &mut Session,
    candidates: Candidates,
    workers: usize,
) -> Result<Option<Period>, Refusal> {
    assert!(rt; candidates != Candidates::DivisorsOf(0));
    assert!(rt; 1 <= workers && workers <= 64);
    let team = Team {
        runtime: rt,
        alloc: rt.alloc(),
        workers,
        gate: &OpenGate,
    };
    least_period(&team, session, candidates)
}

/// The answer of a search in a file, and the generation of its session then.
pub(crate) fn searched_in<R: Abort + AllocGlobal + Threads + Sync>(
    rt: &R,
    file: &str,
    candidates: Candidates,
    workers: usize,
) -> Result<(Result<Option<Period>, Refusal>, u64), Fault> {
    let mut session = opened(rt, file, None, PLAIN.pairs)?;
    let found = searched(rt, &mut session, candidates, workers);
    Ok((found, session.generation()))
}
