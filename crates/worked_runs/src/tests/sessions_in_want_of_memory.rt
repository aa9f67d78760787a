//! Sessions for which there is no memory at one of their calls: what is refused, and what stands
//! afterwards.
//!
//! In a plain run of the tests there is memory. `checks/refused_session.py` makes each allocation of
//! the test fail in turn.

use crate::tests::nodes::SETTLED;
use crate::tests::rows::{PLAIN, R_PENTOMINO, RLE};
use crate::tests::sessions::{one_worker, opened};
use crate::tests::short_writes::ShortWrites;
use engine::{Pattern, Session};
use plane::Refusal;
use std::process::Abort;
use std::test::Fail;
use std::thread::Threads;

// Where the R-pentomino is looked at: how many generations on, how many cells are live there, and
// the first row with its one run.
struct Stop {
    more: u64,
    population: u128,
    top: i64,
    run: (i64, u64),
}

const STOPS: [Stop; 3] = [
    Stop {
        more: 0,
        population: 5,
        top: 0,
        run: (1, 2),
    },
    Stop {
        more: 1000,
        population: 156,
        top: -232,
        run: (213, 2),
    },
    Stop {
        more: 103,
        population: 116,
        top: -258,
        run: (239, 2),
    },
];

// The answer of a call, or `None` where memory was short for it.
fn given<R: Abort + Print, T>(
    rt: &R,
    answer: Result<T, Refusal>,
    call: &str,
) -> Result<Option<T>, Fail> {
    match answer {
        Ok(value) => Ok(Some(value)),
        Err(refusal) => {
            println!(rt; "refused to {call}")?;
            assert_eq!(rt; refusal, Refusal::NoMemory);
            Ok(None)
        }
    }
}

// How many cells a session has, at the second try where the first one was refused: one allocation
// fails.
fn population_of<R: Abort + AllocGlobal + Print>(
    rt: &R,
    session: &mut Session,
) -> Result<u128, Fail> {
    match given(rt, session.population(rt.alloc()), "count")? {
        Some(population) => Ok(population),
        None => Ok(session.population(rt.alloc())?),
    }
}

// The first row of its box, likewise.
fn top_of<R: Abort + AllocGlobal + Print>(
    rt: &R,
    session: &mut Session,
) -> Result<Option<i64>, Fail> {
    let bounds = match given(rt, session.bounds(rt.alloc()), "find the box")? {
        Some(bounds) => bounds,
        None => session.bounds(rt.alloc())?,
    };
    Ok(bounds.map(|bounds| bounds.top))
}

// The runs of a row, likewise.
fn runs_of<R: Abort + AllocGlobal + Print>(
    rt: &R,
    session: &mut Session,
    row: i64,
) -> Result<Vec<(i64, u64)>, Fail> {
    match given(rt, session.row_runs(rt.alloc(), row), "show a row")? {
        Some(runs) => Ok(runs),
        None => Ok(session.row_runs(rt.alloc(), row)?),
    }
}

// A snapshot, likewise.
fn snapshot_of<R: Abort + AllocGlobal + Print>(
    rt: &R,
    session: &mut Session,
) -> Result<Pattern, Fail> {
    match given(rt, session.snapshot(rt.alloc()), "take a snapshot")? {
        Some(snapshot) => Ok(snapshot),
        None => Ok(session.snapshot(rt.alloc())?),
    }
}

// Asserts what a session shows, which each look leaves as it was.
fn assert_looks<R: Abort + AllocGlobal + Print>(
    rt: &R,
    session: &mut Session,
    stop: &Stop,
) -> Result<(), Fail> {
    assert_eq!(rt; population_of(rt, session)?, stop.population);
    assert_eq!(rt; top_of(rt, session)?, Some(stop.top));
    assert_eq!(rt; session.first_row(i64::MIN), Ok(Some(stop.top)));
    assert_eq!(rt; runs_of(rt, session, stop.top)?.as_slice(), &[stop.run][..]);
    assert_eq!(rt;
        snapshot_of(rt, session)?.first_row(i64::MIN),
        Some(stop.top)
    );
    Ok(())
}

// Asserts that each look at a closed session is refused.
fn assert_not_seen<R: Abort + AllocGlobal>(rt: &R, session: &mut Session) {
    let alloc = rt.alloc();
    assert_eq!(rt; session.population(alloc), Err(Refusal::NoMemory));
    assert_eq!(rt; session.bounds(alloc), Err(Refusal::NoMemory));
    assert_eq!(rt; session.summary(alloc), Err(Refusal::NoMemory));
    assert_eq!(rt; session.first_row(0), Err(Refusal::NoMemory));
    assert_eq!(rt;
        session.row_runs(alloc, 0).map(drop),
        Err(Refusal::NoMemory)
    );
    assert_eq!(rt; session.snapshot(alloc).map(drop), Err(Refusal::NoMemory));
}

// Asserts that it writes nothing.
fn assert_not_written<R: Abort + AllocGlobal + Threads + Sync>(
    rt: &R,
    session: &mut Session,
    file: &mut ShortWrites,
) {
    let shown = session.write_window(PLAIN.window, file);
    assert_eq!(rt; shown, Err(Refusal::NoMemory));
    let written = session.write(rt, rt.alloc(), RLE.format, file);
    assert_eq!(rt; written, Err(Refusal::NoMemory));
    assert_eq!(rt; file.text(), "");
}

// Asserts that each call of a closed session is refused.
fn assert_closed<R: Abort + AllocGlobal + Threads + Sync>(
    rt: &R,
    mut session: Session,
    file: &mut ShortWrites,
) {
    let advanced = session.advance(&one_worker(rt), 0);
    assert_eq!(rt; advanced, Err(Refusal::NoMemory));
    assert_not_seen(rt, &mut session);
    assert_not_written(rt, &mut session, file);
    let pattern = session.into_pattern(rt.alloc());
    assert_eq!(rt; pattern.map(drop), Err(Refusal::NoMemory));
}

// Takes a session on. Where that is refused, it is as it was, and comes there at the second try; or
// it is closed, and `false` is answered.
fn advances<R: Abort + AllocGlobal + Print + Threads + Sync>(
    rt: &R,
    session: &mut Session,
    more: u64,
) -> Result<bool, Fail> {
    let before = session.generation();
    let advanced = session.advance(&one_worker(rt), more);
    if given(rt, advanced, "advance")?.is_none() {
        assert_eq!(rt; session.generation(), before);
        if session.first_row(0).is_err() {
            return Ok(false);
        }
        session.advance(&one_worker(rt), more)?;
    }
    assert_eq!(rt; session.generation(), before.saturating_add(more));
    Ok(true)
}

// Takes a session from stop to stop. `false` is answered where it is closed on its way.
fn reaches_the_last_stop<R: Abort + AllocGlobal + Print + Threads + Sync>(
    rt: &R,
    session: &mut Session,
) -> Result<bool, Fail> {
    for stop in &STOPS {
        if !advances(rt, session, stop.more)? {
            return Ok(false);
        }
        assert_looks(rt, session, stop)?;
    }
    Ok(true)
}

// Asserts the file of the last stop, likewise at the second try.
fn assert_settled<R: Abort + AllocGlobal + Print + Threads + Sync>(
    rt: &R,
    session: &mut Session,
    file: &mut ShortWrites,
) -> Result<(), Fail> {
    let written = session.write(rt, rt.alloc(), RLE.format, file);
    if given(rt, written, "write")?.is_none() {
        assert_eq!(rt; file.text(), "");
        session.write(rt, rt.alloc(), RLE.format, file)?;
    }
    assert_eq!(rt; file.text(), SETTLED.text);
    Ok(())
}

#[test]
fn a_session_in_want_of_memory_is_as_it_was_or_closed(rt: HostRuntime) -> Result<(), Fail> {
    let Ok(mut file) = ShortWrites::new(rt.alloc(), usize::MAX, 0) else {
        return Ok(println!(rt; "no file")?);
    };
    let Ok(mut session) = opened(&rt, R_PENTOMINO.file, None, PLAIN.pairs) else {
        return Ok(println!(rt; "no session")?);
    };
    if reaches_the_last_stop(&rt, &mut session)? {
        assert_settled(&rt, &mut session, &mut file)
    } else {
        assert_closed(&rt, session, &mut file);
        Ok(())
    }
}
