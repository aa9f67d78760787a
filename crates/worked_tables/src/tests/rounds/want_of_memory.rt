//! Want of memory: a round ends before its first job, and the desk that comes back does it at the
//! second try. `rt try --test --fail-alloc N -- rounds::want_of_memory` makes the Nth allocation
//! fail.

ghost use Rattle.node_table.specs.Desks.{IsDeskOf, book_at};
ghost use Rattle.worker_split.specs.Jobs.{IsJob};

use crate::tests::rounds::futures::job_at;
use crate::tests::want_of_memory::{empty_words, opened};
use node_table::{Desk, NodeTable};
use plane::Refusal;
use squares::Sq;
use std::test::Fail;
use std::thread::Threads;
use worker_split::{OpenGate, batch_future};

// Room for 2^9 generations of the R-pentomino.
const PAIRS: u32 = 262144;

// Whether two workers find the future of a square, at the second try if memory was wanting.
fn is_found<R: Threads + Sync + Print + AllocGlobal>(
    rt: &R,
    table: &NodeTable,
    desk: Desk,
    job: Sq,
) -> Result<bool, Fail>
    requires desk { IsDeskOf table.now desk }
    requires job { IsJob (book_at table.now desk) job }
{
    let (desk, made) = batch_future(rt, rt.alloc(), table, desk, job, 2, &OpenGate);
    if made.err() == Some(Refusal::NoMemory) {
        println!(rt; "no round")?;
        let (_desk, again) = batch_future(rt, rt.alloc(), table, desk, job, 2, &OpenGate);
        return Ok(again.is_ok());
    }
    Ok(made.is_ok())
}

#[test]
fn a_desk_comes_back_for_want_of_memory(rt: HostRuntime) -> Result<(), Fail> {
    let Some(still) = empty_words(&rt, PAIRS)? else {
        return Ok(());
    };
    let (table, desk) = opened(&rt, still, 9)?;
    let (desk, job) = job_at(&table, desk);
    assert!(rt; is_found(&rt, &table, desk, job?)?);
    Ok(())
}
