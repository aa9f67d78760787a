//! A round at a table whose leaf slots are all taken.

ghost use Rattle.node_table.specs.Desks.{IsDeskOf};

use crate::tests::leaves::make_leaves;
use crate::tests::rounds::jobs_of_leaves::jobs_at;
use crate::tests::tables::{PAIRS, empty_table};
use node_table::{Desk, NodeTable};
use plane::Refusal;
use sample_patterns::BLINKER_LEAVES;
use squares::{Num, Squares, join_leaves};
use std::test::Fail;
use worker_split::{OpenGate, round};

// With the two of the blinker, there are as many leaves as slots for them.
fn desk_with_leaves(table: &NodeTable, desk: Desk) -> Desk
    requires { IsDeskOf table.now desk }
    ensures { IsDeskOf table.now result }
{
    let mut at = table.at(desk);
    make_leaves(&mut at, 1, 254);
    at.leave()
}

// The number of a square's result, where that is known.
fn result_of<S: Squares>(book: &mut S, leaves: [u64; 4]) -> Result<Option<Num>, Refusal> {
    let sq = join_leaves(book, leaves)?;
    Ok(book.recall(sq).map(|it| it.num))
}

// The cell in the corner has no future that needs a slot. The blinker's does.
const CORNER: [u64; 4] = [1, 0, 0, 0];

#[test]
fn a_refused_job_does_not_stop_the_other(rt: HostRuntime) -> Result<(), Fail> {
    let (table, desk) = empty_table(rt.alloc(), PAIRS, 0)?;
    let desk = desk_with_leaves(&table, desk);
    let (desk, jobs) = jobs_at(rt.alloc(), &table, desk, &[CORNER, BLINKER_LEAVES]);
    let jobs = jobs?;
    let (desk, futures) = round(&rt, rt.alloc(), &table, desk, jobs.as_slice(), 2, &OpenGate);
    assert_eq!(rt; futures.err(), Some(Refusal::NodesFull));
    let mut at = table.at(desk);
    assert_eq!(rt; result_of(&mut at, CORNER)?, Some(Num(0)));
    assert_eq!(rt; result_of(&mut at, BLINKER_LEAVES)?, None);
    Ok(())
}
