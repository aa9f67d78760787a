//! What is tried where a table is full, in its order.

ghost use Rattle.std.specs.Prelude.{◌≤◌};

use std::alloc::Global;
use std::test::Fail;
use table_core::Shape;
use table_growth::{Retry, RetryPlan, TableHistory};

// A table that is full, and what is tried then: its size and the largest one's, the steps that it
// has taken, how many collections help, and how many workers there are. A number in the order is
// the size of a larger table; one with "alone" has only the cells.
#[derive(Clone, Copy)]
struct Case {
    shape: Shape,
    limit: Shape,
    steps: u32,
    collections: u32,
    workers: usize,
    order: &'static str,
}

// What is tried, in this order.
fn order(alloc: Global, case: &Case) -> Result<String, Fail> {
    let mut history = TableHistory::new();
    for _ in 0..case.steps {
        history = history.after_try(true, 0);
    }
    let plan = RetryPlan {
        shape: case.shape,
        history,
        limit: case.limit,
        workers: case.workers,
    };
    let mut order = String::new(alloc);
    let mut left = case.collections;
    let mut tried = None;
    for _ in 0..32u8 {
        tried = plan.next(tried, left > 0);
        match tried {
            Some(Retry::Swept) => order.push_str("sweep ")?,
            Some(Retry::Enlarged(shape)) => write!(order, "{} ", shape.bits)?,
            Some(Retry::Restarted(shape)) => write!(order, "{}-alone ", shape.bits)?,
            Some(Retry::Collected(_)) => {
                left = left.saturating_sub(1);
                order.push_str("collect ")?;
            }
            Some(Retry::CellsAlone) => order.push_str("alone ")?,
            None => break,
        }
    }
    order.push_str("halve")?;
    Ok(order)
}

// A table of 2^bits pair slots, where the largest has 2^limit.
fn full(bits: u8, limit: u8, steps: u32, collections: u32, order: &'static str) -> Case
    requires bits { (10 ≤ bits) × (bits ≤ 28) }
    requires limit { (10 ≤ limit) × (limit ≤ 28) }
{
    Case {
        shape: Shape { bits },
        limit: Shape { bits: limit },
        steps,
        collections,
        workers: 1,
        order,
    }
}

// The same, with so many workers.
fn by_team(workers: usize, mut case: Case) -> Case {
    case.workers = workers;
    case
}

#[test]
fn each_retry_in_its_order(rt: HostRuntime) -> Result<(), Fail> {
    let cases = [
        full(10, 10, 0, 0, "alone halve"),
        full(12, 17, 0, 0, "16 17 alone halve"),
        full(12, 22, 4, 1, "16 20 22 collect alone halve"),
        full(12, 17, 5, 0, "14 16 17 alone halve"),
        full(15, 17, 256, 0, "17 alone halve"),
        full(16, 20, 255, 0, "18 20 alone halve"),
        full(16, 20, 256, 0, "sweep 18 20 alone halve"),
        full(18, 20, 3, 0, "20 alone halve"),
        full(18, 22, 4, 0, "sweep 20 22 alone halve"),
        full(20, 20, 9, 2, "collect collect alone halve"),
        full(16, 24, 0, 0, "20 24 alone halve"),
        full(18, 28, 5, 0, "sweep 20 24 28 alone halve"),
        full(20, 23, 0, 0, "23 alone halve"),
        full(22, 25, 0, 0, "25 alone halve"),
        by_team(7, full(12, 22, 0, 1, "16 20 22 collect alone halve")),
        by_team(64, full(12, 22, 0, 0, "16 20 22 alone halve")),
        by_team(7, full(12, 23, 0, 0, "16 20 23 alone halve")),
        by_team(
            8,
            full(12, 23, 0, 0, "16-alone 20-alone 23-alone alone halve"),
        ),
        by_team(8, full(12, 23, 1, 0, "16 20 23 alone halve")),
    ];
    for case in &cases {
        assert_eq!(rt; order(rt.alloc(), case)?.as_str(), case.order);
    }
    Ok(())
}
