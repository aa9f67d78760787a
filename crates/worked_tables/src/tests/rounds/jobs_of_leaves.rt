//! Jobs at running tables, made of leaves, for the other examples.

ghost use Rattle.std.specs.Prelude.{IfOk, All};
ghost use Rattle.squares.specs.Book.{IsKnown, Keeps};
ghost use Rattle.node_table.specs.Desks.{IsDeskOf, book_at};
ghost use Rattle.worker_split.specs.Jobs.{IsJob};

use node_table::{Desk, NodeTable};
use plane::Refusal;
use squares::{Sq, Squares, join_leaves};
use std::alloc::Global;
use std::test::Fail;

// The squares of level 4 of these leaves.
fn all_of_leaves<S: Squares>(
    alloc: Global,
    book: &mut S,
    leaves: &[[u64; 4]],
) -> Result<Vec<Sq>, Refusal>
    ensures known { IfOk result (λ squares. All (IsKnown (S.book book.new) 4) squares.items) }
    ensures keeps { Keeps (S.book book.old) (S.book book.new) }
{
    let mut squares = Vec::new(alloc);
    for k in 0..leaves.len() {
        let sq = join_leaves(book, leaves[k])?;
        squares.push(sq)?;
    }
    Ok(squares)
}

/// The desk, and the squares of level 4 of these leaves as jobs.
pub(crate) fn jobs_at(
    alloc: Global,
    table: &NodeTable,
    desk: Desk,
    leaves: &[[u64; 4]],
) -> (Desk, Result<Vec<Sq>, Refusal>)
    requires { IsDeskOf table.now desk }
    ensures desk { IsDeskOf table.now result.0 }
    ensures jobs { IfOk result.1 (λ jobs. All (IsJob (book_at table.now result.0)) jobs.items) }
{
    let mut at = table.at(desk);
    let jobs = all_of_leaves(alloc, &mut at, leaves);
    (at.leave(), jobs)
}

/// The leaves of so many squares, which differ from one another.
pub(crate) fn leaves_of(alloc: Global, count: u64) -> Result<Vec<[u64; 4]>, Fail> {
    let mut list = Vec::new(alloc);
    for k in 0..count {
        list.push([k + 1, 0, 0, 0])?;
    }
    Ok(list)
}
