//! Two desks at work in two threads, and the desk that they are joined into.

ghost use Rattle.squares.specs.Book.{IsKnown};
ghost use Rattle.node_table.specs.Desks.{IsDeskOf};

use crate::tests::glider::{
    FOUR_GENERATIONS_ON, GLIDER, glider, glider_and_future, glider_and_result,
};
use crate::tests::tables::{PAIRS, empty_table};
use node_table::{Desk, NodeTable};
use plane::Refusal;
use squares::{Sq, Squares};
use std::test::Fail;
use std::thread::{Threads, join};

fn leaves<S: Squares>(book: &mut S, sq: Sq) -> [u64; 4]
    requires { IsKnown (S.book book.old) 4 sq }
{
    let [nw, ne, sw, se] = book.read_parts(sq);
    let nw = book.read_bits(nw);
    let ne = book.read_bits(ne);
    let sw = book.read_bits(sw);
    let se = book.read_bits(se);
    [nw, ne, sw, se]
}

// What stands in the glider's square.
fn leaves_of_glider<S: Squares>(book: &mut S) -> Result<[u64; 4], Refusal> {
    let sq = glider(book)?;
    Ok(leaves(book, sq))
}

// What stands in the result of the glider's square, where that is known.
fn bits_of_result<S: Squares>(book: &mut S) -> Result<Option<u64>, Refusal> {
    let sq = glider(book)?;
    Ok(book.recall(sq).map(|later| book.read_bits(later)))
}

fn desk_with_glider(table: &NodeTable, desk: Desk) -> (Desk, Result<Sq, Refusal>)
    requires { IsDeskOf table.now desk }
    ensures { IsDeskOf table.now result.0 }
{
    let mut at = table.at(desk);
    let made = glider(&mut at);
    (at.leave(), made)
}

fn desk_with_future(table: &NodeTable, desk: Desk) -> (Desk, Result<(Sq, Sq), Refusal>)
    requires { IsDeskOf table.now desk }
    ensures { IsDeskOf table.now result.0 }
{
    let mut at = table.at(desk);
    let made = glider_and_future(&mut at);
    (at.leave(), made)
}

// What the desks made: the one a glider's square, the other that and its future.
#[derive(Drop)]
struct Made {
    desk: Desk,
    square: Result<Sq, Refusal>,
    told: Result<(Sq, Sq), Refusal>,
}

fn made_by_two<R: Threads + Sync>(rt: &R, table: &NodeTable, desk: Desk) -> Made
    requires { IsDeskOf table.now desk }
    ensures { IsDeskOf table.now result.desk }
{
    let (first, second) = table.split(desk);
    let ((first, square), (second, told)) = join(
        rt,
        move || -> (Desk, Result<Sq, Refusal>)
            requires { IsDeskOf table.now first }
            ensures { IsDeskOf table.entry.now result.0 }
        { desk_with_glider(table, first) },
        move || -> (Desk, Result<(Sq, Sq), Refusal>)
            requires { IsDeskOf table.now second }
            ensures { IsDeskOf table.entry.now result.0 }
        { desk_with_future(table, second) },
    );
    Made {
        desk: table.join(first, second),
        square,
        told,
    }
}

#[test]
fn a_square_of_two_threads_has_one_number(rt: HostRuntime) -> Result<(), Fail> {
    let (table, desk) = empty_table(rt.alloc(), PAIRS, 2)?;
    let Made { desk, square, told } = made_by_two(&rt, &table, desk);
    let (sq, later) = told?;
    let mut at = table.at(desk);
    assert_eq!(rt; square?, sq);
    assert_eq!(rt; glider_and_result(&mut at)?, (sq, Some(later)));
    assert_eq!(rt; leaves_of_glider(&mut at)?, GLIDER);
    assert_eq!(rt; bits_of_result(&mut at)?, Some(FOUR_GENERATIONS_ON));
    Ok(())
}
