//! The future of a square with several workers, beside that of a plain book.

ghost use Rattle.std.specs.Prelude.{IfOk};
ghost use Rattle.squares.specs.Book.{IsKnown, Keeps};
ghost use Rattle.node_table.specs.Desks.{IsDeskOf, book_at};
ghost use Rattle.node_table.specs.Stills.{book_in};
ghost use Rattle.worker_split.specs.Jobs.{IsJob};

use crate::tests::tables::empty_table;
use hashlife_step::{Tally, future, pad};
use node_table::{Desk, NodeTable, Still};
use plane::Refusal;
use rule_text::Rule;
use sample_patterns::R_PENTOMINO_LEAVES;
use squares::{PlainBook, Sq, Squares, copy_square, join_leaves};
use std::process::Abort;
use std::test::Fail;
use std::thread::Threads;
use worker_split::{OpenGate, batch_future};

// The R-pentomino with room round it for a step of 2^9 generations.
fn padded<S: Squares>(book: &mut S) -> Result<Sq, Refusal>
    ensures known { IfOk result (IsJob (S.book book.new)) }
    ensures keeps { Keeps (S.book book.old) (S.book book.new) }
{
    let sq = join_leaves(book, R_PENTOMINO_LEAVES)?;
    pad(book, sq, 9)
}

pub(crate) fn job_at(table: &NodeTable, desk: Desk) -> (Desk, Result<Sq, Refusal>)
    requires { IsDeskOf table.now desk }
    ensures desk { IsDeskOf table.now result.0 }
    ensures job { IfOk result.1 (IsJob (book_at table.now result.0)) }
{
    let mut at = table.at(desk);
    let made = padded(&mut at);
    (at.leave(), made)
}

// What so many workers made: the words of its table, the future in them, and the expansions.
#[derive(Drop)]
struct Made {
    words: Still,
    future: Sq,
    expansions: u64,
}

fn made_by<R: Threads + Sync + Abort + AllocGlobal>(
    rt: &R,
    workers: usize,
    exponent: u8,
) -> Result<Made, Fail>
    ensures { IfOk result (λ made. IsKnown (book_in made.words) made.future.level made.future) }
{
    assert!(rt; workers >= 1 && workers <= 64);
    let (table, desk) = empty_table(rt.alloc(), 262144, exponent)?;
    let (desk, job) = job_at(&table, desk);
    let job = job?;
    let (desk, made) = batch_future(rt, rt.alloc(), &table, desk, job, workers, &OpenGate);
    let expansions = desk.expansions();
    let words = table.close(desk);
    let future = made?;
    Ok(Made {
        words,
        future,
        expansions,
    })
}

// The future of the same square with only a plain book.
fn made_alone<S: Squares>(book: &mut S, tally: &mut Tally) -> Result<Sq, Refusal> {
    let job = padded(book)?;
    future(book, job, tally)
}

// Exponents for which the middle squares have futures too, and for which they give their centres.
#[test]
fn workers_find_the_future_of_one_alone(rt: HostRuntime) -> Result<(), Fail> {
    for exponent in [9, 12, 5] {
        let mut plain = PlainBook::new(rt.alloc(), Rule::read(b"B3/S23")?, exponent);
        let mut own = Tally { expansions: 0 };
        let wanted = made_alone(&mut plain, &mut own)?;
        for workers in [1, 2, 64] {
            let made = made_by(&rt, workers, exponent)?;
            let copy = copy_square(rt.alloc(), &made.words, made.future, &mut plain)?;
            assert_eq!(rt; copy, wanted);
            let most = own.expansions.saturating_mul(workers as u64);
            assert!(rt; made.expansions >= own.expansions && made.expansions <= most);
        }
    }
    Ok(())
}
