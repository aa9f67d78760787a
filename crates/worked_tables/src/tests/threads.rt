//! Two threads and eight that number the same words at one table: each word has one number in the
//! end.

ghost use Rattle.squares.specs.Book.{Keeps};
ghost use Rattle.node_table.specs.Desks.{IsDeskOf};

use crate::tests::tables::{PAIRS, empty_table};
use node_table::{Desk, NodeTable};
use plane::Refusal;
use squares::{Num, Squares};
use std::test::Fail;
use std::thread::{Threads, join};

// The numbers of the words 1 to 256, as far as they find room.
type Numbers = [Option<Num>; 256];

// Numbers the words, rising or falling.
fn numbers_of<S: Squares>(book: &mut S, rising: bool) -> Numbers
    ensures { Keeps (S.book book.old) (S.book book.new) }
{
    let mut numbers = [None; 256];
    for step in 0..256usize {
        let place = if rising { step } else { 255 - step };
        numbers[place] = book.leaf(place as u64 + 1).ok().map(|sq| sq.num);
    }
    numbers
}

fn numbered(table: &NodeTable, desk: Desk, rising: bool) -> (Desk, Numbers)
    requires { IsDeskOf table.now desk }
    ensures { IsDeskOf table.now result.0 }
{
    let mut at = table.at(desk);
    let numbers = numbers_of(&mut at, rising);
    (at.leave(), numbers)
}

// Numbers the words by two desks, each in a thread of its own: one goes rising, the other falling.
// Answers the joined desk, and the numbers that each thread got.
fn numbered_by_two<R: Threads + Sync>(
    rt: &R,
    table: &NodeTable,
    desk: Desk,
) -> (Desk, Numbers, Numbers)
    requires { IsDeskOf table.now desk }
    ensures { IsDeskOf table.now result.0 }
{
    let (first, second) = table.split(desk);
    let (first, second) = join(
        rt,
        move || -> (Desk, Numbers)
            requires { IsDeskOf table.now first }
            ensures { IsDeskOf table.entry.now result.0 }
        { numbered(table, first, true) },
        move || -> (Desk, Numbers)
            requires { IsDeskOf table.now second }
            ensures { IsDeskOf table.entry.now result.0 }
        { numbered(table, second, false) },
    );
    let (first, rising) = first;
    let (second, falling) = second;
    (table.join(first, second), rising, falling)
}

fn mark(seen: &mut [bool], index: usize) {
    if let Some(it) = seen.get_mut(index) {
        *it = true;
    }
}

fn count(seen: &[bool]) -> usize {
    seen.iter().filter(|it| **it).count()
}

/// How many numbers up to 256 the words 1 to 257 have, and how many of the words find no room.
pub(crate) fn numbers_and_refusals<S: Squares>(book: &mut S) -> (usize, usize) {
    let mut numbers = [false; 257];
    let mut refused = [false; 258];
    for word in 1..=257 {
        match book.leaf(word) {
            Ok(sq) => mark(&mut numbers, sq.num.0 as usize),
            Err(Refusal::NodesFull) => mark(&mut refused, word as usize),
            Err(_) => {}
        }
    }
    (count(&numbers), count(&refused))
}

#[test]
fn two_threads_give_one_number_each(rt: HostRuntime) -> Result<(), Fail> {
    let (table, desk) = empty_table(rt.alloc(), PAIRS, 0)?;
    let (joined, rising, falling) = numbered_by_two(&rt, &table, desk);
    let mut at = table.at(joined);
    let numbers = numbers_of(&mut at, true);
    assert!(rt; rising == numbers && falling == numbers);
    assert_eq!(rt; numbers_and_refusals(&mut at), (256, 1));
    Ok(())
}

// What the words 1 to 257 are answered.
type Answers = [Result<Num, Refusal>; 257];

// What a desk answers that begins with this word and goes round.
fn answers_from<S: Squares>(book: &mut S, first: u64) -> Answers
    ensures { Keeps (S.book book.old) (S.book book.new) }
{
    let mut answers = [Err(Refusal::NoMemory); 257];
    for step in 0..257 {
        let place = (first % 257 + step) % 257;
        answers[place as usize] = book.leaf(place + 1).map(|sq| sq.num);
    }
    answers
}

fn answered(table: &NodeTable, desk: Desk, first: u64) -> (Desk, Option<Answers>)
    requires { IsDeskOf table.now desk }
    ensures { IsDeskOf table.now result.0 }
{
    let mut at = table.at(desk);
    let answers = answers_from(&mut at, first);
    (at.leave(), Some(answers))
}

// The answers that two have alike, if they have.
fn alike(first: Option<Answers>, second: Option<Answers>) -> Option<Answers> {
    if first == second { first } else { None }
}

// What 2^splits desks answer alike, each in a thread of its own: of two that were split the second
// begins so many words behind the first.
fn answered_by<R: Threads + Sync>(
    rt: &R,
    table: &NodeTable,
    desk: Desk,
    splits: u32,
    first: u64,
    behind: u64,
) -> (Desk, Option<Answers>)
    requires { IsDeskOf table.now desk }
    ensures { IsDeskOf table.now result.0 }
{
    if splits == 0 {
        return answered(table, desk, first);
    }
    let splits = splits - 1;
    let (one, other) = table.split(desk);
    let ((one, answers), (other, others)) = join(
        rt,
        move || -> (Desk, Option<Answers>)
            requires { IsDeskOf table.now one }
            ensures { IsDeskOf table.entry.now result.0 }
        { answered_by(rt, table, one, splits, first, behind / 2) },
        move || -> (Desk, Option<Answers>)
            requires { IsDeskOf table.now other }
            ensures { IsDeskOf table.entry.now result.0 }
        {
            answered_by(
                rt,
                table,
                other,
                splits,
                first.wrapping_add(behind),
                behind / 2,
            )
        },
    );
    (table.join(one, other), alike(answers, others))
}

// Desk d of eight begins with the word 32d + 1, which is the place 32d. One word finds no room at
// any of them.
#[test]
fn eight_threads_answer_alike(rt: HostRuntime) -> Result<(), Fail> {
    let (table, desk) = empty_table(rt.alloc(), PAIRS, 0)?;
    let (joined, answers) = answered_by(&rt, &table, desk, 3, 0, 128);
    assert!(rt; answers.is_some());
    let mut at = table.at(joined);
    assert_eq!(rt; numbers_and_refusals(&mut at), (256, 1));
    assert!(rt; Some(answers_from(&mut at, 0)) == answers);
    Ok(())
}
