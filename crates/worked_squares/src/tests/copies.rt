//! How often a copy asks both books: once for each number above a leaf, however often the square
//! has it.

ghost use Rattle.std.specs.Prelude.{IfOk};
ghost use Rattle.squares.specs.Book.{IsKnown};

use crate::tests::books::book_of;
use crate::tests::rows::assert_same;
use plane::Refusal;
use rule_text::Rule;
use squares::{PlainBook, Sq, Squares, copy_between, copy_square, join_leaves};
use std::alloc::Global;

// The calls of a book that read or make squares.
#[derive(Clone, Copy, Debug, PartialEq, Eq)]
struct Calls {
    read_bits: u32,
    read_parts: u32,
    leaf: u32,
    quad: u32,
}

// A book that counts such calls, and asks another one.
#[derive(Drop)]
struct Counting<B> {
    inner: B,
    calls: Calls,
}

const NO_CALLS: Calls = Calls {
    read_bits: 0,
    read_parts: 0,
    leaf: 0,
    quad: 0,
};

const READ: Calls = Calls {
    read_bits: 5,
    read_parts: 4,
    leaf: 0,
    quad: 0,
};

const MADE: Calls = Calls {
    read_bits: 0,
    read_parts: 0,
    leaf: 5,
    quad: 4,
};

impl<B: Squares> Squares for Counting<B> {
    ghost book = { λ s. B.book s.inner };

    fn rule(&self) -> &Rule {
        self.inner.rule()
    }

    fn exponent(&self) -> u8 {
        self.inner.exponent()
    }

    fn read_bits(&mut self, sq: Sq) -> u64 {
        self.calls.read_bits = self.calls.read_bits.saturating_add(1);
        self.inner.read_bits(sq)
    }

    fn read_parts(&mut self, sq: Sq) -> [Sq; 4] {
        self.calls.read_parts = self.calls.read_parts.saturating_add(1);
        self.inner.read_parts(sq)
    }

    fn leaf(&mut self, word: u64) -> Result<Sq, Refusal> {
        self.calls.leaf = self.calls.leaf.saturating_add(1);
        self.inner.leaf(word)
    }

    fn quad(&mut self, quarters: [Sq; 4]) -> Result<Sq, Refusal> {
        self.calls.quad = self.calls.quad.saturating_add(1);
        self.inner.quad(quarters)
    }

    fn recall(&mut self, sq: Sq) -> Option<Sq> {
        self.inner.recall(sq)
    }

    fn keep(&mut self, sq: Sq, future: Sq) -> Result<(), Refusal> {
        self.inner.keep(sq, future)
    }

    ghost is_book = { λ s. B.is_book s.inner };
}

const BLOCK: u64 = 0x0000_0018_1800_0000;

const DOT: u64 = 1;

// A square of level 6 with four numbers above leaves: its own, that of all its quarters, and the
// two of their quarters. One of these two has three leaves, the other two.
fn with_shared_quarters<S: Squares>(book: &mut S) -> Result<Sq, Refusal>
    ensures { IfOk result (IsKnown (S.book book.new) 6) }
{
    let three = join_leaves(book, [BLOCK, BLOCK, BLOCK, 0])?;
    let two = join_leaves(book, [DOT, 0, 0, BLOCK])?;
    let quarter = book.quad([three, two, three, three])?;
    book.quad([quarter, quarter, quarter, quarter])
}

fn life_book(alloc: Global) -> Result<PlainBook, Refusal> {
    book_of(alloc, "B3/S23", 0)
}

fn counting_book(alloc: Global) -> Result<Counting<PlainBook>, Refusal> {
    let inner = life_book(alloc)?;
    Ok(Counting {
        inner,
        calls: NO_CALLS,
    })
}

fn copy_from(
    alloc: Global,
    from: &mut PlainBook,
    to: &mut Counting<PlainBook>,
) -> Result<(), Refusal> {
    let sq = with_shared_quarters(from)?;
    copy_square(alloc, from, sq, to)?;
    Ok(())
}

// The calls that a copy takes in the book to which it goes.
fn calls_of_a_copy(alloc: Global) -> Result<Calls, Refusal> {
    let mut from = life_book(alloc)?;
    let mut to = counting_book(alloc)?;
    copy_from(alloc, &mut from, &mut to)?;
    Ok(to.calls)
}

// Four numbers are made, not 21: those of the square, its 4 quarters and their 16. The leaves are
// not noted, so the three and the two of the smallest squares are made, but no empty one.
#[test]
fn a_copy_makes_each_number_once(rt: HostRuntime) {
    assert_same(&rt, calls_of_a_copy(rt.alloc()), Ok(MADE));
}

// The square that is copied is made before the calls are counted.
fn copy_both_counted(
    alloc: Global,
    from: &mut Counting<PlainBook>,
    to: &mut Counting<PlainBook>,
) -> Result<(), Refusal> {
    let sq = with_shared_quarters(&mut from.inner)?;
    copy_between(alloc, from, sq, to)?;
    Ok(())
}

// The calls that a copy takes in the book from which it comes, and in the other.
fn calls_between(alloc: Global) -> Result<(Calls, Calls), Refusal> {
    let mut from = counting_book(alloc)?;
    let mut to = counting_book(alloc)?;
    copy_both_counted(alloc, &mut from, &mut to)?;
    Ok((from.calls, to.calls))
}

#[test]
fn a_copy_reads_each_number_once(rt: HostRuntime) {
    assert_same(&rt, calls_between(rt.alloc()), Ok((READ, MADE)));
}
