//! How many looks, claims, asks and tells a search takes, and the reads and results of a square.
//!
//! A running table counts no steps. What is counted here is what a desk of this file makes on a
//! plain list of words: it goes along the way of a word, and each look, claim, ask and tell is one
//! call of `step`. A running desk goes the same ways, as the numbers show that it gives, and the
//! words that it leaves.

ghost use Rattle.squares.specs.Book.{Keeps};

use crate::tests::tables::{PAIRS, empty_table};
use node_table::Held;
use plane::Refusal;
use squares::{Squares, join_leaves};
use std::test::Fail;
use table_core::{Event, Kind, SHARD_LEN, Shape, pair_word, parts, step};

// The words of the smallest table.
const WORDS: usize = 2305;

// The words of a table, and how many looks, claims, asks and tells were made on them.
#[derive(Drop)]
struct Counting {
    words: [u64; WORDS],
    steps: [u32; 4],
}

impl Counting {
    fn new() -> Counting {
        Counting {
            words: [0; WORDS],
            steps: [0; 4],
        }
    }

    // How many steps of each kind were made since this was asked last.
    fn taken(&mut self) -> [u32; 4] {
        let steps = self.steps;
        self.steps = [0; 4];
        steps
    }

    fn look(&mut self, slot: u32) -> u64 {
        self.steps[0] = self.steps[0].wrapping_add(1);
        if slot as usize >= WORDS {
            return 0;
        }
        let look = Event::Look { desk: 0, slot };
        step(&mut self.words, look)
    }

    fn claim(&mut self, slot: u32, word: u64) -> u64 {
        self.steps[1] = self.steps[1].wrapping_add(1);
        if slot as usize >= WORDS {
            return 0;
        }
        let claim = Event::Claim {
            desk: 0,
            slot,
            word,
        };
        step(&mut self.words, claim)
    }

    fn ask(&mut self, slot: u32) -> u64 {
        self.steps[2] = self.steps[2].wrapping_add(1);
        if slot as usize >= WORDS {
            return 0;
        }
        let ask = Event::Ask { desk: 0, slot };
        step(&mut self.words, ask)
    }

    fn tell(&mut self, slot: u32, number: u32) -> u64 {
        self.steps[3] = self.steps[3].wrapping_add(1);
        if slot as usize >= WORDS {
            return 0;
        }
        let tell = Event::Tell {
            desk: 0,
            slot,
            number,
        };
        step(&mut self.words, tell)
    }

    // The number of a word that is not 0, or none where each slot of its way holds another word.
    fn search(&mut self, kind: Kind, word: u64) -> Option<u32> {
        let shape = Shape::new(PAIRS);
        for place in 0..SHARD_LEN {
            let slot = shape.way_index(kind, word, place);
            let mut found = self.look(slot);
            if found == 0 {
                found = self.claim(slot, word);
            }
            if found == 0 || found == word {
                return Some(slot);
            }
        }
        None
    }

    fn leaf(&mut self, word: u64) -> Option<u32> {
        if word == 0 {
            return Some(0);
        }
        self.search(Kind::Leaf, word)
    }

    fn pair(&mut self, first: u32, second: u32) -> Option<u32> {
        if first == 0 && second == 0 {
            return Some(0);
        }
        self.search(Kind::Pair, pair_word(first, second))
    }

    fn quad(&mut self, quarters: [u32; 4]) -> Option<u32> {
        let [nw, ne, sw, se] = quarters;
        let upper = self.pair(nw, ne)?;
        let lower = self.pair(sw, se)?;
        self.pair(upper, lower)
    }

    fn half(&mut self, number: u32) -> (u32, u32) {
        if number == 0 {
            (0, 0)
        } else {
            parts(self.look(number))
        }
    }

    fn read_parts(&mut self, number: u32) -> [u32; 4] {
        let (upper, lower) = self.half(number);
        let (nw, ne) = self.half(upper);
        let (sw, se) = self.half(lower);
        [nw, ne, sw, se]
    }

    // The number of a square's result, if it is known.
    fn recall(&mut self, number: u32) -> Option<u32> {
        if number == 0 {
            return Some(0);
        }
        let word = self.ask(number.wrapping_add(PAIRS));
        if word == 0 { None } else { Some(parts(word).1) }
    }

    fn keep(&mut self, number: u32, future: u32) {
        if number != 0 {
            self.tell(number.wrapping_add(PAIRS), future);
        }
    }
}

// A word, the number of its leaf, and the looks, claims, asks and tells of its search: the empty
// leaf takes none, a new leaf is claimed in the first slot that is vacant, and one that stands in
// its first slot is looked at.
const LEAVES: &[(u64, Option<u32>, [u32; 4])] = &[
    (0, Some(0), [0, 0, 0, 0]),
    (1, Some(159), [1, 1, 0, 0]),
    (1, Some(159), [1, 0, 0, 0]),
    (2, Some(61), [1, 1, 0, 0]),
];

#[test]
fn a_leaf_takes_one_search(rt: HostRuntime) {
    let mut counting = Counting::new();
    for (word, number, steps) in LEAVES {
        assert_eq!(rt; (counting.leaf(*word), counting.taken()), (*number, *steps));
    }
}

// The 257th word finds another word in each of the 256 slots, and claims none of them.
#[test]
fn a_full_way_takes_256_looks(rt: HostRuntime) {
    let mut counting = Counting::new();
    for word in 1..=256 {
        assert!(rt; counting.leaf(word).is_some());
    }
    let claims = counting.taken()[1];
    assert_eq!(rt; claims, 256);
    assert_eq!(rt;
        (counting.leaf(257), counting.taken()),
        (None, [256, 0, 0, 0])
    );
    assert_eq!(rt;
        (counting.leaf(1), counting.taken()),
        (Some(159), [1, 0, 0, 0])
    );
}

// Quarters, and the steps by which their square is found: a search for each half with a cell, and
// one for the two halves.
const QUADS: &[([u32; 4], [u32; 4])] = &[
    ([0, 0, 0, 0], [0, 0, 0, 0]),
    ([159, 0, 0, 0], [2, 2, 0, 0]),
    ([159, 0, 0, 0], [2, 0, 0, 0]),
    ([159, 61, 219, 121], [3, 3, 0, 0]),
    ([159, 61, 219, 121], [3, 0, 0, 0]),
];

#[test]
fn a_square_takes_at_most_three_searches(rt: HostRuntime) {
    let mut counting = Counting::new();
    for (quarters, steps) in QUADS {
        let made = counting.quad(*quarters);
        assert_eq!(rt;
            (quarters, made.is_some(), counting.taken()),
            (quarters, true, *steps)
        );
    }
}

// Quarters, and the looks by which they are read: one for the square, and one for each half with a
// cell.
const READS: &[([u32; 4], u32)] = &[
    ([0, 0, 0, 0], 0),
    ([159, 0, 0, 0], 2),
    ([0, 0, 219, 121], 2),
    ([159, 61, 219, 121], 3),
];

#[test]
fn quarters_are_read_by_at_most_three_looks(rt: HostRuntime) {
    let mut counting = Counting::new();
    for (quarters, looks) in READS {
        let made = counting.quad(*quarters).unwrap_or(0);
        let _ = counting.taken();
        assert_eq!(rt;
            (counting.read_parts(made), counting.taken()),
            (*quarters, [*looks, 0, 0, 0])
        );
    }
}

// The result of the empty square takes no step. That of another is asked by one step and told by
// one; one told later is lost.
#[test]
fn a_result_takes_one_ask_and_one_tell(rt: HostRuntime) {
    let mut counting = Counting::new();
    let made = counting.quad([159, 0, 0, 0]).unwrap_or(0);
    let _ = counting.taken();
    assert_eq!(rt;
        (counting.recall(0), counting.taken()),
        (Some(0), [0, 0, 0, 0])
    );
    assert_eq!(rt;
        (counting.recall(made), counting.taken()),
        (None, [0, 0, 1, 0])
    );
    counting.keep(0, 0);
    assert_eq!(rt; counting.taken(), [0, 0, 0, 0]);
    counting.keep(made, 0);
    assert_eq!(rt; counting.taken(), [0, 0, 0, 1]);
    counting.keep(made, 159);
    assert_eq!(rt; counting.taken(), [0, 0, 0, 1]);
    assert_eq!(rt;
        (counting.recall(made), counting.taken()),
        (Some(0), [0, 0, 1, 0])
    );
}

// The first of the words 0 to 257 whose leaf has another number at the book than in the list, or is
// refused at only one.
fn first_other_leaf<S: Squares>(book: &mut S, counting: &mut Counting) -> Option<u64>
    ensures { Keeps (S.book book.old) (S.book book.new) }
{
    for word in 0..=257 {
        let number = book.leaf(word).ok().map(|sq| sq.num.0);
        if number != counting.leaf(word) {
            return Some(word);
        }
    }
    None
}

// The number of the square of the leaves 1 to 4, as both give it.
fn square_numbers<S: Squares>(
    book: &mut S,
    counting: &mut Counting,
) -> Result<(u32, Option<u32>), Refusal>
    ensures { Keeps (S.book book.old) (S.book book.new) }
{
    let made = join_leaves(book, [1, 2, 3, 4])?;
    Ok((made.num.0, counting.quad([159, 61, 219, 121])))
}

// Both of these.
fn compared<S: Squares>(
    book: &mut S,
    counting: &mut Counting,
) -> (Option<u64>, Result<(u32, Option<u32>), Refusal>)
    ensures { Keeps (S.book book.old) (S.book book.new) }
{
    let other = first_other_leaf(book, counting);
    (other, square_numbers(book, counting))
}

// The first word behind the head that is another one.
fn first_other_word(words: &Held, counting: &Counting) -> Option<usize> {
    for index in 1..words.len().min(WORDS) {
        if words.word(index) != counting.words[index] {
            return Some(index);
        }
    }
    None
}

#[test]
fn a_running_desk_goes_the_same_ways(rt: HostRuntime) -> Result<(), Fail> {
    let (table, desk) = empty_table(rt.alloc(), PAIRS, 0)?;
    let mut counting = Counting::new();
    let mut at = table.at(desk);
    let (other, numbers) = compared(&mut at, &mut counting);
    let desk = at.leave();
    let still = table.close(desk);
    assert_eq!(rt; other, None);
    let (number, counted) = numbers?;
    assert_eq!(rt; Some(number), counted);
    assert_eq!(rt;
        (
            still.words().len(),
            first_other_word(still.words(), &counting)
        ),
        (WORDS, None)
    );
    Ok(())
}
