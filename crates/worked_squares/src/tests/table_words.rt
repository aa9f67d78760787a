//! The words of the shared table, where they stand, and steps on them.

ghost use Rattle.std.specs.Prelude.{◌≡◌};
ghost use Rattle.table_core.specs.Events.{index_of};

use crate::tests::books::rule_of;
use crate::tests::rows::{assert_no_row, assert_same};
use plane::Refusal;
use table_core::{
    Event, Key, Kind, LARGEST_PAIR_COUNT, SHARD_LEN, Shape, pair_word, parts, result_word, step,
};

// The smallest table: 256 leaf slots and 1024 pair slots.
const PAIRS: u32 = 1024;

const WORDS: usize = 2305;

// A kind, a word, a place of its way, and the slot and the index there in the smallest table.
const PLACES: &[(Kind, u64, u32, u32, u32)] = &[
    (Kind::Leaf, 1, 0, 158, 159),
    (Kind::Leaf, 1, 97, 255, 256),
    (Kind::Leaf, 1, 98, 0, 1),
    (Kind::Leaf, 2, 0, 60, 61),
    (Kind::Pair, 1, 0, 632, 889),
    (Kind::Pair, 1, 135, 767, 1024),
    (Kind::Pair, 1, 136, 512, 769),
    (Kind::Pair, 1, 200, 576, 833),
];

fn look(desk: usize, slot: u32) -> Event {
    Event::Look { desk, slot }
}

fn claim(desk: usize, slot: u32, word: u64) -> Event {
    Event::Claim { desk, slot, word }
}

fn ask(desk: usize, slot: u32) -> Event {
    Event::Ask { desk, slot }
}

fn tell(desk: usize, slot: u32, number: u32) -> Event {
    Event::Tell { desk, slot, number }
}

fn shape_of(pairs: u32) -> Option<Shape> {
    if Shape::is_pair_count(pairs) {
        Some(Shape::new(pairs))
    } else {
        None
    }
}

// The slot at this place of the word's way in the smallest table, and its index.
fn slot_and_index(kind: Kind, word: u64, place: u32) -> Option<(u32, u32)> {
    let shape = shape_of(PAIRS)?;
    if place >= SHARD_LEN {
        return None;
    }
    let slot = shape.way(kind, word, place);
    Some((slot, shape.index(kind, slot)))
}

fn first_wrong_place(rows: &[(Kind, u64, u32, u32, u32)]) -> Option<usize> {
    for (row, (kind, word, place, slot, index)) in rows.iter().enumerate() {
        if slot_and_index(*kind, *word, *place) != Some((*slot, *index)) {
            return Some(row);
        }
    }
    None
}

#[test]
fn words_have_their_slots_and_indices(rt: HostRuntime) {
    assert_no_row(&rt, first_wrong_place(PLACES));
}

// In the smallest table the index of a pair's result, and how many words there are.
fn result_index_and_word_count() -> Option<(u32, u32)> {
    let shape = shape_of(PAIRS)?;
    let pair = shape.way_index(Kind::Pair, 1, 200);
    Some((shape.result_index(pair), shape.word_count()))
}

// In the largest table the first slots of the leaf and of the pair of word 1.
fn first_slots_of_largest() -> Option<(u32, u32)> {
    let shape = shape_of(LARGEST_PAIR_COUNT)?;
    Some((shape.first(Kind::Leaf, 1), shape.first(Kind::Pair, 1)))
}

#[test]
fn smallest_and_largest_table(rt: HostRuntime) {
    assert_same(&rt, result_index_and_word_count(), Some((1857, 2305)));
    assert_same(
        &rt,
        first_slots_of_largest(),
        Some((41_475_558, 165_902_235)),
    );
}

// A number, and whether a table has so many pair slots.
const PAIR_COUNTS: &[(u32, bool)] = &[
    (0, false),
    (512, false),
    (1023, false),
    (1024, true),
    (1025, false),
    (1536, false),
    (2048, true),
    (268_435_456, true),
    (402_653_184, false),
    (536_870_912, false),
    (u32::MAX, false),
];

fn first_wrong_pair_count(rows: &[(u32, bool)]) -> Option<usize> {
    for (row, (pairs, is)) in rows.iter().enumerate() {
        if Shape::is_pair_count(*pairs) != *is {
            return Some(row);
        }
    }
    None
}

#[test]
fn a_table_has_a_power_of_two_of_pair_slots(rt: HostRuntime) {
    assert_no_row(&rt, first_wrong_pair_count(PAIR_COUNTS));
}

// The head of the smallest table for the rule and exponent 5.
fn head_by(text: &str) -> Option<u64> {
    let Ok(rule) = rule_of(text) else {
        return None;
    };
    let key = Key {
        shape: shape_of(PAIRS)?,
        rule,
        exponent: 5,
    };
    Some(key.head())
}

#[test]
fn words_are_spelled(rt: HostRuntime) {
    assert_same(&rt, head_by("B3/S23"), Some(5_249_032));
    assert_same(
        &rt,
        (pair_word(3, 5), result_word(0)),
        (0x3_0000_0005, 0x1_0000_0000),
    );
    assert_same(
        &rt,
        (parts(0x3_0000_0005), parts(result_word(159))),
        ((3, 5), (1, 159)),
    );
}

fn index_in(event: Event) -> usize
    ensures { result ≡ index_of event }
{
    match event {
        Event::Look { slot, .. } | Event::Ask { slot, .. } => slot as usize,
        Event::Claim { slot, .. } | Event::Tell { slot, .. } => slot as usize,
    }
}

// The word that the event finds, if its index is one of the table's.
fn found_by(words: &mut [u64; WORDS], event: Event) -> Option<u64> {
    if index_in(event) < WORDS {
        Some(step(words, event))
    } else {
        None
    }
}

fn count_written(words: &[u64; WORDS]) -> usize {
    words.iter().filter(|word| **word != 0).count()
}

fn first_wrong_step(words: &mut [u64; WORDS], rows: &[(Event, u64)]) -> Option<usize> {
    for (row, (event, found)) in rows.iter().enumerate() {
        if found_by(words, *event) != Some(*found) {
            return Some(row);
        }
    }
    None
}

#[test]
fn steps_of_two_desks(rt: HostRuntime) {
    let mut words = [0; WORDS];
    // Events of two desks, one after another, and the word that each finds.
    let steps = [
        (look(0, 159), 0),
        (look(1, 159), 0),
        (claim(1, 159, 1), 0),
        // Claims that are lost, of the same word and of another.
        (claim(0, 159, 1), 1),
        (claim(0, 159, 5), 1),
        (look(0, 159), 1),
        (claim(0, 833, 0x9F_0000_0000), 0),
        (look(1, 833), 0x9F_0000_0000),
        (ask(1, 1857), 0),
        (tell(1, 1857, 0), 0),
        // A result of number 0 is not vacant, and a result that is lost changes nothing.
        (tell(0, 1857, 159), 0x1_0000_0000),
        (ask(0, 1857), 0x1_0000_0000),
        (look(0, 160), 0),
    ];
    assert_no_row(&rt, first_wrong_step(&mut words, &steps));
    assert_same(
        &rt,
        (words[159], words[833], words[1857], count_written(&words)),
        (1, 0x9F_0000_0000, 0x1_0000_0000, 3),
    );
}

// The one shard of leaves as a plain list: a word stands in the first slot from its own on that is
// vacant or holds it, and its number is one more.
fn number_in_shard(shard: &mut [u64; 256], word: u64) -> Option<usize> {
    let first = (word.wrapping_mul(0x9E37_79B9_7F4A_7C15) >> 56) as usize;
    for place in 0..256 {
        let slot = (first % 256 + place) % 256;
        if shard[slot] == 0 {
            shard[slot] = word;
        }
        if shard[slot] == word {
            return Some(slot + 1);
        }
    }
    None
}

// What two desks find, one after the other.
type Found = (Option<u64>, Option<u64>);

// Two desks number the word of a leaf, each step of the one followed by the same step of the other.
// Answers what they found where it is not what they have to find.
fn numbered_by_two(
    shape: Shape,
    words: &mut [u64; WORDS],
    word: u64,
) -> Result<Option<usize>, Found> {
    for place in 0..SHARD_LEN {
        let index = shape.way_index(Kind::Leaf, word, place);
        let mut found = (
            found_by(words, look(0, index)),
            found_by(words, look(1, index)),
        );
        if found == (Some(0), Some(0)) {
            found = (
                found_by(words, claim(0, index, word)),
                found_by(words, claim(1, index, word)),
            );
            // The second claim is lost to the first, and finds the word.
            return if found == (Some(0), Some(word)) {
                Ok(Some(index as usize))
            } else {
                Err(found)
            };
        }
        if found == (Some(word), Some(word)) {
            return Ok(Some(index as usize));
        }
        if found.0 != found.1 {
            return Err(found);
        }
    }
    Ok(None)
}

#[test]
fn a_full_shard_gives_each_word_one_number(rt: HostRuntime) {
    let shape = Shape::new(PAIRS);
    let mut words = [0; WORDS];
    let mut shard = [0; 256];
    // A word that is sought again has its old number, and one too many has none.
    for word in (1..=257).chain(1..=257) {
        let expected = number_in_shard(&mut shard, word);
        let number = numbered_by_two(shape, &mut words, word);
        assert_same(
            &rt,
            (word, number, expected.is_none()),
            (word, Ok(expected), word == 257),
        );
    }
}
