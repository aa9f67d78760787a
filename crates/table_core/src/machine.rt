//! Atomic steps on the words of a table, one at a time.

ghost use Rattle.std.specs.Prelude.{◌≡◌, ◌<◌, ◌==◌, if◌then◌else◌, length, slice_index, slice_set};
ghost use Rattle.table_core.specs.Events.{index_of, words_after};

use crate::word::result_word;

/// One atomic step: a load, or a compare-exchange with 0, of one word by one desk. `slot` is the
/// index of the word among those of the table.
#[derive(Clone, Copy)]
pub enum Event {
    /// Loads the word of a leaf or a pair.
    Look { desk: usize, slot: u32 },
    /// Places the word of a leaf or a pair, if 0 stands there.
    Claim { desk: usize, slot: u32, word: u64 },
    /// Loads the word of a result.
    Ask { desk: usize, slot: u32 },
    /// Places the word of a result, by the number of the future, if 0 stands there.
    Tell { desk: usize, slot: u32, number: u32 },
}

/// Makes one event's change, and answers the word that stood there.
pub fn step(words: &mut [u64], event: Event) -> u64
    requires { index_of event < length words.old }
    ensures words { words.new ≡ words_after event words.old }
    ensures found { result ≡ slice_index words.old (index_of event) }
{
    match event {
        Event::Look { slot, .. } | Event::Ask { slot, .. } => words[slot as usize],
        Event::Claim { slot, word, .. } => place(words, slot as usize, word),
        Event::Tell { slot, number, .. } => place(words, slot as usize, result_word(number)),
    }
}

// Places a word where 0 stands, and answers the word that stood there.
fn place(words: &mut [u64], index: usize, word: u64) -> u64
    requires { index < length words.old }
    ensures words { words.new ≡ slice_set words.old index
        (if slice_index words.old index == 0 then word else slice_index words.old index) }
    ensures found { result ≡ slice_index words.old index }
{
    let found = words[index];
    if found == 0 {
        words[index] = word;
    }
    found
}
