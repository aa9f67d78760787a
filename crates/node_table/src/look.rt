//! Words that nobody changes, as a book that is only read.
ghost use Rattle.std.specs.Prelude.{◌≡◌, ◌<◌, length, slice_index};
ghost use Rattle.plane.specs.Square.{bits_plane};
ghost use Rattle.squares.specs.Book.{AreQuarters, IsKnown, Shows};
ghost use Rattle.node_table.specs.Shared.{book_shown};
ghost use Rattle.node_table.specs.StillWords.{AreParts, GoodWords, IsSomePair, book_of_good};
ghost use Rattle.node_table.specs.Stills.{book_in};

use crate::at::square;
use crate::shared::SharedStill;
use crate::still::Still;
use squares::{Look, Sq};
use table_core::parts;

// Good words that nobody changes.
trait StillWords {
    ghost good: { Self → GoodWords };

    // The word of a number.
    fn word(&self, number: u32) -> u64
        requires { number < length (good self.now).words }
        ensures { result ≡ slice_index (good self.now).words number };
}

impl StillWords for Still {
    ghost good = { λ still. record { key = still.key; words = still.words; good = still.good } };

    fn word(&self, number: u32) -> u64 {
        self.words.word(number as usize)
    }
}

impl StillWords for SharedStill {
    ghost good = { λ still.
        record { key = still.key; words = still.words.items; good = still.good } };

    fn word(&self, number: u32) -> u64 {
        self.words[number as usize]
    }
}

// The two blocks of a block that is not a square of level 3.
fn read_pair<W: StillWords>(still: &W, number: u32) -> (u32, u32)
    requires { IsSomePair (W.good still.now) number }
    ensures { AreParts (W.good still.now) number result.0 result.1 }
{
    if number == 0 {
        return (0, 0);
    }
    parts(still.word(number))
}

// The cells of a square of level 3.
fn read_bits<W: StillWords>(still: &W, sq: Sq) -> u64
    requires { IsKnown (book_of_good (W.good still.now)) 3 sq }
    ensures { Shows (book_of_good (W.good still.now)) 3 (bits_plane result) sq }
{
    if sq.is_empty() {
        return 0;
    }
    still.word(sq.num.0)
}

// The quarters of a square above level 3.
fn read_parts<W: StillWords>(still: &W, sq: Sq) -> [Sq; 4]
    requires known { IsKnown (book_of_good (W.good still.now)) sq.level sq }
    requires level { 3 < sq.level }
    ensures { AreQuarters (book_of_good (W.good still.now)) sq.level
        ((book_of_good (W.good still.now)).cells sq) result }
{
    let level = sq.level - 1;
    let (upper, lower) = read_pair(still, sq.num.0);
    let (nw, ne) = read_pair(still, upper);
    let (sw, se) = read_pair(still, lower);
    [
        square(level, nw),
        square(level, ne),
        square(level, sw),
        square(level, se),
    ]
}

impl Look for Still {
    ghost book = { book_in };

    fn bits(&self, sq: Sq) -> u64 {
        read_bits(self, sq)
    }

    fn parts(&self, sq: Sq) -> [Sq; 4] {
        read_parts(self, sq)
    }

    ghost is_book = { λ s. s.is_book };
}

impl Look for SharedStill {
    ghost book = { book_shown };

    fn bits(&self, sq: Sq) -> u64 {
        read_bits(self, sq)
    }

    fn parts(&self, sq: Sq) -> [Sq; 4] {
        read_parts(self, sq)
    }

    ghost is_book = { λ s. s.is_book };
}
