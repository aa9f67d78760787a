//! Words that several threads may read.

ghost use Rattle.squares.specs.Book.{IsBook};
ghost use Rattle.table_core.specs.Good.{AreGoodWords};
ghost use Rattle.node_table.specs.StillBooks.{book_of_words};
ghost use Rattle.table_core.proofs.GoodWords.{good_prop};

use table_core::Key;

/// The words of a table in a vector, which several threads may read.
#[derive(Drop)]
pub struct SharedStill {
    pub(crate) key: Key,
    pub(crate) words: Vec<u64>,
    ghost good: { AreGoodWords key words.items } by { good_prop key words.items },
    ghost is_book: { IsBook (book_of_words key words.items) },
}
