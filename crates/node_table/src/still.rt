//! The words of a table that no thread uses.
ghost use Rattle.std.specs.Prelude.{◌≡◌, ◌≢◌, ◌<◌, ◌↔◌, IsTrue, IfOk, IsOkUnless};
ghost use Rattle.table_core.specs.Good.{AreGoodWords};
ghost use Rattle.table_core.specs.Sizes.{IsPairCount};
ghost use Rattle.squares.specs.Book.{IsBook};
ghost use Rattle.node_table.specs.StillBooks.{book_of_words};
ghost use Rattle.table_core.proofs.GoodWords.{good_prop};

use crate::held::Held;
use crate::shared::SharedStill;
use plane::Refusal;
use rule_text::Rule;
use std::alloc::{AllocError, Global};
use table_core::{Key, Kind, LARGEST_RANK, Shape, parts};

/// The words of a table in one owner's hands, good ones.
#[derive(Drop)]
pub struct Still {
    pub(crate) key: Key,
    pub(crate) words: Held,
    ghost good: { AreGoodWords key words } by { good_prop key words },
    ghost is_book: { IsBook (book_of_words key words) },
}

// How many ranks there are, from that of a leaf on.
const RANK_COUNT: u8 = LARGEST_RANK + 1;

impl Still {
    ghost use Rattle.node_table.specs.Shared.{book_shown};
    ghost use Rattle.node_table.specs.Stills.{IsVacant, IsReopened, HasRank, KeepsAtRank, HasWords, book_in, key_of, items_of};

    /// The words of a table of so many pair slots, with no square in it.
    pub fn empty(alloc: Global, pairs: u32) -> Result<Still, Refusal>
        requires { IsPairCount pairs }
        ensures ok { IfOk result (λ still. IsVacant still pairs) }
        ensures memory { IsOkUnless result Refusal.NoMemory }
    {
        let key = Key {
            shape: Shape::new(pairs),
            rule: Rule::dead(),
            exponent: 0,
        };
        let words = vec![in alloc; 0; key.shape.word_count() as usize]?;
        Ok(Still {
            key,
            words: Held::of_vector(words),
        })
    }

    /// Good words, as those of a table.
    pub fn of_words(key: Key, words: Vec<u64>) -> Still
        requires { AreGoodWords key words.items }
        ensures { HasWords result key words.items }
    {
        Still {
            key,
            words: Held::of_vector(words),
        }
    }

    /// The shape, the rule and the exponent of the table.
    pub fn key(&self) -> &Key
        ensures { result.now ≡ key_of self.now }
    {
        &self.key
    }

    /// The words.
    pub fn words(&self) -> &Held
        ensures { result.now ≡ items_of self.now }
    {
        &self.words
    }

    /// The same words in a vector of their own, which several threads may read.
    pub fn shared(&self, alloc: Global) -> Result<SharedStill, Refusal>
        ensures ok { IfOk result (λ shared. book_shown shared ≡ book_in self.now) }
        ensures memory { IsOkUnless result Refusal.NoMemory }
    {
        Ok(SharedStill {
            key: self.key,
            words: self.words.copied(alloc)?,
        })
    }

    /// The same words, held by a vector if there is memory for it.
    pub(crate) fn in_vector(self, alloc: Global) -> Still
        ensures { result ≡ self }
    {
        let Still { key, words } = self;
        let words = words.in_vector(alloc);
        Still { key, words }
    }

    /// The words under another rule and exponent, with the results that are the same under both.
    pub(crate) fn reopen(&self, alloc: Global, key: Key) -> Result<Still, AllocError>
        requires { key.shape ≡ self.now.key.shape }
        ensures { IfOk result (IsReopened self.now key) }
    {
        let mut words = self.words.copied(alloc)?;
        words[0] = key.head();
        let one_rule = self.has_rule_of(&key);
        if one_rule && self.key.exponent == key.exponent {
            return Ok(Still::of_words(key, words));
        }
        let shape = self.key.shape;
        for slot in 0..shape.slot_count(Kind::Pair) {
            let pair = shape.index(Kind::Pair, slot);
            let beside = shape.result_index(pair) as usize;
            if words[beside] != 0 && !self.keeps_result(pair, &key, one_rule) {
                words[beside] = 0;
            }
        }
        Ok(Still::of_words(key, words))
    }

    /// Whether the words stand under this head.
    pub(crate) fn has_head(&self, key: &Key) -> bool
        requires { key.now.shape ≡ self.now.key.shape }
        ensures { IsTrue result → self.now.key ≡ key.now }
    {
        self.has_rule_of(key) && self.key.exponent == key.exponent
    }

    // Whether both heads name one rule.
    fn has_rule_of(&self, key: &Key) -> bool
        ensures { IsTrue result ↔ (self.now.key.rule ≡ key.now.rule) }
    {
        self.key.rule.code() == key.rule.code()
    }

    // Whether the result of a pair's square is the same under both heads, which are not one.
    fn keeps_result(&self, pair: u32, key: &Key, one_rule: bool) -> bool
        requires rule { IsTrue one_rule ↔ (self.now.key.rule ≡ key.now.rule) }
        requires exponent { IsTrue one_rule → self.now.key.exponent ≢ key.now.exponent }
        ensures { KeepsAtRank self.now key.now pair result }
    {
        one_rule && self.rank(pair) / 2 < self.key.exponent.min(key.exponent)
    }

    // The rank of the block that a number other than 0 shows.
    fn rank(&self, number: u32) -> u8
        ensures rank { HasRank self.now number result }
        ensures range { result < 126 }
    {
        let first_pair = self.key.shape.index(Kind::Pair, 0);
        let mut number = number;
        for rank in 0..RANK_COUNT {
            if number < first_pair || number as usize >= self.words.len() {
                return rank;
            }
            let (first, second) = parts(self.words.word(number as usize));
            number = if first == 0 { second } else { first };
        }
        RANK_COUNT
    }
}
