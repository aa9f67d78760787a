//! What one number reaches, copied: leaves, and pairs after their parts, each once.

ghost use Rattle.std.specs.Prelude.{◌≢◌, IfOk, IfErr};
ghost use Rattle.table_core.specs.Good.{KeepsWords};
ghost use Rattle.node_sweep.specs.Copies.{IsLowBlock};
ghost use Rattle.node_sweep.specs.Placing.{IsSought};

use crate::placing::place;
use crate::transfer::{Fresh, Transfer};
use plane::Refusal;
use table_core::{Kind, pair_word, parts};

impl Transfer<'_> {
    ghost use Rattle.node_sweep.specs.Transfers.{IsCopyNoted, IsUnderway, IsWordNeeded, SaysNoRoom, fresh_table, fresh_words, old_table, wants};

    /// The copy of a number that is wanted, by its word, of whose way so many places were tried.
    pub(crate) fn note(
        &self,
        fresh: &mut Fresh,
        number: u32,
        kind: Kind,
        word: u64,
        tried: u32,
    ) -> Result<u32, Refusal>
        requires underway { IsUnderway self.now fresh.old }
        requires some { number ≢ 0 }
        requires wanted { wants self.now number }
        requires word { IsWordNeeded self.now fresh.old.words.items kind number word }
        requires tried { IsSought (fresh_table self.now fresh.old) kind word tried }
        ensures underway { IsUnderway self.now fresh.new }
        ensures keeps { KeepsWords (fresh_words fresh.old) (fresh_words fresh.new) }
        ensures ok { IfOk result (IsCopyNoted self.now fresh.new number) }
        ensures full { IfErr result (SaysNoRoom self.now) }
    {
        let Some(index) = place(self.to, fresh.words.as_mut_slice(), kind, word, tried) else {
            return Err(Refusal::NodesFull);
        };
        fresh.copies[number as usize] = index;
        Ok(index)
    }

    /// The copy of a block of at most this rank that is wanted. Each number is copied once.
    pub(crate) fn copy(&self, fresh: &mut Fresh, number: u32, height: u8) -> Result<u32, Refusal>
        requires underway { IsUnderway self.now fresh.old }
        requires block { IsLowBlock (old_table self.now) height number }
        requires wanted { wants self.now number }
        ensures underway { IsUnderway self.now fresh.new }
        ensures keeps { KeepsWords (fresh_words fresh.old) (fresh_words fresh.new) }
        ensures ok { IfOk result (IsCopyNoted self.now fresh.new number) }
        ensures full { IfErr result (SaysNoRoom self.now) }
    {
        if number == 0 {
            return Ok(0);
        }
        let done = fresh.copies[number as usize];
        if done != 0 {
            return Ok(done);
        }
        let word = self.old.words.word(number as usize);
        if number < self.old.key.shape.index(Kind::Pair, 0) {
            return self.note(fresh, number, Kind::Leaf, word, 0);
        }
        let (first, second) = parts(word);
        let first = self.copy(fresh, first, height - 1)?;
        let second = self.copy(fresh, second, height - 1)?;
        let word = pair_word(first, second);
        self.note(fresh, number, Kind::Pair, word, 0)
    }
}
