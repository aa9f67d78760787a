//! Results, copied after the pairs beside which they stand.

ghost use Rattle.std.specs.Prelude.{◌≡◌, ◌+◌, ◌^◌, ◌≤◌, length};
ghost use Rattle.table_core.specs.declared.shape.Kind.TheVariants.{Pair};
ghost use Rattle.table_core.specs.Layout.{IsSlot, start};
ghost use Rattle.node_sweep.specs.Keeping.{IsResultWord};
ghost use Rattle.node_sweep.specs.Table.{word_beside};

use crate::blocks::BLOCK_LEN;
use crate::transfer::{Fresh, OldWords, Transfer};
use table_core::{Kind, parts, result_word};

impl OldWords<'_> {
    ghost use Rattle.node_sweep.specs.OldWords.{bits_in, table_in};

    /// The word beside a pair, which tells its result; 0 where it has none.
    pub(crate) fn result_beside(&self, pair: u32) -> u64
        requires { IsSlot (bits_in self.now) Pair pair }
        ensures { result ≡ word_beside (table_in self.now) pair }
    {
        self.words.word(self.key.shape.result_index(pair) as usize)
    }
}

impl Transfer<'_> {
    ghost use Rattle.node_sweep.specs.Transfers.{AreAllResultsKept, AreNextResultWords, AreResultsKept, IsUnderway, number_count, old_bits, old_table};

    // The word to stand beside the copy of a pair: that of the copy of its result, and 0 where one
    // of both has no copy.
    fn kept_result(&self, copies: &[u32], pair: u32) -> u64
        requires long { length copies.now ≡ number_count self.now }
        requires pair { IsSlot (old_bits self.now) Pair pair }
        ensures { IsResultWord (old_table self.now) copies.now pair result }
    {
        if copies[pair as usize] == 0 {
            return 0;
        }
        let result = self.old.result_beside(pair);
        if result == 0 {
            return 0;
        }
        let (_, future) = parts(result);
        let number = copies[future as usize];
        if number == 0 && future != 0 {
            return 0;
        }
        result_word(number)
    }

    // These words of pairs at some slots from one on.
    fn kept_results(&self, copies: &[u32], from: u32, told: &mut [u64])
        requires long { length copies.now ≡ number_count self.now }
        requires few { length told.old ≡ 64 }
        requires inside { from + 64 ≤ 2 ^ old_bits self.now }
        ensures { AreNextResultWords self.now copies.now told.new from }
    {
        for i in 0..BLOCK_LEN {
            let pair = self.old.key.shape.index(Kind::Pair, from + i);
            told[i as usize] = self.kept_result(copies, pair);
        }
    }

    // Places such a word beside the copy of the pair at this slot.
    fn tell_result(&self, words: &mut [u64], copies: &[u32], slot: u32, pair: u32, word: u64)
        requires long { length copies.now ≡ number_count self.now }
        requires pair { IsSlot (old_bits self.now) Pair pair }
        requires at { pair ≡ start (old_bits self.now) Pair + slot }
        requires word { IsResultWord (old_table self.now) copies.now pair word }
        requires kept { AreResultsKept self.now copies.now words.old slot }
        ensures { AreResultsKept self.now copies.now words.new (slot + 1) }
    {
        if word == 0 {
            return;
        }
        let copy = copies[pair as usize];
        words[self.to.shape.result_index(copy) as usize] = word;
    }

    // Places the words of pairs at some slots from one on.
    fn tell_results(&self, words: &mut [u64], copies: &[u32], from: u32, told: &[u64])
        requires long { length copies.now ≡ number_count self.now }
        requires few { length told.now ≡ 64 }
        requires inside { from + 64 ≤ 2 ^ old_bits self.now }
        requires told { AreNextResultWords self.now copies.now told.now from }
        requires kept { AreResultsKept self.now copies.now words.old from }
        ensures { AreResultsKept self.now copies.now words.new (from + 64) }
    {
        for i in 0..BLOCK_LEN {
            let pair = self.old.key.shape.index(Kind::Pair, from + i);
            self.tell_result(words, copies, from + i, pair, told[i as usize]);
        }
    }

    /// The fresh words, with the result of each pair beside its copy, where both have one.
    pub(crate) fn with_results(&self, fresh: Fresh) -> Fresh
        requires { IsUnderway self.now fresh }
        ensures kept { AreAllResultsKept self.now fresh.copies.items result.words.items }
        ensures copies { result.copies.items ≡ fresh.copies.items }
    {
        let Fresh { mut words, copies } = fresh;
        let mut told = [0u64; BLOCK_LEN as usize];
        let count = self.old.key.shape.slot_count(Kind::Pair);
        for block in 0..count / BLOCK_LEN {
            let from = BLOCK_LEN * block;
            self.kept_results(copies.as_slice(), from, &mut told);
            self.tell_results(words.as_mut_slice(), copies.as_slice(), from, &told);
        }
        Fresh { words, copies }
    }
}
