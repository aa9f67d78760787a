//! What is copied from old words into fresh ones, and the fresh ones while they are filled.

ghost use Rattle.std.specs.Prelude.{◌≡◌};
ghost use Rattle.table_core.specs.Good.{AreGoodWords};
ghost use Rattle.table_core.proofs.GoodWords.{good_prop};

use crate::plan::CopyPlan;
use node_table::Held;
use table_core::Key;

/// Words that are copied from.
#[derive(Clone, Copy)]
pub(crate) struct OldWords<'a> {
    /// Their head.
    pub(crate) key: &'a Key,
    /// The words.
    pub(crate) words: &'a Held,
    ghost good: { AreGoodWords key.now words.now } by { good_prop key.now words.now },
}

/// What is copied into fresh words, under the same rule and exponent.
#[derive(Clone, Copy)]
pub(crate) struct Transfer<'a> {
    /// The words that are copied from.
    pub(crate) old: OldWords<'a>,
    /// The number of the root, which is copied with all that it reaches.
    pub(crate) root: u32,
    /// What is copied before it, if anything is.
    pub(crate) plan: Option<&'a CopyPlan>,
    /// The head of the fresh words.
    pub(crate) to: Key,
    ghost same_rule: { to.rule ≡ old.key.now.rule },
    ghost same_exponent: { to.exponent ≡ old.key.now.exponent },
}

/// Words that blocks are copied into, and under which numbers they stand there.
#[derive(Drop)]
pub(crate) struct Fresh {
    /// The fresh words.
    pub(crate) words: Vec<u64>,
    /// The number of the copy of each old number, 0 where it has none yet.
    pub(crate) copies: Vec<u32>,
}
