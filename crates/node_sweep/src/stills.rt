//! The words of a closed table, copied into fresh ones.

ghost use Rattle.std.specs.Prelude.{◌≡◌, ◌≤◌, ◌^◌, IfOk, IfErr, IsOkUnless, None};
ghost use Rattle.plane.specs.declared.cell.TheConstants.{HIGHEST_LEVEL};
ghost use Rattle.squares.specs.Book.{IsKnown, LacksMemoryOr};
ghost use Rattle.table_core.specs.Blocks.{square_rank};
ghost use Rattle.table_core.specs.Sizes.{IsPairCount};
ghost use Rattle.node_table.specs.Stills.{book_in, items_of, key_of};
ghost use Rattle.node_sweep.specs.Blank.{AreBlank};
ghost use Rattle.node_sweep.specs.CopiedStills.{CopiesStill, HasNoRoomFor, HasNoRoomToKeep, IsSwept, ReachesFewWords};
ghost use Rattle.node_sweep.specs.Copies.{SaysFull};
ghost use Rattle.node_sweep.specs.Copying.{AreBlankWords};
ghost use Rattle.node_sweep.specs.Table.{IsBlockIn};

use crate::blank::BlankWords;
use crate::plan::CopyPlan;
use crate::transfer::{OldWords, Transfer};
use node_table::Still;
use plane::Refusal;
use squares::{Num, Sq};
use std::alloc::Global;
use table_core::{Shape, square_rank};

impl<'a> OldWords<'a> {
    // The words of a closed table.
    fn of_still(still: &'a Still) -> OldWords<'a>
        ensures key { result.key.now ≡ key_of still.now }
        ensures words { result.words.now ≡ items_of still.now }
    {
        OldWords {
            key: still.key(),
            words: still.words(),
        }
    }
}

impl Transfer<'_> {
    ghost use Rattle.node_sweep.specs.Plans.{IsFilled, IsFilledAlone};
    ghost use Rattle.node_sweep.specs.Transfers.{SaysNoRoom, old_table};

    // What is copied into these words. The root has this level.
    fn copied(&self, alloc: Global, words: Vec<u64>, level: u8) -> Result<(Still, Sq), Refusal>
        requires words { AreBlankWords self.now.to words.items }
        requires level { (3 ≤ level) × (level ≤ HIGHEST_LEVEL) }
        requires block { IsBlockIn (old_table self.now) (square_rank level) self.now.root }
        ensures ok { IfOk result (λ made. IsFilled self.now level made.0 made.1) }
        ensures reached { self.now.plan ≡ None
            → IfOk result (λ made. IsFilledAlone self.now made.0) }
        ensures refusal { IfErr result (LacksMemoryOr (SaysNoRoom self.now)) }
    {
        let (words, number) = self.fill(alloc, words, square_rank(level))?;
        let root = Sq {
            level,
            num: Num(number),
        };
        Ok((Still::of_words(self.to, words), root))
    }
}

/// Copies into blank words the square and all that it reaches, and of the other squares and halves
/// what is planned, as far as the words have all that these reach. The result of a square stays
/// where it is the empty square or is copied too, and no other does. The old words stay as they
/// are.
///
/// It refuses `NoMemory`, and `NodesFull` if the words have no room for some of these squares
/// beside the others.
pub fn copy<'a>(
    alloc: Global,
    still: &'a Still,
    root: Sq,
    plan: &'a CopyPlan,
    blank: BlankWords,
) -> Result<(Still, Sq), Refusal>
    requires known { IsKnown (book_in still.now) root.level root }
    requires blank { AreBlank (key_of still.now) (2 ^ blank.key.shape.bits) blank }
    ensures ok { IfOk result (λ made.
        CopiesStill still.now root (2 ^ blank.key.shape.bits) made.0 made.1) }
    ensures refusal { IfErr result (LacksMemoryOr (SaysFull
        (HasNoRoomToKeep still.now (2 ^ blank.key.shape.bits)))) }
{
    let BlankWords { key, words } = blank;
    let transfer = Transfer {
        old: OldWords::of_still(still),
        root: root.num.0,
        plan: Some(plan),
        to: key,
    };
    transfer.copied(alloc, words, root.level)
}

/// Copies the square and all that it reaches into fresh words of `pairs` pair slots, under the same
/// rule and exponent. The result of a square stays where it is the empty square or is reached too,
/// and no other does. The old words stay as they are.
///
/// It refuses `NoMemory`, and `NodesFull` if that many slots have no room for some of these squares
/// beside the others: never for a square that reaches at most 256 leaves and 256 pairs.
pub fn sweep(alloc: Global, still: &Still, root: Sq, pairs: u32) -> Result<(Still, Sq), Refusal>
    requires known { IsKnown (book_in still.now) root.level root }
    requires pairs { IsPairCount pairs }
    ensures ok { IfOk result (λ swept. IsSwept still.now root pairs swept.0 swept.1) }
    ensures refusal { IfErr result (LacksMemoryOr (SaysFull (HasNoRoomFor still.now root pairs))) }
    ensures few { ReachesFewWords still.now root → IsOkUnless result Refusal.NoMemory }
{
    let blank = BlankWords::new(alloc, still.key(), Shape::new(pairs))?;
    let BlankWords { key, words } = blank;
    let transfer = Transfer {
        old: OldWords::of_still(still),
        root: root.num.0,
        plan: None,
        to: key,
    };
    transfer.copied(alloc, words, root.level)
}
