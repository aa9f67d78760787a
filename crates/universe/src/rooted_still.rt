//! Live cells as a square in the words of a closed table.

ghost use Rattle.std.specs.Prelude.{◌≡◌, ◌<◌, ◌≤◌, ◌+◌, ◌^◌, IfOk, IsOkUnless};
ghost use Rattle.node_table.specs.Stills.{book_in, key_of};
ghost use Rattle.node_sweep.specs.Blank.{AreBlank};
ghost use Rattle.squares.specs.Book.{IsKnown};
ghost use Rattle.viewport.specs.BoundingBox.{HasBounds};

use crate::other_tables::OtherTables;
use crate::planned::Planned;
use crate::refusals::unless_full;
use crate::tables::OpenTable;
use crate::universe::Universe;
use node_sweep::{copy, sweep};
use node_table::{Held, Still};
use plane::{Bounds, Refusal};
use squares::Sq;
use std::alloc::{AllocError, Global};
use table_core::{Kind, Shape};
use table_growth::{GrowthFactor, TableHistory, larger, smallest};
use viewport::bounds;

/// Live cells in the range, as a square in the words of a closed table. The square's centre is the
/// corner (0,0).
#[derive(Drop)]
pub struct RootedStill {
    pub(crate) still: Still,
    pub(crate) root: Sq,
    ghost known: { IsKnown (book_in still) root.level root },
    ghost level: { (3 < root.level) × (root.level ≤ 63) },
}

impl RootedStill {
    ghost use Rattle.universe.specs.Cells.{still_cells, root_of, still_of};
    ghost use Rattle.universe.specs.Outcomes.{IfMade, IfNoRoom};
    ghost use Rattle.universe.specs.Stills.{HasNoRoomToSweep, IsCompacted, IsCopied, IsOpenedAt, IsSweptFrom};
    ghost use Rattle.universe.specs.Sums.{pair_sum};

    /// The words.
    pub fn still(&self) -> &Still
        ensures { result.now ≡ still_of self.now }
    {
        &self.still
    }

    /// The square in the words.
    pub fn root(&self) -> Sq
        ensures root { result ≡ root_of self.now }
        ensures known { IsKnown (book_in (still_of self.now)) result.level result }
        ensures level { (3 < result.level) × (result.level ≤ 63) }
    {
        self.root
    }

    /// The smallest box that holds the live cells. `NoMemory` where there is no room to find it.
    pub fn bounds(&self, alloc: Global) -> Result<Option<Bounds>, Refusal>
        ensures ok { IfOk result (HasBounds (still_cells self.now)) }
        ensures memory { IsOkUnless result Refusal.NoMemory }
    {
        bounds(alloc, &self.still, self.root)
    }

    /// The cells at a table that is opened of these words under an exponent, beside other tables.
    pub(crate) fn open_at(
        self,
        alloc: Global,
        exponent: u8,
        history: TableHistory,
        others: OtherTables,
    ) -> Result<Universe, AllocError>
        requires { 2 ^ (key_of (still_of self)).shape.bits + pair_sum others.tables.items
            ≤ 2 ^ others.limit.bits }
        ensures { IfOk result (IsOpenedAt self exponent others) }
    {
        let rule = self.still.key().rule;
        let RootedStill { still, root } = self;
        let here = OpenTable::of_words(alloc, still, &rule, exponent, history)?;
        Ok(Universe { here, root, others })
    }

    /// What was planned, in blank words. `None` where they have no room for it.
    pub(crate) fn copy(
        &self,
        alloc: Global,
        planned: Planned,
    ) -> Result<Option<RootedStill>, AllocError>
        requires { AreBlank (key_of (still_of self.now)) (2 ^ planned.shape.bits) planned.blank }
        ensures { IfMade result (IsCopied self.now (2 ^ planned.shape.bits)) }
    {
        let Planned { plan, blank, .. } = planned;
        let made = copy(alloc, &self.still, self.root, &plan, blank);
        match unless_full(made)? {
            Some((still, root)) => Ok(Some(RootedStill { still, root })),
            None => Ok(None),
        }
    }

    /// Only the cells, in as few words as have room for them, or else all of the old words.
    pub(crate) fn compact(self, alloc: Global) -> Result<RootedStill, AllocError>
        ensures { IfOk result (IsCompacted self) }
    {
        match self.in_fewer_words(alloc)? {
            Some(fresh) => Ok(fresh),
            None => Ok(self),
        }
    }

    /// The same beside the old words, which stay: if all of them are needed, a copy of all.
    pub(crate) fn compact_copy(&self, alloc: Global) -> Result<RootedStill, AllocError>
        ensures { IfOk result (IsCompacted self.now) }
    {
        match self.in_fewer_words(alloc)? {
            Some(fresh) => Ok(fresh),
            None => self.whole_copy(alloc),
        }
    }

    // Only the cells, in as few words as have room for them, if these are fewer than the old ones.
    fn in_fewer_words(&self, alloc: Global) -> Result<Option<RootedStill>, AllocError>
        ensures { IfMade result (IsCompacted self.now) }
    {
        let own = self.still.key().shape;
        let mut shape = smallest(own);
        'sizes: while shape.bits < own.bits {
            if let Some(fresh) = self.sweep(alloc, shape)? {
                return Ok(Some(fresh));
            }
            let Some(next) = larger(shape, own, GrowthFactor::Sixteen) else {
                return Ok(None);
            };
            shape = next;
        }
        Ok(None)
    }

    // A copy of all words.
    fn whole_copy(&self, alloc: Global) -> Result<RootedStill, AllocError>
        ensures { IfOk result (IsCompacted self.now) }
    {
        let words = copied(alloc, self.still.words())?;
        let still = Still::of_words(*self.still.key(), words);
        Ok(RootedStill {
            still,
            root: self.root,
        })
    }

    /// Only the cells, in new words of this shape, if these have room for them.
    pub(crate) fn sweep(
        &self,
        alloc: Global,
        shape: Shape,
    ) -> Result<Option<RootedStill>, AllocError>
        ensures ok { IfMade result (IsSweptFrom self.now (2 ^ shape.bits)) }
        ensures full { IfNoRoom result (HasNoRoomToSweep self.now (2 ^ shape.bits)) }
    {
        let made = sweep(alloc, &self.still, self.root, shape.slot_count(Kind::Pair));
        match unless_full(made)? {
            Some((still, root)) => Ok(Some(RootedStill { still, root })),
            None => Ok(None),
        }
    }
}

// The same words in a vector.
fn copied(alloc: Global, words: &Held) -> Result<Vec<u64>, AllocError>
    ensures { IfOk result (λ copied. copied.items ≡ words.now) }
{
    let count = words.len();
    let mut copied = vec![in alloc; 0; count]?;
    for index in 0..count {
        copied[index] = words.word(index);
    }
    Ok(copied)
}
