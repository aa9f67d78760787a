//! A universe whose table is closed, so that its cells can be looked at, and that goes on later.

ghost use Rattle.std.specs.Prelude.{◌≡◌, ◌+◌, ◌≤◌, ◌^◌, [], IfOk, IsOkUnless};
ghost use Rattle.node_table.specs.Stills.{key_of};
ghost use Rattle.universe.specs.Sums.{pair_sum};
ghost use Rattle.viewport.specs.BoundingBox.{HasBounds};
ghost use Rattle.viewport.specs.Population.{HasPopulation};

use crate::other_tables::OtherTables;
use crate::rooted_still::RootedStill;
use crate::universe::Universe;
use plane::{Bounds, Refusal};
use std::alloc::{AllocError, Global};
use table_growth::TableHistory;
use viewport::population;

/// A universe at rest: its table is closed, so that its words can be read. When it goes on, its
/// table has all squares and results that it had, and the other tables are as they were.
#[derive(Drop)]
pub struct Resting {
    cells: RootedStill,
    history: TableHistory,
    others: OtherTables,
    ghost within: { 2 ^ (key_of cells.still).shape.bits + pair_sum others.tables.items
        ≤ 2 ^ others.limit.bits },
}

impl Universe {
    ghost use Rattle.node_table.specs.Openings.{SaysAll};
    ghost use Rattle.universe.specs.Cells.{known_by, shown_by};
    ghost use Rattle.universe.specs.Rests.{IsAtRest};

    /// The universe at rest. Nothing is copied, and no memory is taken.
    pub fn rest(self) -> Resting
        ensures same { IsAtRest self result }
        ensures shows { SaysAll (known_by self) (shown_by result) }
    {
        let Universe { here, root, others } = self;
        let history = here.history;
        Resting {
            cells: here.close(root),
            history,
            others,
        }
    }
}

impl Resting {
    ghost use Rattle.node_table.specs.Openings.{SaysAll};
    ghost use Rattle.universe.specs.Cells.{known_by, others_of, resting_cells, rooted_of, shown_by};
    ghost use Rattle.universe.specs.Rests.{IsAtRest, IsSnapshot};

    /// The live cells.
    pub fn cells(&self) -> &RootedStill
        ensures { result.now ≡ rooted_of self.now }
    {
        &self.cells
    }

    /// The universe, at work again.
    pub fn resume(self, alloc: Global) -> Result<Universe, AllocError>
        ensures same { IfOk result (λ universe. IsAtRest universe self) }
        ensures knows { IfOk result (λ universe. SaysAll (shown_by self) (known_by universe)) }
    {
        let exponent = self.cells.still.key().exponent;
        self.cells
            .open_at(alloc, exponent, self.history, self.others)
    }

    /// The same cells at rest in words of their own: only what these cells need, in as few words as
    /// have room for it, or else a copy of all words. There is no table but theirs.
    pub fn snapshot(&self, alloc: Global) -> Result<Resting, AllocError>
        ensures { IfOk result (IsSnapshot self.now) }
    {
        let cells = self.cells.compact_copy(alloc)?;
        let history = self.history.for_new_table(cells.still.key().shape.bits);
        Ok(Resting {
            cells,
            history,
            others: OtherTables::new(alloc, self.others.limit),
        })
    }

    /// How many cells are live. `NoMemory` where there is no room to count them.
    pub fn population(&self, alloc: Global) -> Result<u128, Refusal>
        ensures ok { IfOk result (HasPopulation (resting_cells self.now)) }
        ensures memory { IsOkUnless result Refusal.NoMemory }
    {
        population(alloc, &self.cells.still, self.cells.root)
    }

    /// The smallest box that holds the live cells. `NoMemory` where there is no room to find it.
    pub fn bounds(&self, alloc: Global) -> Result<Option<Bounds>, Refusal>
        ensures ok { IfOk result (HasBounds (resting_cells self.now)) }
        ensures memory { IsOkUnless result Refusal.NoMemory }
    {
        self.cells.bounds(alloc)
    }

    /// The same cells at rest, with no table but theirs: the others are dropped.
    pub fn without_others(self, alloc: Global) -> Resting
        ensures cells { rooted_of result ≡ rooted_of self }
        ensures limit { (others_of result).limit ≡ (others_of self).limit }
        ensures none { (others_of result).tables.items ≡ [] }
    {
        let Resting {
            cells,
            history,
            others,
        } = self;
        Resting {
            cells,
            history,
            others: OtherTables::new(alloc, others.limit),
        }
    }
}
