//! Live cells and the tables that stay open for them.

ghost use Rattle.std.specs.Prelude.{◌≡◌, ◌<◌, ◌≤◌, ◌+◌, ◌^◌, ◌↔◌, IfOk, IsOkUnless, IsTrue};
ghost use Rattle.plane.specs.Square.{IsSame, empty};
ghost use Rattle.squares.specs.Book.{IsKnown};
ghost use Rattle.viewport.specs.BoundingBox.{HasBounds};
ghost use Rattle.viewport.specs.Population.{HasPopulation};
ghost use Rattle.universe.specs.Sums.{pair_sum};
ghost use Rattle.universe.specs.Tables.{known_at, pairs_in};

use crate::other_tables::OtherTables;
use crate::rooted_still::RootedStill;
use crate::tables::{OpenTable, reader};
use plane::{Bounds, Refusal};
use squares::Sq;
use std::alloc::Global;
use viewport::{bounds_at, population_at};

/// Live cells in the range, as a square around (0,0) at an open table, with a rule, and a limit for
/// the pair slots of all its tables. A table for each exponent of its steps stays open: the one
/// with the square is `here`.
#[derive(Drop)]
pub struct Universe {
    pub(crate) here: OpenTable,
    pub(crate) root: Sq,
    pub(crate) others: OtherTables,
    ghost known: { IsKnown (known_at here) root.level root },
    ghost level: { (3 < root.level) × (root.level ≤ 63) },
    ghost within: { pairs_in here + pair_sum others.tables.items ≤ 2 ^ others.limit.bits },
}

impl Universe {
    ghost use Rattle.universe.specs.Cells.{limit_of, live_cells, pairs_of, still_cells};
    ghost use Rattle.universe.specs.Later.{IsSameUniverse};

    /// Whether no cell is live.
    pub fn is_empty(&self) -> bool
        ensures { IsTrue result ↔ IsSame (live_cells self.now) empty }
    {
        self.root.is_empty()
    }

    /// How many cells are live. `NoMemory` where there is no room to count them.
    pub fn population(&mut self, alloc: Global) -> Result<u128, Refusal>
        ensures ok { IfOk result (HasPopulation (live_cells self.old)) }
        ensures same { IsSameUniverse self.old self.new }
        ensures memory { IsOkUnless result Refusal.NoMemory }
    {
        let here = &mut self.here;
        population_at(alloc, &mut reader(&here.table, &mut here.desk), self.root)
    }

    /// The smallest box that holds the live cells. `NoMemory` where there is no room to find it.
    pub fn bounds(&mut self, alloc: Global) -> Result<Option<Bounds>, Refusal>
        ensures ok { IfOk result (HasBounds (live_cells self.old)) }
        ensures same { IsSameUniverse self.old self.new }
        ensures memory { IsOkUnless result Refusal.NoMemory }
    {
        let here = &mut self.here;
        bounds_at(alloc, &mut reader(&here.table, &mut here.desk), self.root)
    }

    /// How many pair slots its tables have together: at most the limit.
    pub fn pairs(&self) -> u64
        ensures pairs { result ≡ pairs_of self.now }
        ensures limit { result ≤ limit_of self.now }
    {
        self.here.pair_count() + self.others.pairs()
    }

    /// The live cells in the words of their table, which is closed. All other tables are dropped.
    pub fn into_still(self) -> RootedStill
        ensures { IsSame (still_cells result) (live_cells self) }
    {
        self.here.close(self.root)
    }
}
