//! Sets of cells.

ghost use Rattle.std.specs.Prelude.{◌≡◌, ◌↔◌, [], length, Some, IsTrue, OnErr, OnOk, IsOkUnless};
ghost use Rattle.plane.specs.Bounds.{bounds_of, box_with};
ghost use Rattle.plane.specs.CellSet.{IsCellSet, with_cell};
ghost use Rattle.plane.specs.Listing.{plane_of, IsListing};
ghost use Rattle.plane.specs.Range.{IsInRange};

use crate::cell::{Bounds, Cell};
use crate::refusal::Refusal;
use std::alloc::Global;
use std::collections::BTreeSet;
use std::collections::btree_set::Iter;
use std::marker::Model;

/// Some cells in the range, each once. It is seen as the list of them in the order of reading.
#[derive(Drop)]
pub struct CellSet {
    cells: BTreeSet<Cell>,
}

impl Model for CellSet {
    ghost use Rattle.std.specs.Prelude.{List};
    ghost use Rattle.plane.specs.declared.cell.Cell.{Cell};
    ghost use Rattle.plane.specs.CellSet.{IsCellSet};

    ghost Value = { List Cell };

    ghost view = { λ set. set.cells.keys };

    ghost invariant = { λ set. IsCellSet set.cells.keys };
}

// The smallest box that also holds the cell.
fn box_with(bounds: Option<Bounds>, cell: Cell) -> Bounds
    ensures { box_with bounds cell ≡ Some result }
{
    let own = Bounds::of(cell);
    match bounds {
        Some(bounds) => bounds.union(own),
        None => own,
    }
}

impl CellSet {
    /// No cells.
    pub fn new(alloc: Global) -> Self
        ensures { result ≡ [] }
    {
        CellSet {
            cells: BTreeSet::new(alloc),
        }
    }

    /// How many cells there are.
    pub fn len(&self) -> usize
        ensures len { result ≡ length self.now }
        ensures listing { IsCellSet self.now }
    {
        self.cells.len()
    }

    /// Whether there are none.
    pub fn is_empty(&self) -> bool
        ensures { IsTrue result ↔ (self.now ≡ []) }
    {
        self.cells.is_empty()
    }

    /// Whether it has the cell.
    pub fn contains(&self, cell: Cell) -> bool
        ensures { result ≡ plane_of self.now cell.x cell.y }
    {
        self.cells.contains(&cell)
    }

    /// The cells in the order of reading.
    pub fn iter(&self) -> Iter<'_, Cell>
        ensures cells { result ≡ self.now }
        ensures listing { IsCellSet self.now }
    {
        self.cells.iter()
    }

    /// The smallest box that holds them, if there are any.
    pub fn bounds(&self) -> Option<Bounds>
        ensures { result ≡ bounds_of self.now }
    {
        self.iter()
            .fold(None, |bounds, cell| Some(box_with(bounds, *cell)))
    }

    /// Adds a cell of the range; one that is there already stays. `NoMemory` if there is no room
    /// for it, and then the set is as it was.
    pub fn insert(&mut self, cell: Cell) -> Result<(), Refusal>
        requires { IsInRange cell }
        ensures ok { OnOk result (IsListing self.new (with_cell cell (plane_of self.old))) }
        ensures err { OnErr result (self.new ≡ self.old) }
        ensures memory { IsOkUnless result Refusal.NoMemory }
    {
        self.cells.insert(cell)?;
        Ok(())
    }
}
