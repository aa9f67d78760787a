//! The next generation of a set of cells.

ghost use Rattle.std.specs.Prelude.{◌≡◌, ℕ, ◌+◌, ◌+ℤ◌, ◌-ℤ◌, IfOk, OnOk, IsOkUnless};
ghost use Rattle.std.specs.List.{AllByRecursion};
ghost use Rattle.rule_text.specs.Neighbourhood.{IsStep};
ghost use Rattle.plane.specs.Bounds.{HasReach};
ghost use Rattle.plane.specs.Generation.{HasAround, HasRoom, IsKept};
ghost use Rattle.plane.specs.Listing.{plane_of, IsListing};
ghost use Rattle.plane.specs.Plane.{live_neighbours, next};
ghost use Rattle.plane.specs.Range.{IsInRange};

use crate::cell::Cell;
use crate::cell_set::CellSet;
use crate::refusal::Refusal;
use rule_text::{Neighbourhood, Offset, Rule};
use std::alloc::Global;

// The cell at this offset from a cell of the range.
fn neighbour(cell: Cell, offset: Offset) -> Cell
    requires cell { IsInRange cell }
    requires offset { IsStep offset }
    ensures { result ≡ record { y = cell.y +ℤ offset.down; x = cell.x +ℤ offset.right } }
{
    Cell {
        y: cell.y + offset.down,
        x: cell.x + offset.right,
    }
}

// The cell from which a cell of the range lies at this offset.
fn with_neighbour(cell: Cell, offset: Offset) -> Cell
    requires cell { IsInRange cell }
    requires offset { IsStep offset }
    ensures { result ≡ record { y = cell.y -ℤ offset.down; x = cell.x -ℤ offset.right } }
{
    Cell {
        y: cell.y - offset.down,
        x: cell.x - offset.right,
    }
}

impl CellSet {
    // How many neighbours of the cell are live.
    fn live_neighbours(&self, neighbourhood: Neighbourhood, cell: Cell) -> u8
        requires { IsInRange cell }
        ensures { result ≡ live_neighbours neighbourhood (plane_of self.now) cell.x cell.y }
    {
        let mut count = 0;
        for offset in neighbourhood.offsets() {
            if self.contains(neighbour(cell, *offset)) {
                count += 1;
            }
        }
        count
    }

    // Whether the cell lives in the next generation.
    fn lives_next(&self, rule: &Rule, cell: Cell) -> bool
        requires { IsInRange cell }
        ensures { result ≡ next rule.now (plane_of self.now) cell.x cell.y }
    {
        let count = self.live_neighbours(rule.neighbourhood(), cell);
        rule.lives(self.contains(cell), count)
    }

    // Adds the cell and each cell that has it as a neighbour.
    fn insert_around(&mut self, neighbourhood: Neighbourhood, cell: Cell) -> Result<(), Refusal>
        requires { HasRoom cell }
        ensures kept { IsKept (plane_of self.old) (plane_of self.new) }
        ensures around { OnOk result (HasAround neighbourhood cell (plane_of self.new)) }
        ensures memory { IsOkUnless result Refusal.NoMemory }
    {
        self.insert(cell)?;
        for offset in neighbourhood.offsets() {
            self.insert(with_neighbour(cell, *offset))?;
        }
        Ok(())
    }

    // The cells that may live in the next generation: the live ones, and those that have a live
    // neighbour.
    fn candidates(&self, alloc: Global, neighbourhood: Neighbourhood) -> Result<CellSet, Refusal>
        requires { AllByRecursion HasRoom self.now }
        ensures ok { IfOk result (λ candidates.
            AllByRecursion (λ cell. HasAround neighbourhood cell (plane_of candidates)) self.now) }
        ensures memory { IsOkUnless result Refusal.NoMemory }
    {
        let mut candidates = CellSet::new(alloc);
        for cell in self.iter() {
            candidates.insert_around(neighbourhood, *cell)?;
        }
        Ok(candidates)
    }

    /// The next generation of the cells by the rule. `NoMemory` if there is no room for it. The box
    /// of the cells, widened by one, has to lie in the range.
    pub fn next(&self, alloc: Global, rule: &Rule) -> Result<CellSet, Refusal>
        requires { HasReach 1 self.now }
        ensures ok { IfOk result (λ cells. IsListing cells (next rule.now (plane_of self.now))) }
        ensures reach { IfOk result (λ cells. (generations : ℕ) →
            HasReach (generations + 1) self.now → HasReach generations cells) }
        ensures memory { IsOkUnless result Refusal.NoMemory }
    {
        let candidates = self.candidates(alloc, rule.neighbourhood())?;
        let mut living = CellSet::new(alloc);
        for cell in candidates.iter() {
            if self.lives_next(rule, *cell) {
                living.insert(*cell)?;
            }
        }
        Ok(living)
    }
}
