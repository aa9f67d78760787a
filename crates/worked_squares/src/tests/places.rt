//! Cells near the middle of the plane, which several examples begin with.

ghost use Rattle.plane.specs.Range.{IsInRange};

use plane::{Cell, CellSet, Refusal, reach};
use rule_text::Rule;
use std::alloc::Global;

/// A place as x and y.
pub(crate) type Place = (i8, i8);

pub(crate) fn cell_at(place: Place) -> Cell
    ensures { IsInRange result }
{
    Cell {
        y: i64::from(place.1),
        x: i64::from(place.0),
    }
}

pub(crate) fn cells_at(alloc: Global, places: &[Place]) -> Result<CellSet, Refusal> {
    let mut cells = CellSet::new(alloc);
    for place in places {
        cells.insert(cell_at(*place))?;
    }
    Ok(cells)
}

/// The next generation of the cells.
pub(crate) fn next_of(alloc: Global, cells: &CellSet, rule: &Rule) -> Result<CellSet, Refusal> {
    reach(cells.bounds(), 0, 1)?;
    cells.next(alloc, rule)
}
