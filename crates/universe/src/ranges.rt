//! Which generations of a universe stay in the range.

ghost use Rattle.std.specs.Prelude.{◌≡◌, ◌⊎◌, IfErr, OnOk};

use crate::universe::Universe;
use plane::{Bounds, Refusal, reach};
use squares::half_side;
use std::alloc::Global;

impl Universe {
    ghost use Rattle.universe.specs.Cells.{live_cells};
    ghost use Rattle.universe.specs.Ranges.{Encloses, KeepsToRange, LeavesRange};
    ghost use Rattle.universe.specs.Later.{IsSameUniverse};

    /// Judges whether so many generations stay in the range, where the live cells are those of
    /// generation `start`: `TooFar` if not. `NoMemory` where there is no room to find their box.
    pub fn judge_range(
        &mut self,
        alloc: Global,
        start: u64,
        generations: u64,
    ) -> Result<(), Refusal>
        ensures same { IsSameUniverse self.old self.new }
        ensures ok { OnOk result (KeepsToRange (live_cells self.old) start generations) }
        ensures refused { IfErr result (λ refusal. (refusal ≡ Refusal.NoMemory)
            ⊎ ((refusal ≡ Refusal.TooFar) × LeavesRange (live_cells self.old) start generations)) }
    {
        // The box of the square is at hand. That of the cells has to be found.
        if reach(Some(self.square_box()), start, generations).is_ok() {
            return Ok(());
        }
        let bounds = self.bounds(alloc)?;
        reach(bounds, start, generations)?;
        Ok(())
    }

    // The box of the square around (0,0).
    fn square_box(&self) -> Bounds
        ensures { Encloses result (live_cells self.now) }
    {
        let half = half_side(self.root.level) as i64;
        Bounds {
            left: -half,
            top: -half,
            right: half - 1,
            bottom: half - 1,
        }
    }
}
