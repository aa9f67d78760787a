//! Where the next item begins, and how many cells are live so far.

ghost use Rattle.std.specs.Prelude.{◌≡◌, true, false, pos, ◌+◌, ◌+ℤ◌, ◌<◌, ◌≤◌, IfOk, IfErr};
ghost use Rattle.rle_reader.specs.State.{state_at, start_at, after_item, motion_fault, passes_limit};
ghost use Rattle.plane.specs.Limits.{most_live_cells};
ghost use Rattle.rle_reader.specs.Range.{IsWithinReach};
ghost use Rattle.plane.specs.Range.{IsInRange};

use crate::item::{Run, Tag};
use plane::{COORDINATE_LIMIT, Cell, LIVE_CELL_LIMIT, Refusal};

/// The column and the row of the next item, and the number of live cells before it.
#[derive(Clone, Copy)]
pub(crate) struct Cursor {
    left: i64,
    column: i64,
    row: i64,
    live: u64,
    ghost left_in_reach: { IsWithinReach left },
    ghost column_in_reach: { IsWithinReach column },
    ghost row_in_reach: { IsWithinReach row },
    ghost live_in_reach: { live ≤ most_live_cells },
}

impl Cursor {
    /// Before the first item of a pattern whose upper left corner is at `pos`.
    pub(crate) fn new(pos: Cell) -> Self
        requires { IsInRange pos }
        ensures left { result.left ≡ pos.x }
        ensures state { state_at result.column result.row result.live ≡ start_at pos }
    {
        Cursor {
            left: pos.x,
            column: pos.x,
            row: pos.y,
            live: 0,
        }
    }

    /// The column of the next item.
    pub(crate) fn column(&self) -> i64
        ensures { result ≡ self.now.column }
    {
        self.column
    }

    /// The row of the next item.
    pub(crate) fn row(&self) -> i64
        ensures { result ≡ self.now.row }
    {
        self.row
    }

    /// The cursor past an item.
    #[tactic(auto, unfolding(crate::specs::State::motion_fault))]
    pub(crate) fn after(self, run: &Run<'_>) -> Result<Cursor, Refusal>
        ensures ok { IfOk result (λ next.
            (motion_fault (state_at self.column self.row self.live) run.now.tag run.now.count
            ≡ None)
            × (state_at next.column next.row next.live
            ≡ after_item self.left (state_at self.column self.row self.live)
            run.now.tag run.now.count)
            × (next.left ≡ self.left)) }
        ensures err { IfErr result (λ refusal.
            motion_fault (state_at self.column self.row self.live) run.now.tag run.now.count
            ≡ Some refusal) }
    {
        let count = run.count;
        let Cursor {
            left,
            column,
            row,
            live,
        } = self;
        let (column, row, live) = match run.tag {
            Tag::Row => (left, advance(row, count)?, live),
            Tag::Dead => (advance(column, count)?, row, live),
            Tag::Live if row >= COORDINATE_LIMIT => return Err(Refusal::OutOfRange),
            Tag::Live => (advance(column, count)?, row, more_live(live, count)?),
        };
        Ok(Cursor {
            left,
            column,
            row,
            live,
        })
    }
}

// Moves a coordinate on by a count. `OutOfRange` if it is then above the limit.
fn advance(coordinate: i64, count: u64) -> Result<i64, Refusal>
    requires { IsWithinReach coordinate }
    ensures ok { IfOk result (λ next. (passes_limit coordinate count ≡ false)
        × (next ≡ coordinate +ℤ pos count) × IsWithinReach next) }
    ensures err { IfErr result (λ refusal. (passes_limit coordinate count ≡ true)
        × (refusal ≡ Refusal.OutOfRange)) }
{
    let room = COORDINATE_LIMIT
        .cast_unsigned()
        .wrapping_sub(coordinate.cast_unsigned());
    if count > room {
        return Err(Refusal::OutOfRange);
    }
    Ok(coordinate.wrapping_add_unsigned(count))
}

// So many live cells more. `TooManyCells` if they are then too many.
fn more_live(live: u64, count: u64) -> Result<u64, Refusal>
    requires { live ≤ most_live_cells }
    ensures ok { IfOk result (λ more. (more ≡ live + count) × (more ≤ most_live_cells)) }
    ensures err { IfErr result (λ refusal. (most_live_cells < live + count)
        × (refusal ≡ Refusal.TooManyCells)) }
{
    if count > LIVE_CELL_LIMIT - live {
        return Err(Refusal::TooManyCells);
    }
    Ok(live + count)
}
