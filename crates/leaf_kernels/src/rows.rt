//! Sixty-four rows of sixty-four cells in sixteen vectors of four rows: row `y` is lane `y / 16` of
//! the vector `y % 16`, bit `x` of it the cell `(x, y)`. So the rows above and below those of a
//! vector are those of the vectors beside it.
ghost use Rattle.std.specs.Prelude.{◌≡◌, Bool, ℤ, pos, ◌+ℤ◌, ◌-ℤ◌, ◌&&◌, if◌then◌else◌, not};
ghost use Rattle.plane.specs.Square.{spans};
ghost use Rattle.leaf_kernels.specs.Choices.{all_cells, differ};
ghost use Rattle.leaf_kernels.specs.Rows.{HasCells, four_rows_plane, in_rows};

use std::simd::prelude::*;

/// Each cell as its left neighbour; the first column is dead.
#[inline(always)]
pub(crate) fn from_left(rows: u64x4) -> u64x4
    ensures { HasCells result (λ x lane. spans 64 x && four_rows_plane rows (x -ℤ pos 1) lane) }
{
    rows << u64x4::splat(1)
}

/// Each cell as its right neighbour; the last column is dead.
#[inline(always)]
pub(crate) fn from_right(rows: u64x4) -> u64x4
    ensures { HasCells result (λ x lane. spans 64 x && four_rows_plane rows (x +ℤ pos 1) lane) }
{
    rows >> u64x4::splat(1)
}

/// Each lane as the one before it; the first lane is dead.
#[inline(always)]
pub(crate) fn from_lane_before(rows: u64x4) -> u64x4
    ensures { HasCells result (λ x lane. spans 4 lane && four_rows_plane rows x (lane -ℤ pos 1)) }
{
    u64x4::splat(0).shuffle(rows, [3, 4, 5, 6])
}

/// Each lane as the one behind it; the last lane is dead.
#[inline(always)]
pub(crate) fn from_lane_behind(rows: u64x4) -> u64x4
    ensures { HasCells result (λ x lane. spans 4 lane && four_rows_plane rows x (lane +ℤ pos 1)) }
{
    rows.shuffle(u64x4::splat(0), [1, 2, 3, 4])
}

/// The dead cells.
#[inline(always)]
pub(crate) fn dead_cells(rows: u64x4) -> u64x4
    ensures { HasCells result (λ x lane. in_rows x lane && not (four_rows_plane rows x lane)) }
{
    !rows
}

/// All cells or none.
#[inline(always)]
pub(crate) fn everywhere(live: bool) -> u64x4
    ensures { HasCells result (all_cells live) }
{
    u64x4::splat(if live { u64::MAX } else { 0 })
}

/// The cells that are live in both.
#[inline(always)]
pub(crate) fn both(first: u64x4, second: u64x4) -> u64x4
    ensures { HasCells result (λ x lane.
        four_rows_plane first x lane && four_rows_plane second x lane) }
{
    first & second
}

/// The one's cells where `bit` is dead, the other's where it is live, by the one's cells and where
/// the two differ.
#[inline(always)]
pub(crate) fn select(bit: u64x4, dead: u64x4, difference: u64x4) -> u64x4
    ensures { (x lane : ℤ) (one other : Bool) → four_rows_plane dead x lane ≡ one
        → four_rows_plane difference x lane ≡ differ one other
        → four_rows_plane result x lane ≡ if four_rows_plane bit x lane then other else one }
{
    dead ^ (bit & difference)
}
