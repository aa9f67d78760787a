//! Sixteen rows of sixteen cells in one vector: lane `y` is row `y`, bit `x` of it the cell `(x,
//! y)`.
ghost use Rattle.std.specs.Prelude.{◌≡◌, ℕ, pos, ◌+◌, ◌<◌, slice_index};
ghost use Rattle.plane.specs.Laws.{moved};
ghost use Rattle.plane.specs.Plane.{next};
ghost use Rattle.plane.specs.Square.{IsSame, bit, bits_plane, centre_of, cut};
ghost use Rattle.plane.specs.Leaves.{leaves_plane};
ghost use Rattle.leaf_kernels.specs.Rows.{rows_plane, sixteen_rows_plane};

use crate::generation::later_rows;
use crate::leaves::{middle_lanes, transpose};
use rule_text::Rule;
use std::simd::prelude::*;

/// Sixteen rows of sixteen cells one generation on. Cells outside the 16 by 16 are taken as dead,
/// and those that would become live there are left out. Lane `y` is row `y`, bit `x` of it the cell
/// `(x, y)`.
pub fn next_rows(rule: &Rule, rows: u16x16) -> u16x16
    ensures { IsSame (sixteen_rows_plane result)
        (cut 16 0 0 (next rule.now (sixteen_rows_plane rows))) }
{
    middle_rows(later_rows(rule, surround(rows), 1))
}

// Sixty-four rows with these sixteen in their middle; all other cells are dead.
fn surround(rows: u16x16) -> [u64x4; 16]
    ensures { IsSame (rows_plane result) (moved (pos 24) (pos 24) (sixteen_rows_plane rows)) }
{
    let words = words_of(rows) << u64x16::splat(24);
    let [a, b, c, d, e, f, g, h, i, j, k, l, m, n, o, p] = words.to_array();
    [
        u64x4::from_array([0, 0, i, 0]),
        u64x4::from_array([0, 0, j, 0]),
        u64x4::from_array([0, 0, k, 0]),
        u64x4::from_array([0, 0, l, 0]),
        u64x4::from_array([0, 0, m, 0]),
        u64x4::from_array([0, 0, n, 0]),
        u64x4::from_array([0, 0, o, 0]),
        u64x4::from_array([0, 0, p, 0]),
        u64x4::from_array([0, a, 0, 0]),
        u64x4::from_array([0, b, 0, 0]),
        u64x4::from_array([0, c, 0, 0]),
        u64x4::from_array([0, d, 0, 0]),
        u64x4::from_array([0, e, 0, 0]),
        u64x4::from_array([0, f, 0, 0]),
        u64x4::from_array([0, g, 0, 0]),
        u64x4::from_array([0, h, 0, 0]),
    ]
}

// The sixteen rows in the middle of sixty-four.
fn middle_rows(rows: [u64x4; 16]) -> u16x16
    ensures { IsSame (sixteen_rows_plane result) (cut 16 24 24 (rows_plane rows)) }
{
    let [a, b, c, d, e, f, g, h, i, j, k, l, m, n, o, p] = rows;
    let [upper, _] = middle_lanes([i, j, k, l, m, n, o, p]);
    let [_, lower] = middle_lanes([a, b, c, d, e, f, g, h]);
    first_cells(stacked(upper, lower) >> u64x16::splat(24))
}

/// The rows of the square that four leaves make.
pub(crate) fn rows_of_leaves(leaves: [u64; 4]) -> u16x16
    ensures { IsSame (sixteen_rows_plane result) (leaves_plane leaves) }
{
    let [upper_left, upper_right, lower_left, lower_right] = leaves;
    let upper = transpose(u64x8::from_array([upper_left, upper_right, 0, 0, 0, 0, 0, 0]));
    let lower = transpose(u64x8::from_array([lower_left, lower_right, 0, 0, 0, 0, 0, 0]));
    first_cells(stacked(upper, lower))
}

/// The 8 by 8 cells in the middle of sixteen rows.
pub(crate) fn centre_of_rows(rows: u16x16) -> u64
    ensures { IsSame (bits_plane result) (centre_of 4 (sixteen_rows_plane rows)) }
{
    let words = words_of(rows) >> u64x16::splat(4);
    let [_, _, _, _, e, f, g, h, i, j, k, l, _, _, _, _] = words.to_array();
    let leaves = transpose(u64x8::from_array([e, f, g, h, i, j, k, l]));
    leaves.to_array()[0]
}

// Eight words, and eight others behind them.
fn stacked(upper: u64x8, lower: u64x8) -> u64x16
    ensures upper { (row : ℕ) → row < 8 → slice_index result row ≡ slice_index upper row }
    ensures lower { (row : ℕ) → row < 8 → slice_index result (8 + row) ≡ slice_index lower row }
{
    let [a, b, c, d, e, f, g, h] = upper.to_array();
    let [i, j, k, l, m, n, o, p] = lower.to_array();
    u64x16::from_array([a, b, c, d, e, f, g, h, i, j, k, l, m, n, o, p])
}

// Sixteen rows as words.
fn words_of(rows: u16x16) -> u64x16
    ensures { (row : ℕ) → row < 16 → slice_index result row ≡ slice_index rows row }
{
    rows.cast::<u64>()
}

// The first sixteen cells of each of sixteen rows.
fn first_cells(rows: u64x16) -> u16x16
    ensures { (column row : ℕ) → column < 16 → row < 16
        → bit (slice_index result row) column ≡ bit (slice_index rows row) column }
{
    (rows & u64x16::splat(0xffff)).cast::<u16>()
}
