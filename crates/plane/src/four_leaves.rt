//! Squares of four leaves: their centres.
ghost use Rattle.std.specs.Prelude.{◌≡◌, ℕ, ◌+◌, ◌<◌};
ghost use Rattle.plane.specs.Square.{IsSame, bit, bits_plane, centre_of};
ghost use Rattle.plane.specs.Leaves.{cell_at, leaves_plane};

// The cells in the columns 0 to 3 of a leaf.
const LEFT_COLUMNS: u64 = 0x0f0f0f0f0f0f0f0f;

// The cells in its columns 4 to 7.
const RIGHT_COLUMNS: u64 = 0xf0f0f0f0f0f0f0f0;

/// The 8 by 8 cells in the middle of a square of four leaves.
pub fn centre16(leaves: [u64; 4]) -> u64
    ensures { IsSame (bits_plane result) (centre_of 4 (leaves_plane leaves)) }
{
    let [upper_left, upper_right, lower_left, lower_right] = leaves;
    let left = middle_rows(upper_left, lower_left);
    let right = middle_rows(upper_right, lower_right);
    middle_columns(left, right)
}

// The lower half of a leaf, and below it the upper half of the leaf that stands below.
fn middle_rows(above: u64, below: u64) -> u64
    ensures upper { (place : ℕ) → place < 32 → bit result place ≡ bit above (32 + place) }
    ensures lower { (place : ℕ) → place < 32 → bit result (32 + place) ≡ bit below place }
{
    (above >> 32) | (below << 32)
}

// The right half of a leaf, and beside it the left half of the leaf on its right.
fn middle_columns(left: u64, right: u64) -> u64
    ensures left { (row column : ℕ) → row < 8 → column < 4
        → cell_at result row column ≡ cell_at left row (4 + column) }
    ensures right { (row column : ℕ) → row < 8 → column < 4
        → cell_at result row (4 + column) ≡ cell_at right row column }
{
    ((left >> 4) & LEFT_COLUMNS) | ((right << 4) & RIGHT_COLUMNS)
}
