//! How many live cells blocks of cells have.

ghost use Rattle.std.specs.Prelude.{◌≡◌, ◌≤◌, ◌++◌, ◌^◌, pos, ◌≤ℤ◌, OnOk};
ghost use Rattle.plane.specs.Centred.{centred};
ghost use Rattle.squares.specs.Book.{IsKnown, Keeps};
ghost use Rattle.squares.specs.declared.sq.TheConstants.{HIGHEST_ROOT_LEVEL};
ghost use Rattle.viewport.specs.Blocks.{block_counts};
ghost use Rattle.viewport.specs.Population.{AreCounts};
ghost use Rattle.viewport.specs.BlockSpans.{AreBeside, IsNearRange};

use crate::block_spans::{BlockSpan, add_dead, count_span};
use crate::populations::Counts;
use crate::sides::{offset_in, signed_half_side};
use squares::{Reading, Sq};
use std::alloc::AllocError;

/// A rectangle of blocks of 2^exponent by 2^exponent cells. Block (i, j) holds the cells (x, y)
/// with floor(x / 2^exponent) = i and floor(y / 2^exponent) = j.
#[derive(Clone, Copy, Debug, PartialEq, Eq)]
pub struct Blocks {
    /// Up to 62.
    pub exponent: u8,
    /// The i of the first column.
    pub left: i64,
    /// The j of the first row.
    pub top: i64,
    /// How many columns of blocks there are.
    pub width: u32,
    /// How many rows of blocks there are.
    pub height: u32,
}

/// Adds how many live cells each block of row `j` of the rectangle has, in a square of a level from
/// 3 to 63, by the counts that are known; it adds what it finds to them, so that each number above
/// level 5 is counted once. What lies outside the square is dead. The book goes on knowing what it
/// knew.
pub fn count_blocks<R: Reading>(
    from: &mut R,
    sq: Sq,
    blocks: &Blocks,
    j: i64,
    counts: &mut Counts,
    found: &mut Vec<u128>,
) -> Result<(), AllocError>
    requires known { IsKnown (R.book from.old) sq.level sq }
    requires level { sq.level ≤ HIGHEST_ROOT_LEVEL }
    requires columns { IsNearRange blocks.now.left blocks.now.width }
    requires counted { AreCounts (R.book from.old) counts.old }
    ensures ok { OnOk result (found.new.items ≡ found.old.items
        ++ block_counts (centred sq.level ((R.book from.old).cells sq)) blocks.now.exponent j
        blocks.now.left blocks.now.width) }
    ensures counted { AreCounts (R.book from.new) counts.new }
    ensures keeps { Keeps (R.book from.old) (R.book from.new) }
{
    let exponent = blocks.exponent.min(sq.level - 1);
    let level = sq.level - exponent;
    let Some(row) = offset_in(j, level) else {
        return add_dead(u64::from(blocks.width), found);
    };
    let columns = columns_beside(blocks.left, blocks.width, signed_half_side(level));
    let span = BlockSpan {
        row,
        from: columns.from,
        end: columns.end,
    };
    add_dead(columns.before, found)?;
    count_span(from, sq, exponent, span, counts, found)?;
    add_dead(columns.behind, found)
}

// How columns lie beside a square: how many of them lie left of it, from which to before which of
// its own columns they go on, counted from its left side, and how many lie right of it.
#[derive(Clone, Copy)]
struct Columns {
    before: u64,
    from: u64,
    end: u64,
    behind: u64,
}

// How so many columns from left on lie beside a square that has those from -half to before half.
fn columns_beside(left: i64, width: u32, half: i64) -> Columns
    requires near { IsNearRange left width }
    requires low { pos 0 ≤ℤ half }
    requires high { half ≤ℤ pos (2 ^ 62) }
    ensures { AreBeside left width half result }
{
    let end = left + i64::from(width);
    Columns {
        before: left.min(-half).abs_diff(end.min(-half)),
        from: left.clamp(-half, half).abs_diff(-half),
        end: end.clamp(-half, half).abs_diff(-half),
        behind: left.max(half).abs_diff(end.max(half)),
    }
}
