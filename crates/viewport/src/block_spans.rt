//! How many live cells neighbouring blocks of a square have.

ghost use Rattle.std.specs.Prelude.{◌≡◌, ◌≤◌, ◌<◌, ◌-◌, ◌^◌, ◌++◌, pos, min, replicate, OnOk};
ghost use Rattle.plane.specs.Square.{bits_plane};
ghost use Rattle.squares.specs.Book.{IsKnown, Keeps};
ghost use Rattle.squares.specs.declared.sq.TheConstants.{HIGHEST_ROOT_LEVEL};
ghost use Rattle.viewport.specs.Blocks.{block_count};
ghost use Rattle.viewport.specs.Population.{AreCounts};
ghost use Rattle.viewport.specs.BlockSpans.{IsInBlocks, span_counts};

use crate::halves::half_with_blocks;
use crate::populations::{Counts, count};
use squares::{LEAF_LEVEL, Reading, Sq, half_side, side};
use std::alloc::AllocError;

/// Neighbouring blocks of a row of a square: how many rows lie above it, and its columns from one
/// to before another, counted from the left side.
#[derive(Clone, Copy)]
pub(crate) struct BlockSpan {
    pub row: u64,
    pub from: u64,
    pub end: u64,
}

/// Adds how many live cells each block of the span has, by the counts that are known; it adds what
/// it finds to them. A block has 2^exponent cells a side. The book goes on knowing what it knew.
pub(crate) fn count_span<R: Reading>(
    from: &mut R,
    sq: Sq,
    exponent: u8,
    span: BlockSpan,
    counts: &mut Counts,
    found: &mut Vec<u128>,
) -> Result<(), AllocError>
    requires known { IsKnown (R.book from.old) sq.level sq }
    requires level { sq.level ≤ HIGHEST_ROOT_LEVEL }
    requires exponent { exponent ≤ sq.level }
    requires span { IsInBlocks (2 ^ (sq.level - exponent)) span }
    requires counted { AreCounts (R.book from.old) counts.old }
    ensures ok { OnOk result (found.new.items ≡ found.old.items
        ++ span_counts ((R.book from.old).cells sq) exponent span) }
    ensures counted { AreCounts (R.book from.new) counts.new }
    ensures keeps { Keeps (R.book from.old) (R.book from.new) }
{
    if span.from == span.end {
        return Ok(());
    }
    if sq.is_empty() {
        return add_dead(span.end - span.from, found);
    }
    if sq.level == exponent {
        found.push(count(from, sq, counts)?)?;
        return Ok(());
    }
    if sq.level == LEAF_LEVEL {
        return count_leaf_span(from.cells_of(sq), exponent, span, found);
    }
    let half = half_side(sq.level - exponent);
    let (first, second, row) = half_with_blocks(from, sq, span.row, half);
    count_span(
        from,
        first,
        exponent,
        left_part(span, row, half),
        counts,
        found,
    )?;
    count_span(
        from,
        second,
        exponent,
        right_part(span, row, half),
        counts,
        found,
    )
}

// The part of the span in the left one of two squares that have so many blocks a side, in their
// row.
fn left_part(span: BlockSpan, row: u64, half: u64) -> BlockSpan
    ensures row { result.row ≡ row }
    ensures from { result.from ≡ min span.from half }
    ensures end { result.end ≡ min span.end half }
{
    BlockSpan {
        row,
        from: span.from.min(half),
        end: span.end.min(half),
    }
}

// The part of the span in the right one of two squares that have so many blocks a side, in their
// row.
fn right_part(span: BlockSpan, row: u64, half: u64) -> BlockSpan
    ensures row { result.row ≡ row }
    ensures from { result.from ≡ span.from - half }
    ensures end { result.end ≡ span.end - half }
{
    BlockSpan {
        row,
        from: span.from.saturating_sub(half),
        end: span.end.saturating_sub(half),
    }
}

// Adds how many live cells each block of a span of a leaf has; the leaf is larger than a block.
fn count_leaf_span(
    word: u64,
    exponent: u8,
    span: BlockSpan,
    found: &mut Vec<u128>,
) -> Result<(), AllocError>
    requires exponent { exponent < 3 }
    requires span { IsInBlocks (2 ^ (3 - exponent)) span }
    ensures ok { OnOk result (found.new.items ≡ found.old.items
        ++ span_counts (bits_plane word) exponent span) }
{
    for column in span.from..span.end {
        found.push(u128::from(count_in_leaf(word, exponent, column, span.row)))?;
    }
    Ok(())
}

// How many live cells a block of a leaf has.
fn count_in_leaf(word: u64, exponent: u8, column: u64, row: u64) -> u32
    requires exponent { exponent < 3 }
    requires column { column < 2 ^ (3 - exponent) }
    requires row { row < 2 ^ (3 - exponent) }
    ensures { result ≡ block_count (bits_plane word) exponent (pos column) (pos row) }
{
    let side = side(exponent);
    let mask = (1 << side) - 1;
    let mut sum = 0;
    for step in 0..side {
        let first = 8 * (row * side + step) + column * side;
        sum += ((word >> first) & mask).count_ones();
    }
    sum
}

/// Adds so many blocks without live cells.
pub(crate) fn add_dead(blocks: u64, found: &mut Vec<u128>) -> Result<(), AllocError>
    ensures ok { OnOk result (found.new.items ≡ found.old.items ++ replicate blocks 0) }
{
    for _ in 0..blocks {
        found.push(0)?;
    }
    Ok(())
}
