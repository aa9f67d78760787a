//! Shades of grey that show how many live cells blocks of cells have.

ghost use Rattle.std.specs.Prelude.{◌≡◌, ◌≤◌, ◌++◌, map, IfOk, IsOkUnless, OnOk};
ghost use Rattle.plane.specs.Centred.{centred};
ghost use Rattle.squares.specs.Book.{IsKnown};
ghost use Rattle.squares.specs.declared.sq.TheConstants.{HIGHEST_ROOT_LEVEL};
ghost use Rattle.viewport.specs.Blocks.{IsBlockRange};
ghost use Rattle.pattern_picture.specs.Shades.{block_shades, shade_of};

use plane::Refusal;
use squares::{Look, Looked, Sq};
use std::alloc::{AllocError, Global};
use std::collections::HashMap;
use viewport::{Blocks, count_blocks};

const WHITE: u8 = 255;

const BLACK: u8 = 0;

// The shade of a block with a single live cell.
const LIGHTEST: u32 = 160;

/// The shades of blocks of a square of a level from 3 to 63, row by row from the upper left one:
/// 255 (white) for a block without live cells. Where a block is one cell (exponent 0), 0 (black)
/// for a live one; else 160 - floor(160 b / (2 exponent)) for one with p live cells, b = floor(log2
/// p), so that a single cell is seen and a full block is black. What lies outside the square is
/// dead. Each number above level 5 is counted once. `NoMemory` where there is no room for the
/// shades or for one more count.
pub fn block_shades<L: Look>(
    alloc: Global,
    look: &L,
    sq: Sq,
    blocks: Blocks,
) -> Result<Vec<u8>, Refusal>
    requires known { IsKnown (L.book look.now) sq.level sq }
    requires level { sq.level ≤ HIGHEST_ROOT_LEVEL }
    requires exponent { blocks.exponent ≤ 62 }
    requires columns { IsBlockRange blocks.exponent blocks.left blocks.width }
    requires rows { IsBlockRange blocks.exponent blocks.top blocks.height }
    ensures ok { IfOk result (λ shades. shades.items
        ≡ block_shades (centred sq.level ((L.book look.now).cells sq)) blocks) }
    ensures memory { IsOkUnless result Refusal.NoMemory }
{
    let mut from = Looked(look);
    let mut counts = HashMap::new(alloc);
    let mut row = Vec::new(alloc);
    let mut shades = Vec::new(alloc);
    for step in 0..blocks.height {
        row.clear();
        count_blocks(
            &mut from,
            sq,
            &blocks,
            blocks.top + i64::from(step),
            &mut counts,
            &mut row,
        )?;
        add_shades(blocks.exponent, &row, &mut shades)?;
    }
    Ok(shades)
}

// Adds the shades of blocks with so many live cells.
fn add_shades(exponent: u8, counts: &[u128], shades: &mut Vec<u8>) -> Result<(), AllocError>
    ensures ok { OnOk result (shades.new.items
        ≡ shades.old.items ++ map (shade_of exponent) counts.now) }
{
    for count in counts {
        shades.push(shade(exponent, *count))?;
    }
    Ok(())
}

// The shade of a block of 2^exponent by 2^exponent cells with so many live ones.
fn shade(exponent: u8, count: u128) -> u8
    ensures { result ≡ shade_of exponent count }
{
    if count == 0 {
        return WHITE;
    }
    if exponent == 0 {
        return BLACK;
    }
    LIGHTEST.saturating_sub(LIGHTEST * count.ilog2() / (2 * u32::from(exponent))) as u8
}
