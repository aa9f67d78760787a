//! How a rectangle of cells is drawn.

ghost use Rattle.std.specs.Prelude.{◌≤◌, IfOk, IsOkUnless};
ghost use Rattle.plane.specs.Centred.{centred};
ghost use Rattle.squares.specs.Book.{IsKnown};
ghost use Rattle.squares.specs.declared.sq.TheConstants.{HIGHEST_ROOT_LEVEL};
ghost use Rattle.pattern_picture.specs.Drawings.{IsDrawingOf};
ghost use Rattle.pattern_picture.specs.Scale.{IsShown, IsSize};

use crate::scale::Scale;
use crate::shades::block_shades;
use plane::{Bounds, Refusal};
use squares::{Look, Sq};
use std::alloc::Global;
use viewport::Blocks;

/// How a rectangle of cells is drawn: at what scale, which blocks of cells are shown, and their
/// shades, row by row from the upper left one.
#[derive(Drop)]
pub struct Drawing {
    pub scale: Scale,
    pub blocks: Blocks,
    pub shades: Vec<u8>,
}

impl Drawing {
    /// Draws a rectangle of the cells of a square of a level from 3 to 63, as large as can be with at
    /// most `size` pixels on each side, 16 to 4096. The rectangle's sides lie from -2^62 to 2^62.
    ///
    /// Where there is a pixel for each cell, a cell is a square of up to 16 by 16 pixels, black for a
    /// live one. Else a pixel is a block of 2^k by 2^k cells with the smallest k that will do, and its
    /// shade tells how many of them live; cells of these blocks beyond the rectangle count too.
    /// `NoMemory` if there is no room for the shades or for a count.
    pub fn of<L: Look>(
        alloc: Global,
        look: &L,
        sq: Sq,
        shown: Bounds,
        size: u32,
    ) -> Result<Drawing, Refusal>
        requires known { IsKnown (L.book look.now) sq.level sq }
        requires level { sq.level ≤ HIGHEST_ROOT_LEVEL }
        requires shown { IsShown shown }
        requires size { IsSize size }
        ensures drawn { IfOk result (IsDrawingOf
            (centred sq.level ((L.book look.now).cells sq)) shown size) }
        ensures memory { IsOkUnless result Refusal.NoMemory }
    {
        let scale = Scale::of(shown, size);
        let blocks = scale.blocks(shown);
        let shades = block_shades(alloc, look, sq, blocks)?;
        Ok(Drawing {
            scale,
            blocks,
            shades,
        })
    }
}
