//! The two quarters of a square that have one of its rows of cells or of blocks.

ghost use Rattle.std.specs.Prelude.{◌≡◌, ◌<◌, ◌≤◌, ◌+◌, ◌-◌, ◌^◌};
ghost use Rattle.squares.specs.Book.{IsKnown, Keeps, nth};
ghost use Rattle.squares.specs.declared.sq.TheConstants.{HIGHEST_ROOT_LEVEL};
ghost use Rattle.viewport.specs.Halves.{IsHalfOfBlocks, IsHalfRow};

use squares::{Look, Reading, Sq, half_side};

/// The two quarters of a square that have one of its rows, from left to right, and the row there.
pub(crate) fn half_with_row<B: Look>(book: &B, sq: Sq, y: u64) -> (Sq, Sq, u64)
    requires known { IsKnown (B.book book.now) sq.level sq }
    requires low { 3 < sq.level }
    requires high { sq.level ≤ HIGHEST_ROOT_LEVEL }
    requires row { y < 2 ^ sq.level }
    ensures first { IsKnown (B.book book.now) (sq.level - 1) result.0 }
    ensures second { IsKnown (B.book book.now) (sq.level - 1) result.1 }
    ensures row { IsHalfRow (2 ^ (sq.level - 1)) ((B.book book.now).cells sq)
        ((B.book book.now).cells result.0) ((B.book book.now).cells result.1) y result.2 }
{
    half_of(book.parts(sq), y, half_side(sq.level))
}

/// The two quarters of a square that have one of its rows of blocks, from left to right, and the
/// row there; a quarter has so many rows of them. The book goes on knowing what it knew.
pub(crate) fn half_with_blocks<R: Reading>(
    from: &mut R,
    sq: Sq,
    row: u64,
    half: u64,
) -> (Sq, Sq, u64)
    requires known { IsKnown (R.book from.old) sq.level sq }
    requires low { 3 < sq.level }
    requires row { row < half + half }
    ensures first { IsKnown (R.book from.new) (sq.level - 1) result.0 }
    ensures second { IsKnown (R.book from.new) (sq.level - 1) result.1 }
    ensures row { IsHalfOfBlocks half (2 ^ (sq.level - 1)) ((R.book from.old).cells sq)
        ((R.book from.new).cells result.0) ((R.book from.new).cells result.1) row result.2 }
    ensures keeps { Keeps (R.book from.old) (R.book from.new) }
{
    half_of(from.quarters_of(sq), row, half)
}

// The upper two of four quarters and the row, or the lower two and the row there.
fn half_of(quarters: [Sq; 4], row: u64, half: u64) -> (Sq, Sq, u64)
    ensures upper { row < half → result ≡ (nth quarters 0, nth quarters 1, row) }
    ensures lower { half ≤ row → result ≡ (nth quarters 2, nth quarters 3, row - half) }
{
    let [nw, ne, sw, se] = quarters;
    if row < half {
        (nw, ne, row)
    } else {
        (sw, se, row - half)
    }
}
