//! The text of a leaf, a square of 8 by 8 cells, in a macrocell file.

ghost use Rattle.std.specs.Prelude.{◌≡◌, [], ◌∷◌};
ghost use Rattle.plane.specs.Square.{bits_plane};
ghost use Rattle.pattern_writers.specs.LeafText.{bits_text, cell_byte, leaf_text};

use plane::TextLine;

// Eight rows of eight cells, each with its end.
const LEAF_ROOM: usize = 72;

const ROW_ROOM: usize = 8;

/// The rows of a leaf up to the last with a live cell, each ended by `$`.
pub(crate) fn leaf_text(word: u64) -> TextLine<LEAF_ROOM>
    ensures { result ≡ leaf_text (bits_plane word) }
{
    let mut text = TextLine::new();
    let mut rows = word;
    while rows != 0 {
        text.push(row_text((rows % 256) as u8).as_str());
        text.push("$");
        rows /= 256;
    }
    text
}

// The cells of a row up to the last live one: bit x is the cell in column x.
fn row_text(row: u8) -> TextLine<ROW_ROOM>
    ensures { result ≡ bits_text 8 row }
{
    let mut text = TextLine::new();
    let mut cells = row;
    while cells != 0 {
        text.push(cell_text(cells % 2 == 1));
        cells /= 2;
    }
    text
}

// The text of a cell.
fn cell_text(live: bool) -> &'static str
    ensures { result.now ≡ cell_byte live ∷ [] }
{
    if live { "*" } else { "." }
}
