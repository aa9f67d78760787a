//! Leaf lines: the rows of a square of 8 by 8 cells, each ended by `$`.

ghost use Rattle.std.specs.Prelude.{◌≡◌, ◌<◌, ◌+◌, ◌*◌, ◌^◌};
ghost use Rattle.macrocell_reader.specs.Leaf.{leaf_of, bits_of, is_cell, cell_bit};

use text_lines::trim_end;

/// The cells of a leaf line: bit `8 * y + x` is the cell in column x of row y. The line may have
/// blanks at its end. None where it is not a leaf.
#[tactic(auto, unfolding(crate::specs::Leaf::leaf_of))]
pub(crate) fn leaf(line: &[u8]) -> Option<u64>
    ensures { result ≡ leaf_of line.now }
{
    bits_of(trim_end(line))
}

// The cells of at most 8 rows of at most 8 cells. A row ends with `$`, which the last one may
// lack.
fn bits_of(text: &[u8]) -> Option<u64>
    ensures { result ≡ bits_of text.now }
{
    let mut bits = 0u64;
    let mut row = 0u32;
    let mut column = 0u32;
    for byte in text {
        if row == 8 {
            return None;
        }
        if *byte == b'$' {
            row += 1;
            column = 0;
        } else {
            if column == 8 || !is_cell(*byte) {
                return None;
            }
            bits = with_cell(bits, 8 * row + column, *byte);
            column += 1;
        }
    }
    Some(bits)
}

// The bits with a cell at this place, where none is set from there on.
fn with_cell(bits: u64, place: u32, cell: u8) -> u64
    requires place { place < 64 }
    requires free { bits < 2 ^ place }
    ensures value { result ≡ bits + cell_bit cell * 2 ^ place }
    ensures free { result < 2 ^ (place + 1) }
{
    if cell == b'*' {
        bits + (1 << place)
    } else {
        bits
    }
}

/// Whether the byte is a dead cell or a live one.
pub(crate) fn is_cell(byte: u8) -> bool
    ensures { result ≡ is_cell byte }
{
    byte == b'.' || byte == b'*'
}
