//! Files of many different leaves.

use std::alloc::{AllocError, Global};

// How many squares of four smaller ones there are of each level.
const SQUARES: [(u8, u32); 8] = [
    (4, 16384),
    (5, 4096),
    (6, 1024),
    (7, 256),
    (8, 64),
    (9, 16),
    (10, 4),
    (11, 1),
];

// The line of a leaf: bit 8y + x of the word is the cell in column x of row y.
fn push_leaf(text: &mut String, word: u32) -> Result<(), AllocError> {
    for bit in 0..32u32 {
        text.push_str(if (word >> bit) & 1 == 1 { "*" } else { "." })?;
        if bit % 8 == 7 {
            text.push_str("$")?;
        }
    }
    text.push_str("\n")?;
    Ok(())
}

// The lines of the squares of a level, each of the next four squares of the level below.
fn push_squares(
    alloc: Global,
    text: &mut String,
    level: u8,
    count: u32,
    next: u32,
) -> Result<u32, AllocError> {
    let mut nw = next;
    for _ in 0..count {
        let (ne, sw, se) = (nw.wrapping_add(1), nw.wrapping_add(2), nw.wrapping_add(3));
        let line = format!(in alloc; "{level} {nw} {ne} {sw} {se}\n")?;
        text.push_str(line.as_str())?;
        nw = nw.wrapping_add(4);
    }
    Ok(nw)
}

/// A macrocell file with leaves of the words 1 to 65536, and squares of four up to one: 524289
/// cells.
pub fn many_leaves(alloc: Global) -> Result<String, AllocError> {
    let mut text = String::from_str(alloc, "[M2]\n")?;
    for word in 1..65537 {
        push_leaf(&mut text, word)?;
    }
    let mut next = 1;
    for (level, count) in SQUARES {
        next = push_squares(alloc, &mut text, level, count, next)?;
    }
    Ok(text)
}

/// An RLE file with the leaves of the words 1 to 300 side by side: bit j of the word i is the cell
/// (8i + j mod 8, j div 8).
pub fn leaves_in_a_row(alloc: Global) -> Result<String, AllocError> {
    let mut text = String::from_str(alloc, "x = 2408, y = 2\n")?;
    for word in 0..301u16 {
        for bit in 0..8u16 {
            text.push_str(if (word >> bit) & 1 == 1 { "o" } else { "b" })?;
        }
    }
    text.push_str("$")?;
    for word in 0..301u16 {
        text.push_str(if word >= 256 { "o7b" } else { "8b" })?;
    }
    text.push_str("!")?;
    Ok(text)
}
