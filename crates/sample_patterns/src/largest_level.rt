//! A macrocell file of a square of the largest level.

use std::alloc::{AllocError, Global};

/// A macrocell file: a leaf with one cell, above it one square a level, each with the one before it
/// as its upper left quarter, the last of level 62 on line 60, and these last lines.
pub fn chain(alloc: Global, last: &str) -> Result<String, AllocError> {
    let mut text = String::from_str(alloc, "[M2]\n*$\n")?;
    for level in 4..63u64 {
        let line = format!(in alloc; "{level} {} 0 0 0\n", level - 3)?;
        text.push_str(line.as_str())?;
    }
    text.push_str(last)?;
    Ok(text)
}
