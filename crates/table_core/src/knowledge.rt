//! What a desk knows of a table, as contracts see it.

use plane::Cell;
use std::collections::LinkedList;

/// A number, and the block that it shows: its rank and its live cells. A block is a square, or a
/// half of one: two squares beside one another. A square of level k has rank 2 (k - 3), and two
/// blocks of one rank make one of the next.
pub struct KnownBlock {
    pub number: u32,
    pub rank: u8,
    pub live: LinkedList<Cell>,
}

/// A square, by its level and number, and the number of its future.
pub struct KnownResult {
    pub level: u8,
    pub square: u32,
    pub future: u32,
}

/// What a desk knows: words by their index, what numbers show, results, and how many of the results
/// it found by asking, so that somebody else had told them. No value of it is ever made: only
/// contracts speak of it.
pub struct Knowledge {
    pub words: LinkedList<(u32, u64)>,
    pub blocks: LinkedList<KnownBlock>,
    pub results: LinkedList<KnownResult>,
    pub learned: u64,
}
