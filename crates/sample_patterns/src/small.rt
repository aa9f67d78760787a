//! Patterns of few cells.

/// Three live cells in a row.
pub const BLINKER: &str = "x = 3, y = 1\n3o!";

/// The leaves of a square of level 4 with three live cells in its columns 7 to 9, in row 7.
pub const BLINKER_LEAVES: [u64; 4] = [0x8000000000000000, 0x0300000000000000, 0, 0];

/// The R-pentomino.
pub const R_PENTOMINO: &str = "x = 3, y = 3, rule = B3/S23\nb2o$2o$bo!";

/// The leaves of a square of level 4 with the R-pentomino in its columns and rows 8 to 10.
pub const R_PENTOMINO_LEAVES: [u64; 4] = [0, 0, 0, 0x20306];
