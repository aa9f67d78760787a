//! What a square shows, over any book that can be read: how many live cells it has, the smallest
//! box round them, the runs of a row, the first row with a live cell, the picture of a window, and
//! how many live cells blocks of cells have. A square of level k covers -2^(k-1) to 2^(k-1)-1 in
//! both directions, so (0,0) lies at its centre. Squares that share their quarters are no slower
//! for it, however many cells they have.
#![tactic(auto)]

mod block_spans;
mod blocks;
mod boxes;
mod gaps;
mod halves;
mod laws;
mod leaf_boxes;
mod pictures;
mod populations;
mod rows;
mod runs;
mod sides;

pub use blocks::{Blocks, count_blocks};
pub use boxes::{bounds, bounds_at};
pub use laws::one_list_of_runs;
pub use pictures::picture;
pub use populations::{population, population_at};
pub use rows::first_row;
pub use runs::row_runs;
