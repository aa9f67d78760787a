//! Squares of cells, the books that number them, and what holds over any book.
//!
//! - A square is a node of a quadtree, and its parts are the children.
//! - A book is a hash-consing store of nodes.
//! - `keep` and `recall` of [`Squares`] are the memo of results, and a [`Tally`] counts those
//!   that are made.
#![tactic(auto)]

mod book;
mod build;
mod copies;
mod leaf_rows;
mod leaves;
mod node;
mod plain_book;
mod reading;
mod runs;
mod spans;
mod sq;
mod square_rows;
mod strips;
mod subsquares;
mod tally;

pub use book::{Look, Squares};
pub use build::Build;
pub use copies::{copy_between, copy_square};
pub use leaves::{join_leaves, leaf_centre, read_leaves};
pub use plain_book::PlainBook;
pub use plane::LEAF_LEVEL;
pub use reading::{Looked, Reading};
pub use runs::{cells_to_square, runs_to_square};
pub use sq::{HIGHEST_ROOT_LEVEL, LOWEST_ROOT_LEVEL, Num, Sq, half_side, level_around, side};
pub use strips::{RunSequence, ordered_runs_to_square};
pub use subsquares::{centre, has_empty_border, nine};
pub use tally::Tally;
