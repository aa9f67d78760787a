//! The middle of squares of 16 by 16 and of 64 by 64 cells, some generations on, and all of a
//! square of 16 by 16 one generation on. A square is worked on as its rows, the lanes of vectors:
//! many cells at once.
#![tactic(auto)]

mod choice;
mod count;
mod generation;
mod leaves;
mod life;
mod masks;
mod moore;
mod outcomes;
mod result;
mod rows;
mod sixteen_rows;
mod sum;

pub use leaves::Leaves64;
pub use plane::centre16;
pub use result::{result16, result64};
pub use sixteen_rows::next_rows;
