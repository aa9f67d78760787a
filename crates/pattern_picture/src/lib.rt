//! Pictures of the cells of a square: at what scale a rectangle is shown, and the shades of its
//! blocks.
#![tactic(auto)]

mod laws;
mod pictures;
mod scale;
mod shades;

pub use laws::one_scale;
pub use pictures::Drawing;
pub use scale::Scale;
pub use shades::block_shades;
