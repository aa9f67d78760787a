//! A plane of cells: the cells that are alive, their generations, the range of coordinates, windows
//! of cells, the middle of four leaves, the refusals of the whole project, the devices that bytes
//! are read from and written to, and lines of text.
#![tactic(auto)]

mod cell;
mod cell_set;
mod device;
mod fault;
mod four_leaves;
mod generation;
mod laws;
mod range;
mod refusal;
mod text_line;
mod window;

pub use cell::{Bounds, Cell, HIGHEST_LEVEL, LEAF_LEVEL};
pub use cell_set::CellSet;
pub use device::{Counted, FailAt, Failed, Memory, Sink, Source, write_all};
pub use fault::Fault;
pub use four_leaves::centre16;
pub use laws::{
    bounded_listing, light_cone, limits, nine_parts, one_listing, smallest_box, translation,
};
pub use range::{COORDINATE_LIMIT, GENERATION_LIMIT, LIVE_CELL_LIMIT, is_coordinate, reach};
pub use refusal::{Refusal, rule_refusal};
pub use text_line::TextLine;
pub use window::{WINDOW_SIDE_LIMIT, Window};
