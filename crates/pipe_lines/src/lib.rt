//! Lines and blocks as they come from a source: bytes are read through a buffer, and what is behind
//! a line or a block waits there for the next call.
#![tactic(auto)]

mod blocks;
mod buffer;
mod lines;

pub use blocks::{Block, read_block};
pub use buffer::Buffer;
pub use lines::{LINE_LIMIT, Line, LineEnd, read_line};
