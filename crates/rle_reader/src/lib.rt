//! RLE pattern files: [`RleFile::open`] checks a whole text once and copies nothing, and its
//! comments, its rule and its items are slices of that text.
#![tactic(auto)]

mod body;
mod bytes;
mod cursor;
mod header;
mod item;
mod laws;
mod live_runs;
mod number;
mod preamble;
mod reach;
mod rle_file;
mod runs;
mod settings;

pub use body::LocatedByte;
pub use item::{Run, Tag};
pub use laws::{accepted_in_range, items_are_slices, one_cut};
pub use live_runs::LiveRuns;
pub use rle_file::RleFile;
pub use runs::Runs;
pub use text_lines::Comments;
