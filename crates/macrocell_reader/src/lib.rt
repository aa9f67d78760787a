//! Macrocell pattern files: [`McFile::open`] checks a whole text once, and its comments, its rule
//! and its node lines are slices of that text.
#![tactic(auto)]

mod inner;
mod laws;
mod leaf;
mod mc_file;
mod node;
mod node_faults;
mod node_lines;
mod settings;

pub use laws::{accepted_in_range, faults_have_places, leaf_cells, node_lines_are_slices};
pub use mc_file::McFile;
pub use node::{Node, NodeLine};
pub use node_lines::NodeLines;
pub use text_lines::Comments;
