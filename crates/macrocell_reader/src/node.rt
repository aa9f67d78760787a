//! Nodes, and the lines that write them.

ghost use Rattle.std.specs.Prelude.{◌≡◌};
ghost use Rattle.std.specs.Option.{option_map};
ghost use Rattle.macrocell_reader.specs.Nodes.{kept, node_of, begins_leaf};

use crate::inner::inner;
use crate::leaf::{is_cell, leaf};

/// A square of the quadtree.
#[derive(Clone, Copy, Debug, PartialEq, Eq)]
pub enum Node {
    /// A square of 8 by 8 cells. Bit `8 * y + x` is the cell in column x of row y.
    Leaf(u64),
    /// A square of side 2^level.
    Inner {
        level: u8,
        /// The numbers of its quadrants: north west, north east, south west, south east. The first
        /// node line of a file has number 1, and 0 is the empty square.
        kids: [u32; 4],
    },
}

/// A node line of a file.
#[derive(Clone, Copy, Debug, PartialEq, Eq)]
pub struct NodeLine<'a> {
    /// The whole line without its line end.
    pub text: &'a [u8],
    /// The index of the line's first byte in the file.
    pub place: u64,
    pub node: Node,
}

/// The node that a line writes, whether or not its level and its quadrants are those of a node. A
/// number that is too large for its type stays at the largest.
#[tactic(auto, unfolding(crate::specs::Nodes::node_of))]
pub(crate) fn node_of(line: &[u8]) -> Option<Node>
    ensures { result ≡ option_map kept (node_of line.now) }
{
    let first = line.first()?;
    if begins_leaf(*first) {
        return leaf(line).map(Node::Leaf);
    }
    if first.is_ascii_digit() {
        return inner(line);
    }
    None
}

// Whether a line that begins with this byte is a leaf, if it is a node.
fn begins_leaf(first: u8) -> bool
    ensures { result ≡ begins_leaf first }
{
    is_cell(first) || first == b'$'
}
