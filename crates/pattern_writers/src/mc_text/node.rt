//! Nodes of a macrocell file, and their lines.

ghost use Rattle.std.specs.Prelude.{◌≡◌, ◌+◌, ◌≤◌, ◌++◌, codes, decimal, length, OnErr, OnOk};
ghost use Rattle.std.specs.List.{flat_map};
ghost use Rattle.plane.specs.Device.{AppendsBeginning, TellsFailure};
ghost use Rattle.pattern_writers.specs.NodeLines.{node_line};
ghost use Rattle.pattern_writers.specs.Output.{AppendsBuffered};

use super::leaf::leaf_text;
use crate::output_block::{OutputBlock, put};
use plane::{Refusal, Sink, TextLine};

// Room for five numbers of 40 digits, each with the byte behind it.
const LINE_ROOM: usize = 205;

/// A square that is listed.
#[derive(Clone, Copy)]
pub(crate) enum ListedNode {
    // Bit 8y + x is the cell (x, y).
    Leaf(u64),
    Inner {
        level: u8,
        // The numbers of its quarters: upper left, upper right, lower left, lower right.
        quarters: [u64; 4],
    },
}

impl ListedNode {
    // Its rows, or its level and the numbers of its quarters, and the end of the line.
    fn line(self) -> TextLine<LINE_ROOM>
        ensures { result ≡ node_line self }
    {
        match self {
            ListedNode::Leaf(word) => leaf_line(word),
            ListedNode::Inner { level, quarters } => inner_line(level, quarters),
        }
    }
}

fn leaf_line(word: u64) -> TextLine<LINE_ROOM>
    ensures { result ≡ node_line (ListedNode.Leaf word) }
{
    let mut line = TextLine::new();
    line.push(leaf_text(word).as_str());
    line.push("\n");
    line
}

fn inner_line(level: u8, quarters: [u64; 4]) -> TextLine<LINE_ROOM>
    ensures { result ≡ node_line (ListedNode.Inner level quarters) }
{
    let [nw, ne, sw, se] = quarters;
    let mut line = TextLine::new();
    line.push_number(level);
    push_next(&mut line, nw);
    push_next(&mut line, ne);
    push_next(&mut line, sw);
    push_next(&mut line, se);
    line.push("\n");
    line
}

// Adds a blank and a number.
fn push_next(line: &mut TextLine<LINE_ROOM>, number: u64)
    requires { length line.old + 41 ≤ 205 }
    ensures text { line.new ≡ line.old ++ codes " " ++ decimal number }
    ensures short { length line.new ≤ length line.old + 41 }
{
    line.push(" ");
    line.push_number(number);
}

/// Writes each node as a line.
pub(crate) fn write_nodes<V: Sink>(
    file: &mut V,
    block: &mut OutputBlock,
    nodes: &[ListedNode],
) -> Result<(), Refusal>
    ensures written { OnOk result (AppendsBuffered (V.taken file.old) block.old.items
        (V.taken file.new) block.new.items (flat_map node_line nodes.now)) }
    ensures beginning { OnErr result (AppendsBeginning (V.taken file.old) (V.taken file.new)
        (block.old.items ++ flat_map node_line nodes.now)) }
    ensures failure { TellsFailure (V.failure_count file.old) (V.failure_count file.new) result }
{
    for node in nodes {
        put(file, block, node.line().as_bytes())?;
    }
    Ok(())
}
