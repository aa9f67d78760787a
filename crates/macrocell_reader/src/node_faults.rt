//! Which node lines are accepted.

ghost use Rattle.std.specs.Prelude.{◌≡◌, ◌≤◌, IfOk, IfErr};
ghost use Rattle.std.specs.Option.{option_map};
ghost use Rattle.macrocell_reader.specs.NodeFaults.{node_fault, fault_among, is_child, is_above};
ghost use Rattle.macrocell_reader.specs.Nodes.{level_of, node_of};

use crate::node::{Node, node_of};
use plane::{LEAF_LEVEL, Refusal};

/// The lowest level of an inner node.
pub(crate) const LEAST_INNER_LEVEL: u8 = 4;

/// The largest level of a node: its square is as large as the range of coordinates.
pub(crate) const LARGEST_LEVEL: u8 = 63;

/// The largest number of a node.
pub(crate) const LARGEST_NUMBER: u32 = u32::MAX;

/// The level of the node that a line writes, where the nodes before it have these levels. It
/// refuses, in this order,
///
/// - `OutOfRange` an inner node whose level is too large;
/// - `TooManyCells` a line whose number is too large;
/// - `BadNodeLine` a line that is neither a leaf nor an inner node of a level above a leaf's;
/// - `BadChild` a quadrant that is neither 0 nor the number of an earlier node one level lower.
pub(crate) fn level_of_line(levels: &[u8], line: &[u8]) -> Result<u8, Refusal>
    ensures fault { IfErr result (λ refusal. node_fault levels.now line.now ≡ Some refusal) }
    ensures accepted { IfOk result (λ level. node_fault levels.now line.now ≡ None) }
    ensures level { IfOk result (λ level. option_map level_of (node_of line.now) ≡ Some level) }
{
    level_among(levels, node_of(line))
}

// The same of a node that was read.
#[tactic(auto, unfolding(crate::specs::NodeFaults::fault_among))]
fn level_among(levels: &[u8], node: Option<Node>) -> Result<u8, Refusal>
    ensures fault { IfErr result (λ refusal. fault_among levels.now node ≡ Some refusal) }
    ensures accepted { IfOk result (λ level. fault_among levels.now node ≡ None) }
    ensures level { IfOk result (λ level. option_map level_of node ≡ Some level) }
{
    if is_above(&node) {
        return Err(Refusal::OutOfRange);
    }
    if levels.len() >= LARGEST_NUMBER as usize {
        return Err(Refusal::TooManyCells);
    }
    match node {
        Some(Node::Leaf(_)) => Ok(LEAF_LEVEL),
        Some(Node::Inner { level, kids }) if level >= LEAST_INNER_LEVEL => {
            if kids.iter().all(|kid| is_child(levels, level, *kid)) {
                Ok(level)
            } else {
                Err(Refusal::BadChild)
            }
        }
        _ => Err(Refusal::BadNodeLine),
    }
}

// Whether the line is an inner node whose level is too large.
fn is_above(node: &Option<Node>) -> bool
    ensures { result ≡ is_above node.now }
{
    matches!(node, Some(Node::Inner { level, .. }) if *level > LARGEST_LEVEL)
}

// Whether the number is 0, or that of an earlier node one level lower.
fn is_child(levels: &[u8], level: u8, number: u32) -> bool
    requires { LEAST_INNER_LEVEL ≤ level }
    ensures { result ≡ is_child levels.now level number }
{
    number == 0
        || levels
            .get(number as usize - 1)
            .is_some_and(|lower| *lower == level - 1)
}
