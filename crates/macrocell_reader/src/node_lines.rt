//! The node lines of a file, one after the other.

ghost use Rattle.std.specs.Prelude.{◌≡◌, [], ◌∷◌, MatchOption};
ghost use Rattle.std.specs.Iterator.{YieldsFirstBy, item_count};
ghost use Rattle.text_lines.specs.LinesLeft.{lines_left};
ghost use Rattle.macrocell_reader.specs.Seen.{nodes_kept, written_seen};

use crate::node::{NodeLine, node_of};
use std::marker::Model;
use text_lines::Lines;

/// The node lines of a file, in order. A contract sees those that are still to come.
#[derive(Drop)]
pub struct NodeLines<'a> {
    rest: Lines<'a>,
}

impl<'a> Model for NodeLines<'a> {
    ghost use Rattle.std.specs.Prelude.{List};
    ghost use Rattle.text_lines.specs.LinesLeft.{lines_left};
    ghost use Rattle.macrocell_reader.specs.Nodes.{WrittenNode};
    ghost use Rattle.macrocell_reader.specs.Seen.{nodes_kept};

    ghost Value = { List WrittenNode };

    ghost view = { λ lines. nodes_kept (lines_left lines.rest) };
}

impl<'a> NodeLines<'a> {
    /// The node lines among these lines.
    pub(crate) fn new(rest: Lines<'a>) -> Self
        ensures { result ≡ nodes_kept (lines_left rest.entry) }
    {
        NodeLines { rest }
    }
}

impl<'a> Iterator for NodeLines<'a> {
    type Item = NodeLine<'a>;

    ghost next_gives = { YieldsFirstBy written_seen (λ lines. lines) };

    ghost remaining = { item_count (λ lines. lines) };

    fn next(&mut self) -> Option<NodeLine<'a>> {
        next_node(&mut self.rest)
    }
}

// Takes lines up to the next node line, or all if there is none.
fn next_node<'a>(lines: &mut Lines<'a>) -> Option<NodeLine<'a>>
    ensures { MatchOption result
        ((nodes_kept (lines_left lines.old) ≡ []) × (nodes_kept (lines_left lines.new) ≡ []))
        (λ node. nodes_kept (lines_left lines.old)
        ≡ written_seen node ∷ nodes_kept (lines_left lines.new)) }
{
    while let Some(line) = lines.next_line() {
        if let Some(node) = node_of(line.text) {
            return Some(NodeLine {
                text: line.text,
                place: line.place as u64,
                node,
            });
        }
    }
    None
}
