//! The list of the nodes that a macrocell file has, each square once, after its quarters.

ghost use Rattle.std.specs.Prelude.{◌≡◌, ◌+◌, ◌≤◌, [], ◌∷◌, ◌++◌, length, IfOk, OnOk, Some};
ghost use Rattle.std.specs.HashMap.{Updates};
ghost use Rattle.squares.specs.Book.{AreKnown, IsKnown, nth};
ghost use Rattle.squares.specs.Noted.{is_same_key};
ghost use Rattle.pattern_writers.specs.ListedNodes.{AreNodes, Lists, ListsFour, number_of, root_node};
ghost use Rattle.squares.specs.Roots.{square_plane};

use super::node::ListedNode;
use super::root::Root;
use squares::{LEAF_LEVEL, Look, Sq};
use std::alloc::{AllocError, Global};
use std::collections::HashMap;

// The nodes that are written, in order, and the numbers of their squares by level and number in the
// book.
#[derive(Drop)]
struct NodeList {
    nodes: Vec<ListedNode>,
    numbers: HashMap<(u8, u32), u64>,
}

impl NodeList {
    // The number of a square for which no node has to be added: 0 of an empty one, else that of its
    // node.
    fn number_of(&self, sq: Sq) -> Option<u64>
        ensures { result ≡ number_of self.now sq }
    {
        if sq.is_empty() {
            return Some(0);
        }
        self.numbers.get(&(sq.level, sq.num.0)).copied()
    }

    // Adds the node of a square, and gives its number.
    fn add(&mut self, sq: Sq, node: ListedNode) -> Result<u64, AllocError>
        ensures node { OnOk result (self.new.nodes.items ≡ self.old.nodes.items ++ node ∷ []) }
        ensures number { IfOk result (λ number. number ≡ length self.old.nodes.items + 1) }
        ensures noted { IfOk result (λ number. Updates is_same_key
            self.old.numbers self.new.numbers (sq.level, sq.num.0) (Some number)) }
    {
        self.nodes.push(node)?;
        let number = self.nodes.len() as u64;
        self.numbers.insert((sq.level, sq.num.0), number)?;
        Ok(number)
    }
}

/// The nodes of the squares in a square of a level from 4 to 63, whose centre corner is (0,0), in
/// the smallest square that has its cells.
pub(crate) fn listed_nodes<B: Look>(
    alloc: Global,
    book: &B,
    sq: Sq,
) -> Result<Vec<ListedNode>, AllocError>
    requires known { IsKnown (B.book book.now) sq.level sq }
    requires low { 4 ≤ sq.level }
    ensures { IfOk result (λ nodes. AreNodes (square_plane (B.book book.now) sq) nodes.items) }
{
    let mut list = NodeList {
        nodes: Vec::new(alloc),
        numbers: HashMap::new(alloc),
    };
    let root = Root::of(book, sq);
    let quarters = numbers(book, root.quarters, &mut list)?;
    with_root(list.nodes, root.level, quarters)
}

// The nodes with that of the root, unless it is empty.
fn with_root(
    mut nodes: Vec<ListedNode>,
    level: u8,
    quarters: [u64; 4],
) -> Result<Vec<ListedNode>, AllocError>
    ensures { IfOk result (λ all. all.items ≡ nodes.items ++ root_node level quarters) }
{
    if quarters == [0; 4] {
        return Ok(nodes);
    }
    nodes.push(ListedNode::Inner { level, quarters })?;
    Ok(nodes)
}

// The number of a square among the nodes. It adds the nodes of its squares that are not among them.
#[cycle(number)]
fn number<B: Look>(book: &B, sq: Sq, list: &mut NodeList) -> Result<u64, AllocError>
    requires known { IsKnown (B.book book.now) sq.level sq }
    ensures { IfOk result (Lists (B.book book.now) sq list.old list.new) }
{
    if let Some(number) = list.number_of(sq) {
        return Ok(number);
    }
    if sq.level == LEAF_LEVEL {
        return list.add(sq, ListedNode::Leaf(book.bits(sq)));
    }
    let quarters = numbers(book, book.parts(sq), list)?;
    list.add(
        sq,
        ListedNode::Inner {
            level: sq.level,
            quarters,
        },
    )
}

// The numbers of four squares of one level.
#[cycle(number)]
fn numbers<B: Look>(book: &B, squares: [Sq; 4], list: &mut NodeList) -> Result<[u64; 4], AllocError>
    requires known { AreKnown (B.book book.now) (nth squares 0).level squares }
    ensures { IfOk result (ListsFour (B.book book.now) squares list.old list.new) }
{
    let [nw, ne, sw, se] = squares;
    let nw = number(book, nw, list)?;
    let ne = number(book, ne, list)?;
    let sw = number(book, sw, list)?;
    let se = number(book, se, list)?;
    Ok([nw, ne, sw, se])
}
