//! Squares made of the nodes of a macrocell file.

ghost use Rattle.std.specs.Prelude.{◌≡◌, ◌≤◌, ℕ, [], None, Some, length, map, slice_index, IfErr, IfOk};
ghost use Rattle.macrocell_reader.specs.NodeFaults.{StandInOrder, fault_among};
ghost use Rattle.macrocell_reader.specs.Nodes.{level_of};
ghost use Rattle.macrocell_reader.specs.Planes.{node_plane, root_plane};
ghost use Rattle.squares.specs.Book.{AddsSquares, LacksMemoryOr, MayRefuse, Shows};
ghost use Rattle.squares.specs.Roots.{IsRootOf};
ghost use Rattle.squares.specs.declared.sq.TheConstants.{HIGHEST_ROOT_LEVEL};
ghost use Rattle.pattern_files.specs.NodeSquares.{AreKnownAtLevels, ShowNodes, levels_of, numbered_square, quarters_of, shown_planes};

use hashlife_step::trim;
use macrocell_reader::{Node, NodeLines};
use plane::Refusal;
use squares::{LOWEST_ROOT_LEVEL, Sq, Squares};
use std::alloc::Global;

/// The square of the last node around (0,0), at the smallest level of at least 4, or the empty one
/// where there is no node. Each node is made once.
pub(crate) fn nodes_to_square<S: Squares>(
    alloc: Global,
    book: &mut S,
    lines: NodeLines<'_>,
) -> Result<Sq, Refusal>
    requires { StandInOrder [] (map (λ line. line.node) lines) }
    ensures ok { IfOk result
        (IsRootOf (S.book book.new) (root_plane (map (λ line. line.node) lines.entry))) }
    ensures high { IfOk result (λ sq. sq.level ≤ HIGHEST_ROOT_LEVEL) }
    ensures refusal { IfErr result (LacksMemoryOr (MayRefuse (S.book book.new))) }
    ensures adds { AddsSquares (S.book book.old) (S.book book.new) }
{
    let squares = squares_of(alloc, book, lines)?;
    match squares.last() {
        Some(root) => trim(book, *root),
        None => Ok(Sq::empty(LOWEST_ROOT_LEVEL)),
    }
}

// The squares of the nodes, one after the other.
fn squares_of<S: Squares>(
    alloc: Global,
    book: &mut S,
    lines: NodeLines<'_>,
) -> Result<Vec<Sq>, Refusal>
    requires { StandInOrder [] (map (λ line. line.node) lines) }
    ensures ok { IfOk result (λ squares.
        ShowNodes (S.book book.new) (map (λ line. line.node) lines.entry) squares.items) }
    ensures refusal { IfErr result (LacksMemoryOr (MayRefuse (S.book book.new))) }
    ensures adds { AddsSquares (S.book book.old) (S.book book.new) }
{
    let mut squares = Vec::new(alloc);
    for line in lines {
        let sq = node_square(book, squares.as_slice(), line.node)?;
        squares.push(sq)?;
    }
    Ok(squares)
}

// The square of a node, from those of the earlier nodes.
fn node_square<S: Squares>(book: &mut S, squares: &[Sq], node: Node) -> Result<Sq, Refusal>
    requires known { AreKnownAtLevels (S.book book.old) squares.now }
    requires lawful { fault_among (levels_of squares.now) (Some node) ≡ None }
    ensures ok { IfOk result (Shows (S.book book.new) (level_of node)
        (node_plane (shown_planes (S.book book.old) squares.now) node)) }
    ensures refusal { IfErr result (MayRefuse (S.book book.new)) }
    ensures adds { AddsSquares (S.book book.old) (S.book book.new) }
{
    match node {
        Node::Leaf(bits) => book.leaf(bits),
        Node::Inner { level, kids } => book.quad(quarters(squares, level - 1, kids)),
    }
}

// The squares with these numbers, of this level.
fn quarters(squares: &[Sq], level: u8, numbers: [u32; 4]) -> [Sq; 4]
    requires { (i : ℕ) → slice_index numbers i ≤ length squares.now }
    ensures { result ≡ quarters_of squares.now level numbers }
{
    let [nw, ne, sw, se] = numbers;
    [
        numbered_square(squares, level, nw),
        numbered_square(squares, level, ne),
        numbered_square(squares, level, sw),
        numbered_square(squares, level, se),
    ]
}

// The square with this number, counted from 1; number 0 is the empty square of the level.
fn numbered_square(squares: &[Sq], level: u8, number: u32) -> Sq
    requires { number ≤ length squares.now }
    ensures { result ≡ numbered_square squares.now level number }
{
    if number == 0 {
        return Sq::empty(level);
    }
    squares[number as usize - 1]
}
