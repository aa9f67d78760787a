//! The nodes of a whole pattern, a leaf too.

ghost use Rattle.std.specs.Prelude.{IfOk, IsOkUnless};
ghost use Rattle.plane.specs.Centred.{centred};
ghost use Rattle.plane.specs.Square.{bits_plane};
ghost use Rattle.squares.specs.Book.{IsKnown};
ghost use Rattle.pattern_writers.specs.ListedNodes.{AreNodes};
ghost use Rattle.squares.specs.Roots.{square_plane};

use super::listing::listed_nodes;
use super::node::ListedNode;
use hashlife_step::trim;
use plane::Refusal;
use rule_text::Rule;
use squares::{LEAF_LEVEL, Look, PlainBook, Sq, Squares};
use std::alloc::Global;

/// The nodes of the squares in a square, whose centre corner is (0,0), in the smallest square of a
/// level of at least 4 that has its cells.
pub(crate) fn pattern_nodes<B: Look>(
    alloc: Global,
    book: &B,
    sq: Sq,
    rule: &Rule,
) -> Result<Vec<ListedNode>, Refusal>
    requires known { IsKnown (B.book book.now) sq.level sq }
    ensures ok { IfOk result (λ nodes. AreNodes (square_plane (B.book book.now) sq) nodes.items) }
    ensures memory { IsOkUnless result Refusal.NoMemory }
{
    if sq.level == LEAF_LEVEL {
        return leaf_nodes(alloc, rule, book.bits(sq));
    }
    Ok(listed_nodes(alloc, book, sq)?)
}

// The nodes of a leaf: in a book of its own it comes into the middle of a square of level 4.
fn leaf_nodes(alloc: Global, rule: &Rule, word: u64) -> Result<Vec<ListedNode>, Refusal>
    ensures ok { IfOk result (λ nodes. AreNodes (centred 3 (bits_plane word)) nodes.items) }
    ensures memory { IsOkUnless result Refusal.NoMemory }
{
    let mut book = PlainBook::new(alloc, *rule, 0);
    let leaf = book.leaf(word)?;
    let root = trim(&mut book, leaf)?;
    Ok(listed_nodes(alloc, &book, root)?)
}
