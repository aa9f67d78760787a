//! Squares copied from one book into another.

ghost use Rattle.std.specs.Prelude.{IfOk, IfErr};
ghost use Rattle.squares.specs.Book.{AddsSquares, IsKnown, LacksMemoryOr, MayRefuse, Shows};
ghost use Rattle.squares.specs.Copies.{AreKnownCopies};

use crate::book::{Look, Squares};
use crate::reading::{Looked, Reading};
use crate::sq::{Num, Sq};
use plane::{LEAF_LEVEL, Refusal};
use std::alloc::Global;
use std::collections::HashMap;

// The numbers of the copies of squares, by level and number.
type Copies = HashMap<(u8, u32), Num>;

// Copies a square, and notes the copies that are made on the way, but for those of leaves: a note
// costs more than a leaf that the book knows.
fn copy_read<A: Reading, B: Squares>(
    from: &mut A,
    sq: Sq,
    to: &mut B,
    copies: &mut Copies,
) -> Result<Sq, Refusal>
    requires known { IsKnown (A.book from.old) sq.level sq }
    requires copies { AreKnownCopies (A.book from.old) (B.book to.old) copies.old }
    ensures ok { IfOk result (Shows (B.book to.new) sq.level ((A.book from.old).cells sq)) }
    ensures copies { AreKnownCopies (A.book from.new) (B.book to.new) copies.new }
    ensures refusal { IfErr result (LacksMemoryOr (MayRefuse (B.book to.new))) }
    ensures from { AddsSquares (A.book from.old) (A.book from.new) }
    ensures adds { AddsSquares (B.book to.old) (B.book to.new) }
{
    let level = sq.level;
    if sq.is_empty() {
        return Ok(sq);
    }
    if level == LEAF_LEVEL {
        return to.leaf(from.cells_of(sq));
    }
    if let Some(num) = copies.get(&(level, sq.num.0)) {
        return Ok(Sq { level, num: *num });
    }
    let mut quarters = from.quarters_of(sq);
    for quarter in quarters.iter_mut() {
        *quarter = copy_read(from, *quarter, to, copies)?;
    }
    let copy = to.quad(quarters)?;
    copies.insert((level, sq.num.0), copy.num)?;
    Ok(copy)
}

/// The square with the same level and the same cells in another book; each number of a larger
/// square than a leaf is read and copied once. `NoMemory` where memory ran out, and what that book
/// refuses.
pub fn copy_square<B: Look, S: Squares>(
    alloc: Global,
    from: &B,
    sq: Sq,
    to: &mut S,
) -> Result<Sq, Refusal>
    requires { IsKnown (B.book from.now) sq.level sq }
    ensures ok { IfOk result (Shows (S.book to.new) sq.level ((B.book from.now).cells sq)) }
    ensures refusal { IfErr result (LacksMemoryOr (MayRefuse (S.book to.new))) }
    ensures adds { AddsSquares (S.book to.old) (S.book to.new) }
{
    let mut copies = HashMap::new(alloc);
    copy_read(&mut Looked(from), sq, to, &mut copies)
}

/// The same from a book that makes squares too, which goes on knowing what it knew. `NoMemory`
/// where memory ran out, and what the second book refuses.
pub fn copy_between<A: Squares, B: Squares>(
    alloc: Global,
    from: &mut A,
    sq: Sq,
    to: &mut B,
) -> Result<Sq, Refusal>
    requires { IsKnown (A.book from.old) sq.level sq }
    ensures ok { IfOk result (Shows (B.book to.new) sq.level ((A.book from.old).cells sq)) }
    ensures refusal { IfErr result (LacksMemoryOr (MayRefuse (B.book to.new))) }
    ensures from { AddsSquares (A.book from.old) (A.book from.new) }
    ensures adds { AddsSquares (B.book to.old) (B.book to.new) }
{
    let mut copies = HashMap::new(alloc);
    copy_read(from, sq, to, &mut copies)
}
