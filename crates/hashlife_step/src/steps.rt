//! One step of a run: the square is padded, its future taken and trimmed. The steps that a number
//! of generations takes.
ghost use Rattle.std.specs.Prelude.{◌≡◌, ◌+◌, ◌^◌, ◌<◌, ◌≤◌, max, All, IfOk, IfErr, sum_by};
ghost use Rattle.std.specs.List.Sorted.{IsStrictlyIncreasing};
ghost use Rattle.plane.specs.declared.cell.TheConstants.{HIGHEST_LEVEL};
ghost use Rattle.squares.specs.Book.{IsKnown, MayRefuse};
ghost use Rattle.hashlife_step.specs.ShowsCentred.{IsStepOf};
ghost use Rattle.hashlife_step.specs.Tallies.{MakesResults};

use crate::padding::pad;
use crate::recursion::future;
use crate::trimming::trim;
use arrayvec::ArrayVec;
use plane::Refusal;
use squares::{Sq, Squares, Tally};

/// One step of 2^exponent generations, by the book's exponent: the root is padded, its future taken
/// and trimmed. The answer has the cells that those of the root become, at the smallest level of at
/// least 4, round the same centre.
pub fn step<S: Squares>(book: &mut S, root: Sq, tally: &mut Tally) -> Result<Sq, Refusal>
    requires known { IsKnown (S.book book.old) root.level root }
    requires high { max (root.level + 2) ((S.book book.old).exponent + 3) ≤ HIGHEST_LEVEL }
    ensures ok { IfOk result (IsStepOf (S.book book.old) (S.book book.new) root) }
    ensures refusal { IfErr result (MayRefuse (S.book book.new)) }
    ensures makes { MakesResults (S.book book.old) (S.book book.new) HIGHEST_LEVEL
        tally.old.expansions tally.new.expansions }
{
    let exponent = book.exponent();
    let padded = pad(book, root, exponent)?;
    let next = future(book, padded, tally)?;
    trim(book, next)
}

/// The powers of two that add up to a number of generations, as exponents, rising.
pub fn plan(generations: u64) -> ArrayVec<u8, 64>
    ensures rising { IsStrictlyIncreasing result.items }
    ensures digits { All (λ exponent. exponent < 64) result.items }
    ensures sum { sum_by (λ exponent. 2 ^ exponent) result.items ≡ generations }
{
    let mut exponents = ArrayVec::new();
    for exponent in 0..64u8 {
        if generations >> exponent & 1 == 1 {
            exponents.push(exponent);
        }
    }
    exponents
}
