//! Where squares come from.

ghost use Rattle.std.specs.Prelude.{◌≤◌, IfErr, IfOk};
ghost use Rattle.plane.specs.Plane.{Plane};
ghost use Rattle.squares.specs.declared.sq.TheConstants.{HIGHEST_ROOT_LEVEL};
ghost use Rattle.squares.specs.Book.{AddsSquares, LacksMemoryOr, MayRefuse};
ghost use Rattle.squares.specs.Roots.{IsRootOf};

use crate::book::Squares;
use crate::sq::Sq;
use plane::Refusal;
use std::alloc::Global;

/// A source of live cells in the range. It can make their square in any book, more than once. It
/// adds squares to the book, and no result.
pub trait Build {
    // The live cells.
    ghost live: { Self → Plane };
    // What must hold of the source.
    ghost is_lawful: { Self → Type 0 };

    /// The square of the live cells around (0,0), at the smallest level of at least 4.
    fn build<S: Squares>(&self, alloc: Global, book: &mut S) -> Result<Sq, Refusal>
        requires { is_lawful self.now }
        ensures ok { IfOk result (IsRootOf (S.book book.new) (live self.now)) }
        ensures level { IfOk result (λ root. root.level ≤ HIGHEST_ROOT_LEVEL) }
        ensures refusal { IfErr result (LacksMemoryOr (MayRefuse (S.book book.new))) }
        ensures adds { AddsSquares (S.book book.old) (S.book book.new) };
}
