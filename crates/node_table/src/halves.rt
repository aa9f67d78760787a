//! A square as its two halves: its quarters side by side, each two with a number of their own.
ghost use Rattle.std.specs.Prelude.{◌≡◌, ◌<◌, ◌+◌, IfOk, IfErr, OnErr, IsErr, IsOk, Ok};
ghost use Rattle.squares.specs.Book.{IsEmpty, IsKnown, MayRefuse, Shows, joined_squares};
ghost use Rattle.table_core.specs.declared.shape.Kind.TheVariants.{Pair};
ghost use Rattle.table_core.specs.Layout.{pair_of};
ghost use Rattle.node_table.specs.DesksAtWork.{LearnsBlocks, book_here};
ghost use Rattle.node_table.specs.Halves.{AreBeside, AreHalves, IsHalfOf, MakeSquare, squares_of};
ghost use Rattle.node_table.specs.Refusals.{HasNoRoom, word_of};

use crate::at::{At, square};
use plane::Refusal;
use squares::Sq;

/// Two squares of one level side by side, and the number of both together.
#[derive(Clone, Copy)]
pub(crate) struct Half {
    pub(crate) left: Sq,
    pub(crate) right: Sq,
    pub(crate) number: u32,
}

impl At<'_> {
    /// Two squares side by side.
    pub(crate) fn half(&mut self, left: Sq, right: Sq) -> Result<Half, Refusal>
        requires { AreBeside (book_here self.old) left right }
        ensures learns { LearnsBlocks self.old self.new }
        ensures ok { IfOk result (IsHalfOf self.new left right) }
        ensures empty { IsEmpty left → IsEmpty right
            → result ≡ Ok (record { left = left; right = right; number = 0 }) }
        ensures refusal { IfErr result (MayRefuse (book_here self.new)) }
        ensures full { OnErr result
            (HasNoRoom self.new.table.now self.new.desk Pair (word_of left right)) }
        ensures refused { HasNoRoom self.old.table.now self.old.desk Pair (word_of left right)
            → IsErr result }
    {
        let number = self.pair(left.num.0, right.num.0)?;
        Ok(Half {
            left,
            right,
            number,
        })
    }

    /// The square that two halves make.
    pub(crate) fn whole(&mut self, upper: Half, lower: Half) -> Result<Sq, Refusal>
        requires { MakeSquare self.old upper lower }
        ensures learns { LearnsBlocks self.old self.new }
        ensures ok { IfOk result (Shows (book_here self.new) (upper.left.level + 1)
            (joined_squares (book_here self.old) upper.left.level (squares_of upper lower))) }
        ensures empty { upper.number ≡ 0 → lower.number ≡ 0 → IsOk result }
        ensures refusal { IfErr result (MayRefuse (book_here self.new)) }
        ensures full { OnErr result (HasNoRoom self.new.table.now self.new.desk Pair
            (pair_of upper.number lower.number)) }
        ensures refused { HasNoRoom self.old.table.now self.old.desk Pair
            (pair_of upper.number lower.number) → IsErr result }
    {
        let number = self.pair(upper.number, lower.number)?;
        Ok(square(upper.left.level + 1, number))
    }

    /// The upper and the lower half of a square above level 3.
    pub(crate) fn read_halves(&mut self, sq: Sq) -> (Half, Half)
        requires known { IsKnown (book_here self.old) sq.level sq }
        requires level { 3 < sq.level }
        ensures learns { LearnsBlocks self.old self.new }
        ensures value { AreHalves self.new sq.level ((book_here self.old).cells sq)
            result.0 result.1 }
    {
        let level = sq.level - 1;
        let (upper, lower) = self.read_pair(sq.num.0);
        let (nw, ne) = self.read_pair(upper);
        let (sw, se) = self.read_pair(lower);
        let upper = Half {
            left: square(level, nw),
            right: square(level, ne),
            number: upper,
        };
        let lower = Half {
            left: square(level, sw),
            right: square(level, se),
            number: lower,
        };
        (upper, lower)
    }
}
