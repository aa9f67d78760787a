//! Two blocks and the number of both together: found or made, and read again.
ghost use Rattle.std.specs.Prelude.{◌≡◌, IfOk, IfErr, OnErr, IsErr};
ghost use Rattle.squares.specs.Book.{MayRefuse};
ghost use Rattle.table_core.specs.declared.shape.Kind.TheVariants.{Pair};
ghost use Rattle.table_core.specs.Lawful.{KnowsParts};
ghost use Rattle.table_core.specs.Layout.{pair_of};
ghost use Rattle.node_table.specs.DesksAtWork.{LearnsBlocks, book_here};
ghost use Rattle.node_table.specs.Numbers.{IsPair, KnowsSomePair, KnowsPairOf};
ghost use Rattle.node_table.specs.Refusals.{HasNoRoom, known_by};

use crate::at::At;
use plane::Refusal;
use table_core::{Kind, pair_word, parts};

impl At<'_> {
    /// The number of two blocks of one rank, beside or below one another. Two empty ones are an
    /// empty one.
    pub(crate) fn pair(&mut self, first: u32, second: u32) -> Result<u32, Refusal>
        requires { KnowsParts (known_by self.old.desk) (pair_of first second) }
        ensures learns { LearnsBlocks self.old self.new }
        ensures ok { IfOk result
            (IsPair (known_by self.old.desk) (known_by self.new.desk) first second) }
        ensures empty { first ≡ 0 → second ≡ 0 → result ≡ Ok 0 }
        ensures refusal { IfErr result (MayRefuse (book_here self.new)) }
        ensures full { OnErr result
            (HasNoRoom self.new.table.now self.new.desk Pair (pair_of first second)) }
        ensures refused { HasNoRoom self.old.table.now self.old.desk Pair (pair_of first second)
            → IsErr result }
    {
        if first == 0 && second == 0 {
            return Ok(0);
        }
        match self.number(Kind::Pair, pair_word(first, second)) {
            Some(number) => Ok(number),
            None => Err(Refusal::NodesFull),
        }
    }

    /// The two blocks of a block that is not a square of level 3.
    pub(crate) fn read_pair(&mut self, number: u32) -> (u32, u32)
        requires { KnowsSomePair (known_by self.old.desk) number }
        ensures learns { LearnsBlocks self.old self.new }
        ensures parts { KnowsPairOf (known_by self.old.desk) (known_by self.new.desk) number
            result.0 result.1 }
    {
        if number == 0 {
            return (0, 0);
        }
        parts(self.look(number))
    }
}
