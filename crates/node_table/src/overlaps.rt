//! The four squares that neighbours make among nine squares in three rows.

ghost use Rattle.std.specs.Prelude.{◌<◌, ◌⊎◌, All, IfOk, IfErr, OnErr};
ghost use Rattle.plane.specs.declared.cell.TheConstants.{HIGHEST_LEVEL};
ghost use Rattle.squares.specs.Book.{IsKnown, MayRefuse};
ghost use Rattle.squares.specs.Overlaps.{AreOverlaps};
ghost use Rattle.table_core.specs.declared.shape.Kind.TheVariants.{Pair};
ghost use Rattle.node_table.specs.DesksAtWork.{LearnsBlocks, book_here};
ghost use Rattle.node_table.specs.Halves.{AreBeside, AreHalvesOfRows, IsHalfOf};
ghost use Rattle.node_table.specs.Refusals.{HasNoRoom, HasNoRoomForOverlap, word_of};

use crate::at::At;
use crate::halves::Half;
use plane::Refusal;
use squares::Sq;

/// The halves of each of three rows of three squares: its first two squares, and its last two.
#[derive(Clone, Copy)]
pub(crate) struct HalvesOfRows {
    pub(crate) upper: (Half, Half),
    pub(crate) middle: (Half, Half),
    pub(crate) lower: (Half, Half),
}

impl At<'_> {
    // The halves of a row of three squares.
    fn halves_of_row(&mut self, left: Sq, middle: Sq, right: Sq) -> Result<(Half, Half), Refusal>
        requires first { AreBeside (book_here self.old) left middle }
        requires last { AreBeside (book_here self.old) middle right }
        ensures learns { LearnsBlocks self.old self.new }
        ensures first { IfOk result (λ halves. IsHalfOf self.new left middle halves.0) }
        ensures last { IfOk result (λ halves. IsHalfOf self.new middle right halves.1) }
        ensures refusal { IfErr result (MayRefuse (book_here self.new)) }
        ensures full { OnErr result
            (HasNoRoom self.new.table.now self.new.desk Pair (word_of left middle)
            ⊎ HasNoRoom self.new.table.now self.new.desk Pair (word_of middle right)) }
    {
        let first = self.half(left, middle)?;
        let last = self.half(middle, right)?;
        Ok((first, last))
    }

    // The halves of the three rows of nine squares of one level.
    fn halves_of_rows(&mut self, level: u8, nine: [Sq; 9]) -> Result<HalvesOfRows, Refusal>
        requires known { All (IsKnown (book_here self.old) level) nine }
        requires level { level < HIGHEST_LEVEL }
        ensures learns { LearnsBlocks self.old self.new }
        ensures ok { IfOk result (AreHalvesOfRows self.new level nine) }
        ensures refusal { IfErr result (MayRefuse (book_here self.new)) }
        ensures full { OnErr result (HasNoRoomForOverlap self.new.table.now self.new.desk nine) }
    {
        let [nw, n, ne, w, centre, e, sw, s, se] = nine;
        self.prefetch_half(nw, n);
        self.prefetch_half(n, ne);
        self.prefetch_half(w, centre);
        self.prefetch_half(centre, e);
        self.prefetch_half(sw, s);
        self.prefetch_half(s, se);
        let upper = self.halves_of_row(nw, n, ne)?;
        let middle = self.halves_of_row(w, centre, e)?;
        let lower = self.halves_of_row(sw, s, se)?;
        Ok(HalvesOfRows {
            upper,
            middle,
            lower,
        })
    }

    /// Of nine squares of one level in three rows, the four that neighbours make. The halves of the
    /// middle row serve the squares above and below it.
    pub(crate) fn overlaps_by_halves(
        &mut self,
        level: u8,
        nine: [Sq; 9],
    ) -> Result<[Sq; 4], Refusal>
        requires known { All (IsKnown (book_here self.old) level) nine }
        requires level { level < HIGHEST_LEVEL }
        ensures learns { LearnsBlocks self.old self.new }
        ensures ok { IfOk result (AreOverlaps (book_here self.new) level nine) }
        ensures refusal { IfErr result (MayRefuse (book_here self.new)) }
        ensures full { OnErr result (HasNoRoomForOverlap self.new.table.now self.new.desk nine) }
    {
        let rows = self.halves_of_rows(level, nine)?;
        self.prefetch_whole(rows.upper.0, rows.middle.0);
        self.prefetch_whole(rows.upper.1, rows.middle.1);
        self.prefetch_whole(rows.middle.0, rows.lower.0);
        self.prefetch_whole(rows.middle.1, rows.lower.1);
        let nw = self.whole(rows.upper.0, rows.middle.0)?;
        let ne = self.whole(rows.upper.1, rows.middle.1)?;
        let sw = self.whole(rows.middle.0, rows.lower.0)?;
        let se = self.whole(rows.middle.1, rows.lower.1)?;
        Ok([nw, ne, sw, se])
    }
}
