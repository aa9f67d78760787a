//! The nine overlapping squares of a square.
ghost use Rattle.std.specs.Prelude.{◌<◌, IfOk, IfErr, OnErr};
ghost use Rattle.squares.specs.Book.{AreSubsquares, IsKnown, MayRefuse};
ghost use Rattle.node_table.specs.DesksAtWork.{LearnsBlocks, book_here};
ghost use Rattle.node_table.specs.Halves.{AreHalvesOfQuarters};
ghost use Rattle.node_table.specs.Refusals.{HasNoRoomForSubsquare};

use crate::at::At;
use crate::halves::Half;
use plane::Refusal;
use squares::Sq;

// The quarters of a square, and the upper and the lower half of each.
#[derive(Clone, Copy)]
struct HalvesOfQuarters {
    quarters: [Sq; 4],
    nw: (Half, Half),
    ne: (Half, Half),
    sw: (Half, Half),
    se: (Half, Half),
}

impl At<'_> {
    // Reads the quarters of a square above level 4, and the halves of each.
    fn read_halves_of_quarters(&mut self, sq: Sq) -> HalvesOfQuarters
        requires known { IsKnown (book_here self.old) sq.level sq }
        requires level { 4 < sq.level }
        ensures learns { LearnsBlocks self.old self.new }
        ensures value { AreHalvesOfQuarters self.new sq.level ((book_here self.old).cells sq)
            result }
    {
        let (upper, lower) = self.read_halves(sq);
        let nw = self.read_halves(upper.left);
        let ne = self.read_halves(upper.right);
        let sw = self.read_halves(lower.left);
        let se = self.read_halves(lower.right);
        HalvesOfQuarters {
            quarters: [upper.left, upper.right, lower.left, lower.right],
            nw,
            ne,
            sw,
            se,
        }
    }

    /// The nine overlapping squares of a square above level 4. The three in the middle column are
    /// made of its four halves, and those beside the middle one of halves of the quarters.
    pub(crate) fn nine_by_halves(&mut self, sq: Sq) -> Result<[Sq; 9], Refusal>
        requires known { IsKnown (book_here self.old) sq.level sq }
        requires level { 4 < sq.level }
        ensures learns { LearnsBlocks self.old self.new }
        ensures ok { IfOk result
            (AreSubsquares (book_here self.new) sq.level ((book_here self.old).cells sq)) }
        ensures refusal { IfErr result (MayRefuse (book_here self.new)) }
        ensures full { OnErr result (HasNoRoomForSubsquare self.new.table.now self.new.desk sq.level
            ((book_here self.old).cells sq)) }
    {
        let parts = self.read_halves_of_quarters(sq);
        let [nw, ne, sw, se] = parts.quarters;
        let (nw_upper, nw_lower) = parts.nw;
        let (ne_upper, ne_lower) = parts.ne;
        let (sw_upper, sw_lower) = parts.sw;
        let (se_upper, se_lower) = parts.se;
        self.prefetch_result(nw);
        self.prefetch_result(ne);
        self.prefetch_result(sw);
        self.prefetch_result(se);
        self.prefetch_half(nw_upper.right, ne_upper.left);
        self.prefetch_half(nw_lower.right, ne_lower.left);
        self.prefetch_half(sw_upper.right, se_upper.left);
        self.prefetch_half(sw_lower.right, se_lower.left);
        self.prefetch_whole(nw_lower, sw_upper);
        self.prefetch_whole(ne_lower, se_upper);
        let first = self.half(nw_upper.right, ne_upper.left)?;
        let second = self.half(nw_lower.right, ne_lower.left)?;
        let third = self.half(sw_upper.right, se_upper.left)?;
        let fourth = self.half(sw_lower.right, se_lower.left)?;
        self.prefetch_whole(first, second);
        self.prefetch_whole(second, third);
        self.prefetch_whole(third, fourth);
        let upper = self.whole(first, second)?;
        let left = self.whole(nw_lower, sw_upper)?;
        let middle = self.whole(second, third)?;
        let right = self.whole(ne_lower, se_upper)?;
        let lower = self.whole(third, fourth)?;
        Ok([nw, upper, ne, left, middle, right, sw, lower, se])
    }
}
