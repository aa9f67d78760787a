//! What the numbers of a book stand for.

ghost use Rattle.std.specs.Prelude.{◌≡◌, ◌<◌, ◌+◌, ◌↔◌, IsTrue};
ghost use Rattle.plane.specs.declared.cell.TheConstants.{HIGHEST_LEVEL};
ghost use Rattle.squares.specs.Book.{nth};
ghost use Rattle.squares.specs.Quarters.{quarters_of};

use crate::sq::{Num, Sq};

/// The level of a square and the numbers of its quarters.
#[derive(Clone, Copy, PartialEq, Eq, PartialOrd, Ord)]
pub(crate) struct Quarters {
    pub(crate) level: u8,
    pub(crate) nw: Num,
    pub(crate) ne: Num,
    pub(crate) sw: Num,
    pub(crate) se: Num,
}

impl Quarters {
    /// The quarters of the square that these four make.
    pub(crate) fn of(squares: [Sq; 4]) -> Self
        requires { (nth squares 0).level < HIGHEST_LEVEL }
        ensures { result ≡ quarters_of squares }
    {
        let [nw, ne, sw, se] = squares;
        Quarters {
            level: nw.level + 1,
            nw: nw.num,
            ne: ne.num,
            sw: sw.num,
            se: se.num,
        }
    }

    /// Whether all four are empty.
    pub(crate) fn are_empty(&self) -> bool
        ensures { IsTrue result
            ↔ (self.now.nw.0 + self.now.ne.0 + self.now.sw.0 + self.now.se.0 ≡ 0) }
    {
        self.nw.0 == 0 && self.ne.0 == 0 && self.sw.0 == 0 && self.se.0 == 0
    }
}

/// What a number other than 0 stands for: the cells of a leaf, or the quarters of a larger square.
#[derive(Clone, Copy)]
pub(crate) enum PlainNode {
    Leaf(u64),
    Inner(Quarters),
}

/// A node, and the number of its result once that is known.
#[derive(Clone, Copy)]
pub(crate) struct Record {
    pub(crate) node: PlainNode,
    pub(crate) future: Option<Num>,
}
