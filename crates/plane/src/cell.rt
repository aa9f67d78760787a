//! Cells, bounding boxes, and the levels of the smallest and the largest squares.

ghost use Rattle.std.specs.Prelude.{◌≡◌};
ghost use Rattle.plane.specs.Bounds.{box_of, box_union};

/// The level of a leaf. A square of level n has 2^n by 2^n cells, so a leaf has 8 by 8.
pub const LEAF_LEVEL: u8 = 3;

/// The level of the largest squares: two above 63, the highest level of a square whose cells come
/// from a file, since a step pads its root by two levels.
pub const HIGHEST_LEVEL: u8 = 65;

/// A place on the plane: `x` counts to the right and `y` downwards. Cells are ordered as they are
/// read, by row and then from left to right.
#[derive(Clone, Copy, Debug, PartialEq, Eq, PartialOrd, Ord)]
pub struct Cell {
    pub y: i64,
    pub x: i64,
}

/// The smallest box round some cells. Its four sides belong to it.
#[derive(Clone, Copy, Debug, PartialEq, Eq)]
pub struct Bounds {
    pub left: i64,
    pub top: i64,
    pub right: i64,
    pub bottom: i64,
}

impl Bounds {
    /// The box of one cell.
    pub fn of(cell: Cell) -> Bounds
        ensures { result ≡ box_of cell }
    {
        Bounds {
            left: cell.x,
            top: cell.y,
            right: cell.x,
            bottom: cell.y,
        }
    }

    /// The smallest box that holds both.
    pub fn union(self, other: Bounds) -> Bounds
        ensures { result ≡ box_union self other }
    {
        Bounds {
            left: self.left.min(other.left),
            top: self.top.min(other.top),
            right: self.right.max(other.right),
            bottom: self.bottom.max(other.bottom),
        }
    }
}
