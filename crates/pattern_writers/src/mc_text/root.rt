//! The smallest square around (0,0) that holds the cells of a larger one.

ghost use Rattle.std.specs.Prelude.{◌≡◌, ◌≤◌, ◌<◌, ◌-◌, ◌+◌, IfSome, IfNone};
ghost use Rattle.plane.specs.Centred.{Holds};
ghost use Rattle.plane.specs.Plane.{Plane};
ghost use Rattle.squares.specs.Book.{AreKnown, IsKnown};
ghost use Rattle.pattern_writers.specs.Roots.{HasRoot, IsRoot};
ghost use Rattle.squares.specs.Roots.{square_plane};

use squares::{LOWEST_ROOT_LEVEL, Look, Sq, has_empty_border};

/// The quarters of a square whose centre corner is (0,0), which need not be a square that is known.
#[derive(Clone, Copy)]
pub(crate) struct Root {
    pub level: u8,
    pub quarters: [Sq; 4],
}

impl Root {
    /// The smallest square of a level of at least 4 that has the cells of a square, with the same
    /// centre corner.
    pub(crate) fn of<B: Look>(book: &B, sq: Sq) -> Self
        requires known { IsKnown (B.book book.now) sq.level sq }
        requires low { 4 ≤ sq.level }
        ensures { IsRoot (B.book book.now) (square_plane (B.book book.now) sq) result }
    {
        let mut root = Root {
            level: sq.level,
            quarters: book.parts(sq),
        };
        while root.level > LOWEST_ROOT_LEVEL {
            let Some(inner) = root.inner(book) else {
                return root;
            };
            root = inner;
        }
        root
    }

    // The square of half the side round the same corner, if it has all the cells.
    fn inner<B: Look>(self, book: &B) -> Option<Self>
        requires level { 4 < self.level }
        requires known { AreKnown (B.book book.now) (self.level - 1) self.quarters }
        ensures level { IfSome result (λ inner. inner.level + 1 ≡ self.level) }
        ensures inner { IfSome result (λ inner. (plane : Plane) →
            HasRoot (B.book book.now) plane self → HasRoot (B.book book.now) plane inner) }
        ensures none { IfNone result ((plane : Plane) →
            HasRoot (B.book book.now) plane self → ¬ Holds (self.level - 1) plane) }
    {
        let [nw, ne, sw, se] = self.quarters;
        let nw = book.parts(nw);
        let ne = book.parts(ne);
        let sw = book.parts(sw);
        let se = book.parts(se);
        if !has_empty_border(nw, ne, sw, se) {
            return None;
        }
        let [_, _, _, nw] = nw;
        let [_, _, ne, _] = ne;
        let [_, sw, _, _] = sw;
        let [se, _, _, _] = se;
        Some(Root {
            level: self.level - 1,
            quarters: [nw, ne, sw, se],
        })
    }
}
