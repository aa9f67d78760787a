//! The smallest box round the live cells of a leaf.

ghost use Rattle.std.specs.Prelude.{◌≡◌};
ghost use Rattle.plane.specs.Square.{bits_plane};
ghost use Rattle.viewport.specs.BoundingBox.{IsLocalBox, box_of_both};

use plane::Bounds;

// The smallest box round two boxes, either of which may hold nothing.
fn union(a: Option<Bounds>, b: Option<Bounds>) -> Option<Bounds>
    ensures { result ≡ box_of_both a b }
{
    match (a, b) {
        (Some(a), Some(b)) => Some(a.union(b)),
        (None, b) => b,
        (a, None) => a,
    }
}

/// The box of a leaf's live cells.
pub(crate) fn leaf_box(word: u64) -> Option<Bounds>
    ensures { IsLocalBox 8 (bits_plane word) result }
{
    let mut bounds = None;
    for place in 0..64u8 {
        if (word >> place) & 1 == 1 {
            let (x, y) = (i64::from(place % 8), i64::from(place / 8));
            let cell = Bounds {
                left: x,
                top: y,
                right: x,
                bottom: y,
            };
            bounds = union(bounds, Some(cell));
        }
    }
    bounds
}
