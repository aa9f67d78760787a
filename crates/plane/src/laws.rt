//! What holds of all planes and all rules, and how far the range goes, as calls that do nothing and
//! say it in their clauses.

ghost use Rattle.std.specs.Prelude.{◌≡◌, ◌^◌, pos};
ghost use Rattle.plane.specs.Laws.{BoundedListing, LightCone, NineParts, OneListing, SmallestBox, Translation};
ghost use Rattle.plane.specs.declared.range.TheConstants.{COORDINATE_LIMIT, GENERATION_LIMIT, LIVE_CELL_LIMIT};
ghost use Rattle.plane.specs.declared.window.TheConstants.{WINDOW_CORNER_LIMIT, WINDOW_SIDE_LIMIT};

/// A plane has at most one listing: sets with the same cells are seen as equal.
pub fn one_listing()
    ensures { OneListing }
{}

/// A plane that is dead outside a window has a listing: the window's live cells.
pub fn bounded_listing()
    ensures { BoundedListing }
{}

/// A cell after n generations depends only on the cells that are at most n away.
pub fn light_cone()
    ensures { LightCone }
{}

/// The generations of a plane move with it.
pub fn translation()
    ensures { Translation }
{}

/// The future of a square is made of the futures of nine overlapping squares of half its side.
pub fn nine_parts()
    ensures { NineParts }
{}

/// The box of some cells holds them all, and no smaller box does.
pub fn smallest_box()
    ensures { SmallestBox }
{}

/// The limits as numbers.
pub fn limits()
    ensures coordinates { COORDINATE_LIMIT ≡ pos (2 ^ 62) }
    ensures generations { GENERATION_LIMIT ≡ 2 ^ 63 }
    ensures live_cells { LIVE_CELL_LIMIT ≡ 2 ^ 28 }
    ensures window_sides { WINDOW_SIDE_LIMIT ≡ 1024 }
    ensures window_corners { WINDOW_CORNER_LIMIT ≡ pos (2 ^ 62) }
{}
