//! The drawing of a rectangle of a pattern.

ghost use Rattle.std.specs.Prelude.{IfOk, IsOkUnless};
ghost use Rattle.engine.specs.Pattern.{plane_of};
ghost use Rattle.pattern_picture.specs.Drawings.{IsDrawingOf};
ghost use Rattle.pattern_picture.specs.Scale.{IsShown, IsSize};

use engine::Pattern;
use pattern_picture::Drawing;
use plane::{Bounds, Refusal};
use std::alloc::Global;

/// The drawing of a rectangle of a pattern, whose sides lie from -2^62 to 2^62, as large as can be
/// with at most `size` pixels on each side, 16 to 4096. `NoMemory` where there is no room for it.
pub fn drawing_of(
    alloc: Global,
    pattern: &Pattern,
    shown: Bounds,
    size: u32,
) -> Result<Drawing, Refusal>
    requires shown { IsShown shown }
    requires size { IsSize size }
    ensures drawn { IfOk result (IsDrawingOf (plane_of pattern.now) shown size) }
    ensures memory { IsOkUnless result Refusal.NoMemory }
{
    Drawing::of(alloc, pattern.still(), pattern.root(), shown, size)
}
