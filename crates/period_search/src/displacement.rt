//! How far an open pattern is one at rest, moved.

ghost use Rattle.std.specs.Prelude.{◌≡◌, IfNone, IfOk, IfSome, IsOkUnless, OnOk, Some, true, ℤ, pos};
ghost use Rattle.engine.specs.Pattern.{plane_of};
ghost use Rattle.engine.specs.Sessions.{IsSameSession, cells_of, is_open};
ghost use Rattle.period_search.specs.Boxes.{IsInRange};
ghost use Rattle.plane.specs.Laws.{moved};
ghost use Rattle.plane.specs.Square.{IsSame, empty};
ghost use Rattle.viewport.specs.BoundingBox.{HasBounds, moved_bounds};
ghost use Rattle.viewport.specs.Population.{HasPopulation};

use crate::rows::has_moved_rows;
use engine::{Pattern, Session};
use plane::{Bounds, Refusal};
use std::alloc::Global;

/// How far the session's cells are those of the pattern, moved to the right and down; `None` where
/// they are not, and 0 and 0 where no cell is live in either. `NoMemory` where there is no room to
/// find out, and where the session is closed.
pub fn displacement_from(
    alloc: Global,
    first: &Pattern,
    session: &mut Session,
) -> Result<Option<(i64, i64)>, Refusal>
    ensures session { IsSameSession session.old session.new }
    ensures some { IfOk result (λ found. IfSome found (λ by.
        IsSame (cells_of session.old) (moved by.0 by.1 (plane_of first.now)))) }
    ensures still { IfOk result (λ found. IfSome found (λ by.
        IsSame (plane_of first.now) empty → (by.0 ≡ pos 0) × (by.1 ≡ pos 0))) }
    ensures none { IfOk result (λ found. IfNone found ((right down : ℤ) →
        IsSame (cells_of session.old) (moved right down (plane_of first.now)) → ⊥)) }
    ensures closed { OnOk result (is_open session.old ≡ true) }
    ensures memory { IsOkUnless result Refusal.NoMemory }
{
    let population = first.population(alloc)?;
    let bounds = first.bounds(alloc)?;
    displacement(alloc, first, population, bounds, session)
}

/// The same, where the pattern's population and box are known.
pub(crate) fn displacement(
    alloc: Global,
    first: &Pattern,
    population: u128,
    bounds: Option<Bounds>,
    session: &mut Session,
) -> Result<Option<(i64, i64)>, Refusal>
    requires population { HasPopulation (plane_of first.now) population }
    requires bounds { HasBounds (plane_of first.now) bounds }
    ensures session { IsSameSession session.old session.new }
    ensures some { IfOk result (λ found. IfSome found (λ by.
        IsSame (cells_of session.old) (moved by.0 by.1 (plane_of first.now)))) }
    ensures still { IfOk result (λ found. IfSome found (λ by.
        IsSame (plane_of first.now) empty → (by.0 ≡ pos 0) × (by.1 ≡ pos 0))) }
    ensures none { IfOk result (λ found. IfNone found ((right down : ℤ) →
        IsSame (cells_of session.old) (moved right down (plane_of first.now)) → ⊥)) }
    ensures closed { OnOk result (is_open session.old ≡ true) }
    ensures memory { IsOkUnless result Refusal.NoMemory }
{
    if session.population(alloc)? != population {
        return Ok(None);
    }
    match (bounds, session.bounds(alloc)?) {
        (None, None) => Ok(Some((0, 0))),
        (Some(from), Some(to)) => displacement_of_boxes(alloc, first, from, session, to),
        _ => Ok(None),
    }
}

// The same, where the boxes of both are known.
fn displacement_of_boxes(
    alloc: Global,
    first: &Pattern,
    from: Bounds,
    session: &mut Session,
    to: Bounds,
) -> Result<Option<(i64, i64)>, Refusal>
    requires from { HasBounds (plane_of first.now) (Some from) }
    requires to { HasBounds (cells_of session.old) (Some to) }
    ensures session { IsSameSession session.old session.new }
    ensures some { IfOk result (λ found. IfSome found (λ by.
        IsSame (cells_of session.old) (moved by.0 by.1 (plane_of first.now)))) }
    ensures none { IfOk result (λ found. IfNone found ((right down : ℤ) →
        IsSame (cells_of session.old) (moved right down (plane_of first.now)) → ⊥)) }
    ensures memory { IsOkUnless result Refusal.NoMemory }
{
    let Some((right, down)) = move_of(&from, &to) else {
        return Ok(None);
    };
    if has_moved_rows(alloc, first, &from, session, right, down)? {
        Ok(Some((right, down)))
    } else {
        Ok(None)
    }
}

// How far the second box is the first one, moved; `None` where a side has another length.
fn move_of(from: &Bounds, to: &Bounds) -> Option<(i64, i64)>
    requires from { IsInRange from.now }
    requires to { IsInRange to.now }
    ensures some { IfSome result (λ by. to.now ≡ moved_bounds by.0 by.1 from.now) }
    ensures none { IfNone result ((right down : ℤ) →
        to.now ≡ moved_bounds right down from.now → ⊥) }
{
    let right = to.left - from.left;
    let down = to.top - from.top;
    if to.right - from.right == right && to.bottom - from.bottom == down {
        Some((right, down))
    } else {
        None
    }
}
