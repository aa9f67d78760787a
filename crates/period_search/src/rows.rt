//! The rows of an open pattern and of one at rest, compared.

ghost use Rattle.std.specs.Prelude.{◌≡◌, ◌+ℤ◌, FitsSigned, IfOk, IsOkUnless, Some};
ghost use Rattle.std.specs.Bool.{OnFalse, OnTrue};
ghost use Rattle.std.specs.Int.{w64};
ghost use Rattle.engine.specs.Pattern.{plane_of};
ghost use Rattle.engine.specs.Sessions.{IsSameSession, cells_of};
ghost use Rattle.period_search.specs.Rows.{IsNextRow};
ghost use Rattle.plane.specs.Laws.{moved};
ghost use Rattle.plane.specs.Square.{IsSame};
ghost use Rattle.viewport.specs.BoundingBox.{HasBounds, moved_bounds};
ghost use Rattle.viewport.specs.Rows.{IsFirstRow};

use crate::runs::are_moved;
use engine::{Pattern, Session};
use plane::{Bounds, Refusal};
use std::alloc::Global;

/// Whether the session's cells are those of the pattern, moved as far as their boxes are.
/// `NoMemory` where there is no room for the runs of a row.
pub(crate) fn has_moved_rows(
    alloc: Global,
    first: &Pattern,
    bounds: &Bounds,
    session: &mut Session,
    right: i64,
    down: i64,
) -> Result<bool, Refusal>
    requires bounds { HasBounds (plane_of first.now) (Some bounds.now) }
    requires moved { HasBounds (cells_of session.old) (Some (moved_bounds right down bounds.now)) }
    ensures session { IsSameSession session.old session.new }
    ensures yes { IfOk result (λ same. OnTrue same
        (IsSame (cells_of session.old) (moved right down (plane_of first.now)))) }
    ensures no { IfOk result (λ same. OnFalse same
        (IsSame (cells_of session.old) (moved right down (plane_of first.now)) → ⊥)) }
    ensures memory { IsOkUnless result Refusal.NoMemory }
{
    let mut y = bounds.top;
    while let Some(row) = first.first_row(y) {
        if !has_moved_row(alloc, first, y, row, session, right, down)? {
            return Ok(false);
        }
        y = row + 1;
    }
    Ok(session.first_row(y + down)?.is_none())
}

// Whether the session's next row with a live cell is that of the pattern, moved.
fn has_moved_row(
    alloc: Global,
    first: &Pattern,
    y: i64,
    row: i64,
    session: &mut Session,
    right: i64,
    down: i64,
) -> Result<bool, Refusal>
    requires next { IsFirstRow (plane_of first.now) y (Some row) }
    requires from { FitsSigned w64 (y +ℤ down) }
    requires row { FitsSigned w64 (row +ℤ down) }
    ensures session { IsSameSession session.old session.new }
    ensures yes { IfOk result (λ same. OnTrue same
        (IsNextRow (plane_of first.now) (cells_of session.old) right down y row)) }
    ensures no { IfOk result (λ same. OnFalse same
        (IsSame (cells_of session.old) (moved right down (plane_of first.now)) → ⊥)) }
    ensures memory { IsOkUnless result Refusal.NoMemory }
{
    if session.first_row(y + down)? != Some(row + down) {
        return Ok(false);
    }
    let runs = first.row_runs(alloc, row)?;
    let others = session.row_runs(alloc, row + down)?;
    Ok(are_moved(&runs, &others, right))
}
