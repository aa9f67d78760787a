//! The search for the least period of an open pattern.

ghost use Rattle.std.specs.Prelude.{◌≡◌, true, IfErr, IfNone, IfOk, IfSome, OnOk};
ghost use Rattle.engine.specs.Sessions.{IsLaterSession, cells_of, is_open};
ghost use Rattle.period_search.specs.Candidates.{AreSome, last_of};
ghost use Rattle.period_search.specs.Searches.{IsAnswer, OneAnswer, StopsOnTheWay};

use crate::candidates::Candidates;
use crate::displacement::displacement;
use crate::period::Period;
use engine::{Gate, Session, Team};
use plane::Refusal;
use std::thread::Threads;

/// The least period of the session's cells, if it is one of the candidates: each of these is tried
/// in turn from the least on, and the session is that many generations later then. `None` if no
/// candidate is a period; the session is as many generations later as the greatest says.
///
/// `NoMemory` if memory runs out; else it refuses what the session refuses on its way to a
/// candidate, where none before it is a period.
pub fn least_period<R: Threads + Sync, G: Gate>(
    team: &Team<'_, R, G>,
    session: &mut Session,
    candidates: Candidates,
) -> Result<Option<Period>, Refusal>
    requires { AreSome candidates }
    ensures answer { IfOk result (IsAnswer session.old.rule (cells_of session.old) candidates) }
    ensures later { IfOk result (λ found. IfSome found (λ period.
        IsLaterSession session.old period.generations session.new)) }
    ensures ended { IfOk result (λ found. IfNone found
        (IsLaterSession session.old (last_of candidates) session.new)) }
    ensures closed { OnOk result (is_open session.old ≡ true) }
    ensures refused { IfErr result (StopsOnTheWay candidates session.old session.new) }
{
    let first = session.snapshot(team.alloc)?;
    let population = first.population(team.alloc)?;
    let bounds = first.bounds(team.alloc)?;
    let mut tried = 0;
    while let Some(generations) = candidates.after(tried) {
        session.advance(team, generations - tried)?;
        tried = generations;
        if let Some(by) = displacement(team.alloc, &first, population, bounds, session)? {
            return Ok(Some(Period::with(generations, by)));
        }
    }
    Ok(None)
}

/// A search has one answer only, as a call that does nothing and says it in its clause.
pub fn one_answer()
    ensures { OneAnswer }
{}
