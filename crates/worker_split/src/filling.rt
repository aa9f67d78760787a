//! The list of a round's futures, from the answers at their places. Where no worker answered, the
//! round's own desk does the job.
ghost use Rattle.std.specs.Prelude.{◌≡◌, ◌<◌, ◌≤◌, All, IfOk, IfErr, IfSome, [], length, vec_capacity};
ghost use Rattle.node_table.specs.DesksAtWork.{book_here};
ghost use Rattle.worker_split.specs.Jobs.{HaveFutures, IsJob, RefusesFull};
ghost use Rattle.worker_split.specs.Rounds.{IsSettled, PlacesFit};
ghost use Rattle.worker_split.specs.Work.{Continues};

use crate::jobs::{Shared, settle};
use crate::team::Gate;
use hashlife_step::Tally;
use node_table::At;
use plane::Refusal;
use squares::Sq;

// What stands at a place, or is made where it is empty.
fn fill_one<G: Gate>(
    shared: &Shared<'_, G>,
    at: &mut At<'_>,
    k: usize,
    place: Option<Result<Sq, Refusal>>,
    tally: &mut Tally,
) -> Result<Sq, Refusal>
    requires k { k < length shared.now.jobs.now }
    requires jobs { All (IsJob (book_here at.old)) shared.now.jobs.now }
    requires place { IfSome place (IsSettled shared.now.jobs.now (book_here at.old) k) }
    ensures settled { IsSettled shared.now.jobs.now (book_here at.new) k result }
    ensures continues { Continues 1 at.old at.new tally.old tally.new }
{
    match place {
        Some(future) => future,
        None => settle(shared, at, k, None, tally),
    }
}

/// The list of all futures, for which there is room. A refusal doesn't stop the other jobs.
pub(crate) fn fill<G: Gate>(
    shared: &Shared<'_, G>,
    at: &mut At<'_>,
    places: &[Option<Result<Sq, Refusal>>],
    mut futures: Vec<Sq>,
    tally: &mut Tally,
) -> Result<Vec<Sq>, Refusal>
    requires jobs { All (IsJob (book_here at.old)) shared.now.jobs.now }
    requires len { length places.now ≡ length shared.now.jobs.now }
    requires places { PlacesFit shared.now.jobs.now (book_here at.old) places.now }
    requires none { futures.items ≡ [] }
    requires room { length shared.now.jobs.now ≤ vec_capacity futures }
    ensures ok { IfOk result (HaveFutures (book_here at.new) shared.now.jobs.now) }
    ensures refusal { IfErr result (RefusesFull (book_here at.new)) }
    ensures continues { Continues 1 at.old at.new tally.old tally.new }
{
    let mut is_full = false;
    for k in 0..shared.jobs.len() {
        match fill_one(shared, at, k, places[k], tally) {
            Ok(future) => futures.push_reserved(future),
            Err(_) => {
                is_full = true;
                continue;
            }
        }
    }
    if is_full {
        return Err(Refusal::NodesFull);
    }
    Ok(futures)
}
