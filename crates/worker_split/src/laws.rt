//! What holds of all calls at one table, as a call that does nothing and says it in its clause.
ghost use Rattle.worker_split.specs.Expansions.{EveryExpansionHasItsSlot};
ghost use Rattle.worker_split.specs.Refusals.{EveryRefusalStays};

/// Whatever calls of `round`, `batch_future` and `step` follow one another at one table, from its
/// opening to its closing: all desks together expand at most as many squares as there are pair
/// slots, times the number of workers of the largest team. The desk that comes from
/// `NodeTable::open` begins with no expansion.
pub fn every_expansion_has_its_slot()
    ensures { EveryExpansionHasItsSlot }
{}

/// What was refused once stays refused: a word for which a desk had no room has none at the desk
/// that comes back from a call of `round`, `batch_future` or `step`.
pub fn every_refusal_stays()
    ensures { EveryRefusalStays }
{}
