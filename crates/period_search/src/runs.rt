//! The runs of two rows, compared.

ghost use Rattle.std.specs.Prelude.{◌≡◌, ◌↔◌, IsTrue};
ghost use Rattle.period_search.specs.MovedRuns.{moved_run, moved_runs};

/// Whether the second runs are the first ones, moved so far to the right.
pub(crate) fn are_moved(runs: &[(i64, u64)], others: &[(i64, u64)], right: i64) -> bool
    ensures { IsTrue result ↔ (others.now ≡ moved_runs right runs.now) }
{
    if runs.len() != others.len() {
        return false;
    }
    for i in 0..runs.len() {
        if !is_moved(runs[i], others[i], right) {
            return false;
        }
    }
    true
}

// Whether the second run is the first one, moved.
fn is_moved(run: (i64, u64), other: (i64, u64), right: i64) -> bool
    ensures { IsTrue result ↔ (other ≡ moved_run right run) }
{
    run.0.checked_add(right) == Some(other.0) && run.1 == other.1
}
