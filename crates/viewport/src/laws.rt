//! What holds of the runs of all rows, as a call that does nothing and says it in its clause.

ghost use Rattle.viewport.specs.RowRuns.{OneListOfRuns};

/// A row has one list of runs.
pub fn one_list_of_runs()
    ensures { OneListOfRuns }
{}
