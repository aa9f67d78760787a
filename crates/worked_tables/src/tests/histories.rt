//! What a table remembers of its steps, and what it answers then. No clause says it, since no cell
//! hangs on it.

use crate::tests::copies::finished_after_step;
use std::test::Fail;
use table_growth::TableHistory;

// A step of at most 16384 expansions is short, and the next one has one worker. A try that met a
// full table doesn't tell, and a new table of 2^18 pair slots or more doesn't take over what the
// last step told.
#[test]
fn short_steps_have_one_worker(rt: HostRuntime) -> Result<(), Fail> {
    for (is_taken, expansions, bits, workers) in [
        (true, 16384, 10, 1),
        (true, 16385, 10, 4),
        (false, 1, 10, 4),
        (true, 1, 17, 1),
        (true, 1, 18, 4),
    ] {
        let history = TableHistory::new().after_try(is_taken, expansions);
        let kept = history.for_new_table(bits);
        assert_eq!(rt;
            (expansions, bits, kept.workers_of_next_step(4)),
            (expansions, bits, workers)
        );
    }
    Ok(())
}

// A new table has taken no step.
#[test]
fn a_new_table_is_not_swept(rt: HostRuntime) -> Result<(), Fail> {
    let mut history = TableHistory::new();
    for _ in 0..4u8 {
        history = history.after_try(true, 0);
    }
    let new = history.for_new_table(18);
    let answers = (history.should_sweep_first(18), new.should_sweep_first(18));
    assert_eq!(rt; answers, (true, false));
    Ok(())
}

// A collection may help where there was none for the step yet, or where the last one left room to
// expand a square for every 16 pair slots; and not where all was collected. A step that is taken
// begins anew.
#[test]
fn a_collection_is_made_while_it_may_help(rt: HostRuntime) -> Result<(), Fail> {
    let begun = TableHistory::new();
    let collected = begun.for_collected_table(10, finished_after_step(&rt)?);
    let all = begun.without_collections();
    for (history, may_help) in [
        (begun, true),
        (collected, false),
        (collected.after_try(false, 63), false),
        (collected.after_try(false, 64), true),
        (collected.after_try(true, 0), true),
        (all, false),
        (all.after_try(false, 64), false),
        (all.after_try(true, 0), true),
    ] {
        assert_eq!(rt; history.should_collect(1024), may_help);
    }
    Ok(())
}

// What was finished at the last collection for a step is no more than that.
#[test]
fn the_same_is_not_more(rt: HostRuntime) -> Result<(), Fail> {
    let finished = finished_after_step(&rt)?;
    let begun = TableHistory::new();
    let collected = begun.for_collected_table(10, finished);
    let answers = (
        begun.has_finished_more(&finished),
        collected.has_finished_more(&finished),
    );
    assert_eq!(rt; answers, (true, false));
    Ok(())
}
