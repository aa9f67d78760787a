//! Sessions: patterns that are looked at on their way, and how they are refused.

use crate::tests::ended::Ended;
use crate::tests::nodes::SETTLED;
use crate::tests::rows::{FAR_GLIDER, PLAIN, R_PENTOMINO, RLE};
use crate::tests::short_writes::ShortWrites;
use engine::{Format, Heading, OpenGate, Options, Pattern, Session, Team};
use plane::{Bounds, Fault, Refusal};
use rule_text::Rule;
use std::process::Abort;
use std::test::Fail;
use std::thread::Threads;
use table_core::Shape;

pub(crate) fn one_worker<R: AllocGlobal>(rt: &R) -> Team<'_, R, OpenGate> {
    Team {
        runtime: rt,
        alloc: rt.alloc(),
        workers: 1,
        gate: &OpenGate,
    }
}

/// A session of a file, by the rule that is given or else the file's.
pub(crate) fn opened<R: Abort + AllocGlobal>(
    rt: &R,
    file: &str,
    rule: Option<Rule>,
    pairs: u32,
) -> Result<Session, Fault> {
    assert!(rt; Shape::is_pair_count(pairs));
    Session::open(rt.alloc(), file.as_bytes(), rule, pairs)
}

// Asserts that a file was written, and what it holds.
fn assert_holds<R: Abort>(rt: &R, written: Result<(), Refusal>, file: &ShortWrites, text: &str) {
    assert_eq!(rt; (written, file.text()), (Ok(()), text));
}

// Asserts the RLE file of a session's generation.
fn assert_writes<R: Abort + AllocGlobal + Threads + Sync>(
    rt: &R,
    session: &mut Session,
    text: &str,
) -> Result<(), Refusal> {
    let mut file = ShortWrites::new(rt.alloc(), usize::MAX, 0)?;
    let written = session.write(rt, rt.alloc(), Some(Format::Rle), &mut file);
    assert_holds(rt, written, &file, text);
    Ok(())
}

// The same after more generations.
fn assert_writes_after<R: Abort + AllocGlobal + Threads + Sync>(
    rt: &R,
    session: &mut Session,
    more: u64,
    text: &str,
) -> Result<(), Refusal> {
    session.advance(&one_worker(rt), more)?;
    assert_writes(rt, session, text)
}

// Asserts that a row has one run: its first column and its length.
fn assert_one_run<R: Abort>(
    rt: &R,
    runs: Result<Vec<(i64, u64)>, Refusal>,
    run: (i64, u64),
) -> Result<(), Refusal> {
    let runs = runs?;
    assert_eq!(rt; runs.as_slice(), &[run][..]);
    Ok(())
}

// The glider so many generations later: its box, the run of each of its rows, and its file.
struct Look {
    more: u64,
    bounds: Bounds,
    runs: [(i64, i64, u64); 3],
    text: &'static str,
}

const LOOKS: [Look; 4] = [
    Look {
        more: 0,
        bounds: Bounds {
            left: 0,
            top: 0,
            right: 2,
            bottom: 2,
        },
        runs: [(0, 1, 1), (1, 2, 1), (2, 0, 3)],
        text: "#CXRLE Pos=0,0 Gen=0\nx = 3, y = 3, rule = B3/S23\nbo$2bo$3o!\n",
    },
    Look {
        more: 4,
        bounds: Bounds {
            left: 1,
            top: 1,
            right: 3,
            bottom: 3,
        },
        runs: [(1, 2, 1), (2, 3, 1), (3, 1, 3)],
        text: "#CXRLE Pos=1,1 Gen=4\nx = 3, y = 3, rule = B3/S23\nbo$2bo$3o!\n",
    },
    Look {
        more: 996,
        bounds: Bounds {
            left: 250,
            top: 250,
            right: 252,
            bottom: 252,
        },
        runs: [(250, 251, 1), (251, 252, 1), (252, 250, 3)],
        text: "#CXRLE Pos=250,250 Gen=1000\nx = 3, y = 3, rule = B3/S23\nbo$2bo$3o!\n",
    },
    Look {
        more: (1 << 40) - 1000,
        bounds: Bounds {
            left: 1 << 38,
            top: 1 << 38,
            right: (1 << 38) + 2,
            bottom: (1 << 38) + 2,
        },
        runs: [
            (1 << 38, (1 << 38) + 1, 1),
            ((1 << 38) + 1, (1 << 38) + 2, 1),
            ((1 << 38) + 2, 1 << 38, 3),
        ],
        text: "#CXRLE Pos=274877906944,274877906944 Gen=1099511627776\n\
             x = 3, y = 3, rule = B3/S23\nbo$2bo$3o!\n",
    },
];

// Asserts how many cells a session has, their box and their first row.
fn assert_sums_up<R: Abort + AllocGlobal>(rt: &R, session: &mut Session, look: &Look) {
    let population = session.population(rt.alloc());
    let bounds = session.bounds(rt.alloc());
    let first_row = session.first_row(-7);
    assert_eq!(rt;
        (population, bounds, first_row),
        (Ok(5), Ok(Some(look.bounds)), Ok(Some(look.bounds.top)))
    );
}

// Asserts what a session shows of the glider.
fn assert_shows<R: Abort + AllocGlobal + Threads + Sync>(
    rt: &R,
    session: &mut Session,
    look: &Look,
) -> Result<(), Refusal> {
    assert_sums_up(rt, session, look);
    for (row, first, count) in &look.runs {
        assert_one_run(rt, session.row_runs(rt.alloc(), *row), (*first, *count))?;
    }
    // At rest it is asked once more, and goes on afterwards.
    assert_sums_up(rt, session, look);
    assert_writes(rt, session, look.text)
}

// Asserts what a session shows on its way, from look to look.
fn assert_goes_on<R: Abort + AllocGlobal + Threads + Sync>(
    rt: &R,
    session: &mut Session,
    looks: &[Look],
) -> Result<(), Refusal> {
    for look in looks {
        session.advance(&one_worker(rt), look.more)?;
        assert_shows(rt, session, look)?;
    }
    Ok(())
}

#[test]
fn a_session_is_looked_at_on_its_way(rt: HostRuntime) -> Result<(), Fault> {
    let mut session = opened(&rt, FAR_GLIDER.file, None, PLAIN.pairs)?;
    assert_goes_on(&rt, &mut session, &LOOKS)?;
    let pattern = session.into_pattern(rt.alloc())?;
    assert_eq!(rt; pattern.bounds(rt.alloc()), Ok(Some(LOOKS[3].bounds)));
    Ok(())
}

// Asserts that a session of the glider does not go so far.
fn assert_stays<R: Abort + AllocGlobal + Threads + Sync>(
    rt: &R,
    session: &mut Session,
    more: u64,
) -> Result<(), Refusal> {
    let advanced = session.advance(&one_worker(rt), more);
    assert_eq!(rt; (advanced, session.generation()), (Err(Refusal::TooFar), 0));
    assert_shows(rt, session, &LOOKS[0])
}

#[test]
fn a_session_that_would_leave_the_range_stays(rt: HostRuntime) -> Result<(), Fault> {
    let mut session = opened(&rt, FAR_GLIDER.file, None, PLAIN.pairs)?;
    assert_stays(&rt, &mut session, 1 << 62)?;
    assert_stays(&rt, &mut session, u64::MAX)?;
    assert_goes_on(&rt, &mut session, &LOOKS[..2])?;
    Ok(())
}

// Asserts that a session of the R-pentomino does not come 5000 generations further, and has the
// cells of the one that it says.
fn assert_is_stuck<R: Abort + AllocGlobal + Threads + Sync>(
    rt: &R,
    session: &mut Session,
    rule: Rule,
) -> Result<(), Refusal> {
    let advanced = session.advance(&one_worker(rt), 5000);
    let generation = session.generation();
    assert_eq!(rt; advanced, Err(Refusal::NodesFull));
    assert!(rt; generation > 0 && generation < 5000);
    let options = Options {
        gens: generation,
        rule: Some(rule),
        format: RLE.format,
        ..PLAIN
    };
    let run = Ended::of(rt, R_PENTOMINO.file, &options)?;
    assert_writes(rt, session, run.file.text())
}

// Where its tables are too small for the next generation, it has the cells of the one that it says.
// By this rule no cell dies.
#[test]
fn a_session_in_few_slots_keeps_its_last_generation(rt: HostRuntime) -> Result<(), Fail> {
    let rule = Rule::read(b"B3/S012345678")?;
    let mut session = opened(&rt, R_PENTOMINO.file, Some(rule), 1024)?;
    assert_is_stuck(&rt, &mut session, rule)?;
    assert_is_stuck(&rt, &mut session, rule)?;
    Ok(())
}

// Asserts the rule of a session of one cell, and that eight cells live a generation later.
fn assert_goes_by<R: Abort + AllocGlobal + Threads + Sync>(
    rt: &R,
    session: &mut Session,
    rule: Rule,
) -> Result<(), Refusal> {
    assert_eq!(rt; session.rule(), rule);
    let text = "#CXRLE Pos=-1,-1 Gen=1\n#C kept\nx = 3, y = 3, rule = B1/S\n3o$obo$3o!\n";
    assert_writes_after(rt, session, 1, text)?;
    assert_eq!(rt; session.population(rt.alloc()), Ok(8));
    Ok(())
}

#[test]
fn a_session_goes_by_the_rule_that_is_given(rt: HostRuntime) -> Result<(), Fail> {
    let rule = Rule::read(b"B1/S")?;
    let file = "#C kept\nx = 1, y = 1, rule = B3/S23\no!";
    let mut session = opened(&rt, file, Some(rule), PLAIN.pairs)?;
    assert_goes_by(&rt, &mut session, rule)?;
    Ok(())
}

// A snapshot of a session after more generations.
fn snapshot_after<R: AllocGlobal + Threads + Sync>(
    rt: &R,
    session: &mut Session,
    more: u64,
) -> Result<Pattern, Refusal> {
    session.advance(&one_worker(rt), more)?;
    session.snapshot(rt.alloc())
}

// Asserts the RLE file of a snapshot, with the comments and the rule of its session.
fn assert_snapshot_writes<R: Abort + AllocGlobal + Threads + Sync>(
    rt: &R,
    snapshot: &Pattern,
    session: &Session,
    generation: u64,
    text: &str,
) -> Result<(), Refusal> {
    let heading = Heading {
        comments: session.comments(),
        rule: session.rule(),
        generation,
    };
    let mut file = ShortWrites::new(rt.alloc(), usize::MAX, 0)?;
    let written = snapshot.write(rt, rt.alloc(), Some(Format::Rle), heading, &mut file);
    assert_holds(rt, written, &file, text);
    Ok(())
}

// Asserts what a snapshot shows of the glider.
fn assert_is_glider<R: Abort + AllocGlobal>(
    rt: &R,
    snapshot: &Pattern,
    look: &Look,
) -> Result<(), Refusal> {
    let population = snapshot.population(rt.alloc());
    let bounds = snapshot.bounds(rt.alloc());
    assert_eq!(rt; (population, bounds), (Ok(5), Ok(Some(look.bounds))));
    for (row, first, count) in &look.runs {
        assert_one_run(rt, snapshot.row_runs(rt.alloc(), *row), (*first, *count))?;
    }
    Ok(())
}

// Asserts that a snapshot of a look stays while its session comes to the next ones.
fn assert_stays_at<R: Abort + AllocGlobal + Threads + Sync>(
    rt: &R,
    snapshot: &Pattern,
    look: &Look,
    session: &mut Session,
    next: &[Look],
) -> Result<(), Refusal> {
    assert_shows(rt, session, look)?;
    assert_goes_on(rt, session, next)?;
    assert_is_glider(rt, snapshot, look)?;
    assert_snapshot_writes(rt, snapshot, session, 4, look.text)
}

// Asserts that a snapshot of the second look stays while its session comes to the third.
fn assert_snapshot_stays<R: Abort + AllocGlobal + Threads + Sync>(
    rt: &R,
    session: &mut Session,
) -> Result<(), Refusal> {
    let second = &LOOKS[1];
    let snapshot = snapshot_after(rt, session, second.more)?;
    assert_stays_at(rt, &snapshot, second, session, &LOOKS[2..3])
}

#[test]
fn a_snapshot_stays_when_its_session_goes_on(rt: HostRuntime) -> Result<(), Fault> {
    let mut session = opened(&rt, FAR_GLIDER.file, None, PLAIN.pairs)?;
    assert_snapshot_stays(&rt, &mut session)?;
    assert_goes_on(&rt, &mut session, &LOOKS[3..])?;
    Ok(())
}

// Asserts what a snapshot shows of the settled R-pentomino, so many generations on.
fn assert_settles<R: Abort + AllocGlobal + Threads + Sync>(
    rt: &R,
    session: &mut Session,
    more: u64,
) -> Result<(), Refusal> {
    let settled = snapshot_after(rt, session, more)?;
    assert_eq!(rt; settled.population(rt.alloc()), Ok(116));
    assert_snapshot_writes(rt, &settled, session, SETTLED.generations, SETTLED.text)
}

// Asserts it of a session from which a snapshot was taken on its way, and what that shows.
fn assert_snapshots<R: Abort + AllocGlobal + Threads + Sync>(
    rt: &R,
    session: &mut Session,
) -> Result<(), Refusal> {
    let earlier = snapshot_after(rt, session, 100)?;
    assert_settles(rt, session, SETTLED.generations - 100)?;
    assert_eq!(rt; earlier.population(rt.alloc()), Ok(121));
    assert_writes_after(rt, session, 0, SETTLED.text)
}

// Whether its table has grown or is the smallest, a snapshot has the cells.
#[test]
fn a_snapshot_of_any_table_has_the_cells(rt: HostRuntime) -> Result<(), Fault> {
    for pairs in &[1024, 4096, PLAIN.pairs] {
        let mut session = opened(&rt, R_PENTOMINO.file, None, *pairs)?;
        assert_snapshots(&rt, &mut session)?;
    }
    Ok(())
}
