//! A file, what is asked for, and what a run of it writes.

use crate::tests::ended::Ended;
use engine::{Format, Options};
use plane::{Fault, Refusal};
use std::alloc::AllocError;
use std::process::Abort;
use std::thread::Threads;

/// What is asked for where no word asks for anything.
pub(crate) const PLAIN: Options = Options {
    gens: 0,
    step: 0,
    rule: None,
    window: None,
    format: None,
    pairs: 4194304,
    workers: 1,
    quiet: false,
};

/// A file, what is asked for, whether it is refused and at which place, and what is written.
#[derive(Clone, Copy)]
pub(crate) struct Row {
    pub(crate) file: &'static str,
    pub(crate) generations: u64,
    pub(crate) step: u64,
    pub(crate) format: Option<Format>,
    pub(crate) pairs: u32,
    pub(crate) workers: usize,
    pub(crate) refusal: Option<Refusal>,
    pub(crate) place: Option<u64>,
    pub(crate) report: &'static str,
    pub(crate) text: &'static str,
}

impl Row {
    pub(crate) fn options(&self) -> Options {
        Options {
            gens: self.generations,
            step: self.step,
            format: self.format,
            pairs: self.pairs,
            workers: self.workers,
            ..PLAIN
        }
    }

    /// The refusal with its place, if the run is refused.
    pub(crate) fn fault(&self) -> Option<Fault> {
        let place = self.place;
        self.refusal.map(|refusal| Fault { refusal, place })
    }
}

/// A run of no generations that asks for RLE.
pub(crate) const RLE: Row = Row {
    file: "",
    generations: 0,
    step: 0,
    format: Some(Format::Rle),
    pairs: PLAIN.pairs,
    workers: PLAIN.workers,
    refusal: None,
    place: None,
    report: "",
    text: "",
};

/// A run of no generations that asks for a macrocell file.
pub(crate) const MACROCELL: Row = Row {
    format: Some(Format::Macrocell),
    ..RLE
};

/// A short run.
pub(crate) const BLINKER: Row = Row {
    file: sample_patterns::BLINKER,
    generations: 1,
    report: "0: 3\n1: 3\n",
    text: "#CXRLE Pos=1,-1 Gen=1\nx = 1, y = 3, rule = B3/S23\no$o$o!\n",
    ..RLE
};

/// A run of several generations.
pub(crate) const R_PENTOMINO: Row = Row {
    file: sample_patterns::R_PENTOMINO,
    generations: 8,
    report: "0: 5\n8: 18\n",
    text: "#CXRLE Pos=-2,-2 Gen=8\nx = 6, y = 6, rule = B3/S23\n\
     2b3o$b4o$2o2b2o$bob2o$2b3o$3bo!\n",
    ..RLE
};

/// A run with comments to keep.
pub(crate) const COMMENTED_GLIDER: Row = Row {
    file: "#N Glider\n#C a kept comment\n#r 23/3\nx = 3, y = 3\nbob$2bo$3o!",
    generations: 4,
    report: "0: 5\n4: 5\n",
    text: "#CXRLE Pos=1,1 Gen=4\n#N Glider\n#C a kept comment\n\
     x = 3, y = 3, rule = B3/S23\nbo$2bo$3o!\n",
    ..RLE
};

/// The same, written as a macrocell file.
pub(crate) const COMMENTED_GLIDER_AS_MACROCELL: Row = Row {
    text: "[M2] (lifebatch 1)\n#R B3/S23\n#G 4\n#N Glider\n#C a kept comment\n\
     $..*$...*$.***$\n4 0 0 0 1\n",
    format: Some(Format::Macrocell),
    ..COMMENTED_GLIDER
};

/// A macrocell file whose one leaf stands in each quarter.
pub(crate) const SHARED_LEAF: Row = Row {
    file: "[M2]\n*$\n4 1 1 1 1\n",
    report: "0: 4\n",
    text: "#CXRLE Pos=-8,-8 Gen=0\nx = 9, y = 9, rule = B3/S23\no7bo8$o7bo!\n",
    ..RLE
};

/// The same, written as a macrocell file.
pub(crate) const SHARED_LEAF_AGAIN: Row = Row {
    text: "[M2] (lifebatch 1)\n#R B3/S23\n#G 0\n*$\n4 1 1 1 1\n",
    format: Some(Format::Macrocell),
    ..SHARED_LEAF
};

/// A run that no engine comes through cell by cell.
pub(crate) const FAR_GLIDER: Row = Row {
    file: "x = 3, y = 3, rule = B3/S23\nbob$2bo$3o!",
    generations: 1 << 40,
    report: "0: 5\n1099511627776: 5\n",
    text: "#CXRLE Pos=274877906944,274877906944 Gen=1099511627776\n\
     x = 3, y = 3, rule = B3/S23\nbo$2bo$3o!\n",
    ..RLE
};

/// A replicator: three of its 2097153 rows have cells.
pub(crate) const FAR_REPLICATOR: Row = Row {
    file: "x = 1, y = 1, rule = B1357/S1357\no!",
    generations: 1 << 20,
    report: "0: 1\n1048576: 8\n",
    text: "#CXRLE Pos=-1048576,-1048576 Gen=1048576\n\
     x = 2097153, y = 2097153, rule = B1357/S1357\n\
     o1048575bo1048575bo1048576$o2097151bo1048576$o1048575bo1048575bo!\n",
    ..RLE
};

/// The same, for fewer generations.
pub(crate) const NEAR_REPLICATOR: Row = Row {
    generations: 1 << 8,
    report: "0: 1\n256: 8\n",
    text: "#CXRLE Pos=-256,-256 Gen=256\nx = 513, y = 513, rule = B1357/S1357\n\
     o255bo255bo256$o511bo256$o255bo255bo!\n",
    ..FAR_REPLICATOR
};

/// Compares how a run of a file ended, the report and what was written with what they are to be.
pub(crate) fn assert_told<R: Abort>(
    rt: &R,
    file: &str,
    end: &Ended,
    wanted: (Option<Fault>, &str, &str),
) {
    assert_eq!(rt; (file, end.told()), (file, wanted));
}

// Whether a text is the beginning of a report, up to the end of a line.
fn is_between_lines(said: &str, report: &str) -> bool {
    report.starts_with(said) && (said.is_empty() || said.ends_with("\n"))
}

/// Compares how a run of a row ended: as the row says, or refused by this refusal between two lines
/// of the report, with nothing in the file. It answers whether it was refused so.
pub(crate) fn assert_whole_or_refused<R: Abort>(
    rt: &R,
    row: &Row,
    end: &Ended,
    refusal: Refusal,
) -> bool {
    if end.outcome.err() == row.fault() {
        assert_told(rt, row.file, end, (row.fault(), row.report, row.text));
        return false;
    }
    let said = end.report.text();
    let fault = Fault {
        refusal,
        place: None,
    };
    assert_told(rt, row.file, end, (Some(fault), said, ""));
    assert!(rt; is_between_lines(said, row.report));
    true
}

/// Runs a file, and compares how the run ended, the report and what was written with what they are
/// to be.
pub(crate) fn assert_ends<R: Abort + AllocGlobal + Threads + Sync>(
    rt: &R,
    file: &str,
    options: &Options,
    wanted: (Option<Fault>, &str, &str),
) -> Result<(), AllocError> {
    let end = Ended::of(rt, file, options)?;
    assert_told(rt, file, &end, wanted);
    Ok(())
}

/// Runs a file as a row asks, with its report and without, and compares what is written with what
/// the row says.
pub(crate) fn assert_row<R: Abort + AllocGlobal + Threads + Sync>(
    rt: &R,
    file: &str,
    row: &Row,
) -> Result<(), AllocError> {
    let options = row.options();
    assert_ends(rt, file, &options, (row.fault(), row.report, row.text))?;
    let quiet = Options {
        quiet: true,
        ..options
    };
    assert_ends(rt, file, &quiet, (row.fault(), "", row.text))
}

/// The same for rows with their own files.
pub(crate) fn assert_rows<R: Abort + AllocGlobal + Threads + Sync>(
    rt: &R,
    rows: &[Row],
) -> Result<(), AllocError> {
    for row in rows {
        assert_row(rt, row.file, row)?;
    }
    Ok(())
}

/// Runs a row in few slots: it ends as the row says, or is refused since no slot is free.
pub(crate) fn assert_ends_or_is_full<R: Abort + AllocGlobal + Threads + Sync>(
    rt: &R,
    row: &Row,
) -> Result<(), AllocError> {
    let end = Ended::of(rt, row.file, &row.options())?;
    let _ = assert_whole_or_refused(rt, row, &end, Refusal::NodesFull);
    Ok(())
}

/// Runs rows with so many workers, and compares what is written with what they say.
pub(crate) fn assert_rows_by<R: Abort + AllocGlobal + Threads + Sync>(
    rt: &R,
    rows: &[Row],
    workers: usize,
) -> Result<(), AllocError> {
    for row in rows {
        assert_rows(rt, &[Row { workers, ..*row }])?;
    }
    Ok(())
}

/// Runs a file that writes no pattern, and compares how the run ended and what it reports.
pub(crate) fn assert_reported<R: Abort + AllocGlobal + Threads + Sync>(
    rt: &R,
    file: &str,
    options: &Options,
    fault: Option<Fault>,
    report: &str,
) -> Result<(), AllocError> {
    let end = Ended::of(rt, file, options)?;
    assert_told(rt, "", &end, (fault, report, ""));
    Ok(())
}

/// The same with one worker and with two.
pub(crate) fn assert_reported_by_each<R: Abort + AllocGlobal + Threads + Sync>(
    rt: &R,
    file: &str,
    options: &Options,
    fault: Option<Fault>,
    report: &str,
) -> Result<(), AllocError> {
    for workers in 1..=2 {
        let options = Options {
            workers,
            ..*options
        };
        assert_reported(rt, file, &options, fault, report)?;
    }
    Ok(())
}
