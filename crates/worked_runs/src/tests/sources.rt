//! Runs of what readers of std give, written to writers of std.

use crate::tests::rows::{BLINKER, COMMENTED_GLIDER, R_PENTOMINO, Row, SHARED_LEAF};
use engine::run_from;
use plane::{Counted, FailAt, Refusal};
use std::alloc::AllocError;
use std::io::{self, Read};
use std::process::Abort;
use std::thread::Threads;
use table_core::Shape;

const ROWS: &[Row] = &[BLINKER, R_PENTOMINO, COMMENTED_GLIDER, SHARED_LEAF];

// How many bytes a reader gives at a time.
const SIPS: [usize; 3] = [1, 7, usize::MAX];

// A reader that gives at most so many bytes at a time.
#[derive(Drop)]
struct ShortReads<'a> {
    bytes: &'a [u8],
    most: usize,
}

impl<'a> ShortReads<'a> {
    // In how many reads it comes to its end.
    fn reads(&self) -> u64 {
        let full = self.bytes.len().div_ceil(self.most.max(1));
        (full as u64).saturating_add(1)
    }
}

impl<'a> Read for ShortReads<'a> {
    fn read(&mut self, buffer: &mut [u8]) -> io::Result<usize> {
        let most = buffer.len().min(self.most);
        self.bytes.read(&mut buffer[..most])
    }
}

// Which call of each device fails, or 0 for none.
#[derive(Clone, Copy, Default)]
struct FailingCalls {
    read: u64,
    report: u64,
    file: u64,
}

// How a run of what a source gives ended, and what its report and its file took.
#[derive(Drop)]
struct Ended {
    fault: Option<Refusal>,
    report: Vec<u8>,
    file: Vec<u8>,
}

impl Ended {
    fn of<R: Abort + AllocGlobal + Threads + Sync>(
        rt: &R,
        row: &Row,
        most: usize,
        calls: FailingCalls,
    ) -> Result<Ended, AllocError> {
        let options = row.options();
        assert!(rt; Shape::is_pair_count(options.pairs));
        assert!(rt; options.workers >= 1 && options.workers <= 64);
        let bytes = row.file.as_bytes();
        let mut source = FailAt::new(Counted::new(ShortReads { bytes, most }), calls.read);
        let mut report = Vec::new(rt.alloc());
        let mut file = Vec::new(rt.alloc());
        let ended = run_from(
            rt,
            rt.alloc(),
            &mut source,
            &options,
            &mut FailAt::new(Counted::new(&mut report), calls.report),
            &mut FailAt::new(Counted::new(&mut file), calls.file),
        );
        Ok(Ended {
            fault: ended.err().map(|fault| fault.refusal),
            report,
            file,
        })
    }

    fn is(&self, fault: Option<Refusal>, report: &str, file: &str) -> bool {
        self.fault == fault
            && self.report.as_slice() == report.as_bytes()
            && self.file.as_slice() == file.as_bytes()
    }
}

// Whether a run of a row, in which these calls fail, ends so.
fn ends<R: Abort + AllocGlobal + Threads + Sync>(
    rt: &R,
    row: &Row,
    most: usize,
    calls: FailingCalls,
    wanted: (Option<Refusal>, &str, &str),
) -> Result<bool, AllocError> {
    let ended = Ended::of(rt, row, most, calls)?;
    Ok(ended.is(wanted.0, wanted.1, wanted.2))
}

// Whether a run ends as it should whose reader, which comes to its end in so many reads, fails at
// this one, or at none.
fn is_right<R: Abort + AllocGlobal + Threads + Sync>(
    rt: &R,
    row: &Row,
    most: usize,
    reads: u64,
    read: u64,
) -> Result<bool, AllocError> {
    let calls = FailingCalls {
        read,
        ..FailingCalls::default()
    };
    let wanted = if read >= 1 && read <= reads {
        (Some(Refusal::ReadFailed), "", "")
    } else {
        (None, row.report, row.text)
    };
    ends(rt, row, most, calls, wanted)
}

// The first read at which, if it fails, a run does not end as it should; 0, and one behind the
// last, fail at none.
fn first_wrong_read<R: Abort + AllocGlobal + Threads + Sync>(
    rt: &R,
    row: &Row,
    most: usize,
) -> Result<Option<u64>, AllocError> {
    let bytes = row.file.as_bytes();
    let reads = ShortReads { bytes, most }.reads();
    for read in 0..=reads.saturating_add(1) {
        if !is_right(rt, row, most, reads, read)? {
            return Ok(Some(read));
        }
    }
    Ok(None)
}

// Runs each row from a reader that gives so many bytes at a time.
fn assert_runs<R: Abort + AllocGlobal + Threads + Sync>(
    rt: &R,
    most: usize,
) -> Result<(), AllocError> {
    for row in ROWS {
        let wrong = first_wrong_read(rt, row, most)?;
        assert_eq!(rt; (row.file, wrong), (row.file, None));
    }
    Ok(())
}

#[test]
fn runs_all_that_a_reader_gives_or_says_that_it_failed(rt: HostRuntime) -> Result<(), AllocError> {
    for most in SIPS {
        assert_runs(&rt, most)?;
    }
    Ok(())
}

#[test]
fn writers_that_fail_at_their_first_call_take_nothing(rt: HostRuntime) -> Result<(), AllocError> {
    for row in ROWS {
        let report = FailingCalls {
            report: 1,
            ..FailingCalls::default()
        };
        let file = FailingCalls {
            file: 1,
            ..FailingCalls::default()
        };
        let failed = Some(Refusal::WriteFailed);
        assert!(rt; ends(&rt, row, usize::MAX, report, (failed, "", ""))?);
        assert!(rt; ends(&rt, row, usize::MAX, file, (failed, row.report, ""))?);
    }
    Ok(())
}
