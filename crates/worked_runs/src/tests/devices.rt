//! Devices that fail at one of their calls, or take few bytes at a time.

use crate::tests::ended::Ended;
use crate::tests::rows::{
    BLINKER, COMMENTED_GLIDER, NEAR_REPLICATOR, R_PENTOMINO, Row, SHARED_LEAF, SHARED_LEAF_AGAIN,
};
use engine::load;
use plane::{FailAt, Fault, Memory, Refusal};
use std::alloc::{AllocError, Global};
use std::process::Abort;
use std::test::Fail;
use std::thread::Threads;

const ROWS: &[Row] = &[
    BLINKER,
    R_PENTOMINO,
    COMMENTED_GLIDER,
    SHARED_LEAF,
    SHARED_LEAF_AGAIN,
    Row {
        workers: 2,
        ..NEAR_REPLICATOR
    },
];

// How many bytes a sink takes at a time.
const SIPS: [usize; 3] = [1, 7, usize::MAX];

const WRITE_FAILED: Fault = Fault {
    refusal: Refusal::WriteFailed,
    place: None,
};

// So many bytes, in which no part of 8192 bytes is that at the front.
fn made_bytes(alloc: Global, count: usize) -> Result<Vec<u8>, AllocError> {
    let mut bytes = Vec::with_capacity(alloc, count)?;
    for index in 0..count {
        bytes.push((index % 251) as u8)?;
    }
    Ok(bytes)
}

// Whether a source of these bytes that fails at this call is loaded as it should be, where so many
// reads load them.
fn is_loaded_or_fails(alloc: Global, bytes: &[u8], reads: u64, call: u64) -> Result<bool, Fail> {
    let mut source = FailAt::new(Memory::holding(alloc, bytes)?, call);
    let is_reached = call >= 1 && call <= reads;
    let is_right = match load(alloc, &mut source) {
        Ok(loaded) => !is_reached && loaded.as_slice() == bytes,
        Err(Refusal::ReadFailed) => {
            // The call that failed took no byte: what is still to come ends the bytes.
            let rest = load(alloc, &mut source)?;
            let is_rest = bytes.ends_with(rest.as_slice());
            is_reached && is_rest && (call > 1 || rest.len() == bytes.len())
        }
        Err(refusal) => return Err(Fail::from(refusal)),
    };
    Ok(is_right && plane::Source::failures(&source) == u64::from(is_reached))
}

// The first call at which, if it fails, the bytes are not loaded as they should be.
fn first_wrong_read(alloc: Global, bytes: &[u8], reads: u64) -> Result<Option<u64>, Fail> {
    for call in 0..=reads.saturating_add(2) {
        if !is_loaded_or_fails(alloc, bytes, reads, call)? {
            return Ok(Some(call));
        }
    }
    Ok(None)
}

// Fails each read of a source in turn, and none: so many reads load the bytes, and the last one
// finds their end.
fn assert_reads_fail<R: Abort + AllocGlobal + Threads + Sync>(
    rt: &R,
    bytes: &[u8],
    reads: u64,
) -> Result<(), Fail> {
    let wrong = first_wrong_read(rt.alloc(), bytes, reads)?;
    assert_eq!(rt; (bytes.len(), wrong), (bytes.len(), None));
    Ok(())
}

#[test]
fn loads_all_or_says_that_reading_failed(rt: HostRuntime) -> Result<(), Fail> {
    for row in ROWS {
        assert_reads_fail(&rt, row.file.as_bytes(), 2)?;
    }
    // How many bytes there are, and in how many reads of at most 8192 they come.
    for (length, reads) in [(0, 1), (8192, 2), (8193, 3), (10000, 3), (24576, 4)] {
        let bytes = made_bytes(rt.alloc(), length)?;
        assert_reads_fail(&rt, bytes.as_slice(), reads)?;
    }
    Ok(())
}

// How many calls of the report and of the file have failed.
fn failures(end: &Ended) -> (u64, u64) {
    (end.report.failures, end.file.failures)
}

// Whether a run ended well with the whole texts of its row, and no call failed.
fn is_whole(row: &Row, end: &Ended) -> bool {
    let (fault, report, file) = end.told();
    let is_told = fault.is_none() && report == row.report && file == row.text;
    is_told && failures(end) == (0, 0)
}

// The sink of which a call fails.
#[derive(Clone, Copy)]
enum Failing {
    Report,
    File,
}

impl Failing {
    // At which call the report fails, and at which one the file.
    fn at(self, call: u64) -> (u64, u64) {
        match self {
            Failing::Report => (call, 0),
            Failing::File => (0, call),
        }
    }

    // How many calls a run made of the sink.
    fn calls(self, end: &Ended) -> u64 {
        match self {
            Failing::Report => end.report.calls,
            Failing::File => end.file.calls,
        }
    }

    // The whole text that the sink takes.
    fn text(self, row: &Row) -> &'static str {
        match self {
            Failing::Report => row.report,
            Failing::File => row.text,
        }
    }
}

// Whether a text is a beginning of the whole, and not all of it.
fn is_cut_from(text: &str, whole: &str) -> bool {
    whole.starts_with(text) && text.len() < whole.len()
}

// Whether a run said that a sink failed: the report is cut off and nothing is in the file, or the
// report stands whole and the file is cut off.
fn is_cut(row: &Row, end: &Ended, failing: Failing) -> bool {
    let (fault, report, file) = end.told();
    let is_cut = match failing {
        Failing::Report => is_cut_from(report, row.report) && file.is_empty(),
        Failing::File => report == row.report && is_cut_from(file, row.text),
    };
    is_cut && fault == Some(WRITE_FAILED) && failures(end) == failing.at(1)
}

// Runs a row with sinks that take so many bytes at a time, of which one fails at this call.
fn ended<R: Abort + AllocGlobal + Threads + Sync>(
    rt: &R,
    row: &Row,
    most: usize,
    failing: Failing,
    call: u64,
) -> Result<Ended, AllocError> {
    let file = row.file.as_bytes();
    Ended::with_devices(rt, file, &row.options(), most, failing.at(call))
}

// How many calls a run makes of a sink: at least one, and one for each byte where it takes one at
// a time.
fn calls_of<R: Abort + AllocGlobal + Threads + Sync>(
    rt: &R,
    row: &Row,
    most: usize,
    failing: Failing,
) -> Result<u64, AllocError> {
    let whole = ended(rt, row, most, failing, 0)?;
    let calls = failing.calls(&whole);
    let bytes = failing.text(row).len() as u64;
    assert!(rt; calls >= 1 && (most > 1 || calls == bytes));
    Ok(calls)
}

// The first call at which, if it fails, a run with so many calls of the sink does not end as it
// should; call 0, and one behind the last, fail at none.
fn first_wrong_call<R: Abort + AllocGlobal + Threads + Sync>(
    rt: &R,
    row: &Row,
    most: usize,
    failing: Failing,
    calls: u64,
) -> Result<Option<u64>, AllocError> {
    for call in 0..=calls.saturating_add(1) {
        let end = ended(rt, row, most, failing, call)?;
        let is_reached = call >= 1 && call <= calls;
        let is_right = if is_reached {
            is_cut(row, &end, failing)
        } else {
            is_whole(row, &end)
        };
        if !is_right {
            return Ok(Some(call));
        }
    }
    Ok(None)
}

// Fails each call of a sink in turn, and none, for each row.
fn assert_fails<R: Abort + AllocGlobal + Threads + Sync>(
    rt: &R,
    most: usize,
    failing: Failing,
) -> Result<(), AllocError> {
    for row in ROWS {
        let calls = calls_of(rt, row, most, failing)?;
        let wrong = first_wrong_call(rt, row, most, failing, calls)?;
        assert_eq!(rt; (row.file, wrong), (row.file, None));
    }
    Ok(())
}

#[test]
fn says_that_a_report_failed(rt: HostRuntime) -> Result<(), AllocError> {
    for most in SIPS {
        assert_fails(&rt, most, Failing::Report)?;
    }
    Ok(())
}

#[test]
fn says_that_a_file_failed(rt: HostRuntime) -> Result<(), AllocError> {
    for most in SIPS {
        assert_fails(&rt, most, Failing::File)?;
    }
    Ok(())
}
