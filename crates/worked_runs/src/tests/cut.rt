//! Runs that are cut: what the file of a first part is run on to.

use crate::tests::ended::Ended;
use crate::tests::rows::{COMMENTED_GLIDER, PLAIN, R_PENTOMINO};
use engine::{Format, Options};
use std::alloc::AllocError;
use std::process::Abort;
use std::thread::Threads;

fn asked(gens: u64, format: Format) -> Options {
    Options {
        gens,
        format: Some(format),
        ..PLAIN
    }
}

// Asserts that a run of the rest of a file ended well, as the whole run did.
fn assert_alike<R: Abort>(rt: &R, file: &str, rest: &Ended, whole: &Ended) {
    assert!(rt; whole.outcome.is_ok());
    assert_eq!(rt;
        (file, rest.outcome, rest.file.text()),
        (file, whole.outcome, whole.file.text())
    );
}

// Runs what a first part wrote for 700 generations more. That is to end as the whole run did.
fn assert_ends_as<R: Abort + AllocGlobal + Threads + Sync>(
    rt: &R,
    first: &str,
    last: Format,
    whole: &Ended,
) -> Result<(), AllocError> {
    let rest = Ended::of(rt, first, &asked(700, last))?;
    assert_alike(rt, first, &rest, whole);
    Ok(())
}

// Runs a file for 1000 generations, and what a first part of 300 wrote for the others.
fn assert_ends_as_whole<R: Abort + AllocGlobal + Threads + Sync>(
    rt: &R,
    file: &str,
    first: &str,
    last: Format,
) -> Result<(), AllocError> {
    let whole = Ended::of(rt, file, &asked(1000, last))?;
    assert_ends_as(rt, first, last, &whole)
}

// Runs a file for 300 generations, and what was written, in the first format, for 700 more. That is
// to end as 1000 generations do.
fn assert_goes_on<R: Abort + AllocGlobal + Threads + Sync>(
    rt: &R,
    file: &str,
    through: Format,
    last: Format,
) -> Result<(), AllocError> {
    let first = Ended::of(rt, file, &asked(300, through))?;
    assert_ends_as_whole(rt, file, first.file.text(), last)
}

// The format of a first part, and that of the last generation.
const FORMATS: [(Format, Format); 4] = [
    (Format::Rle, Format::Rle),
    (Format::Rle, Format::Macrocell),
    (Format::Macrocell, Format::Rle),
    (Format::Macrocell, Format::Macrocell),
];

#[test]
fn goes_on_from_the_file_of_a_first_part(rt: HostRuntime) -> Result<(), AllocError> {
    for (through, last) in &FORMATS {
        assert_goes_on(&rt, R_PENTOMINO.file, *through, *last)?;
        assert_goes_on(&rt, COMMENTED_GLIDER.file, *through, *last)?;
    }
    Ok(())
}
