//! Sets of cells, the range, windows, and devices that fail.

use crate::tests::books::rule_of;
use crate::tests::places::{Place, cell_at, cells_at, next_of};
use crate::tests::rows::{assert_no_row, assert_same};
use plane::{
    Bounds, COORDINATE_LIMIT, Cell, CellSet, Counted, FailAt, Failed, Fault, GENERATION_LIMIT,
    Memory, Refusal, Sink, Source, Window, reach,
};
use std::alloc::{AllocError, Global};
use std::io;
use std::io::{Error, ErrorKind, Read, Write};

// The cells as x and y, in their order.
fn listed(alloc: Global, cells: &CellSet) -> Result<Vec<(i64, i64)>, Refusal> {
    let mut listed = Vec::new(alloc);
    for cell in cells.iter() {
        if listed.push((cell.x, cell.y)).is_err() {
            return Err(Refusal::NoMemory);
        }
    }
    Ok(listed)
}

// The cells of the next generation, by the rule that the text says.
fn next(alloc: Global, text: &str, places: &[Place]) -> Result<Vec<(i64, i64)>, Refusal> {
    let cells = cells_at(alloc, places)?;
    listed(alloc, &next_of(alloc, &cells, &rule_of(text)?)?)
}

// A rule's text, some cells, and the cells of the next generation, in the order of reading.
const NEXT: &[(&str, &[Place], &[(i64, i64)])] = &[
    ("B3/S23", &[], &[]),
    // A blinker, a glider and its neighbour phase.
    (
        "B3/S23",
        &[(0, 0), (1, 0), (2, 0)],
        &[(1, -1), (1, 0), (1, 1)],
    ),
    (
        "B3/S23",
        &[(1, 0), (2, 1), (0, 2), (1, 2), (2, 2)],
        &[(0, 1), (2, 1), (1, 2), (2, 2), (1, 3)],
    ),
    // One cell: `bo$obo$bo!` by the four neighbours, `2o$obo$b2o!` by the six.
    ("B1/SV", &[(0, 0)], &[(0, -1), (-1, 0), (1, 0), (0, 1)]),
    (
        "B1/SH",
        &[(0, 0)],
        &[(-1, -1), (0, -1), (-1, 0), (1, 0), (0, 1), (1, 1)],
    ),
    ("B/S012345678", &[(5, 5), (-5, -5)], &[(-5, -5), (5, 5)]),
];

fn first_wrong_next(alloc: Global, rows: &[(&str, &[Place], &[(i64, i64)])]) -> Option<usize> {
    for (row, (text, before, after)) in rows.iter().enumerate() {
        if next(alloc, text, before).as_deref() != Ok(*after) {
            return Some(row);
        }
    }
    None
}

#[test]
fn next_generations(rt: HostRuntime) {
    assert_no_row(&rt, first_wrong_next(rt.alloc(), NEXT));
}

// Whether (3, 1) and (1, 3) are among the cells, and their box.
fn shown(cells: &CellSet) -> (bool, bool, Option<Bounds>) {
    let has = cells.contains(cell_at((3, 1)));
    let has_mirrored = cells.contains(cell_at((1, 3)));
    (has, has_mirrored, cells.bounds())
}

#[test]
fn sets_of_cells(rt: HostRuntime) -> Result<(), Refusal> {
    let cells = cells_at(rt.alloc(), &[(3, 1), (-2, 4), (3, 1)])?;
    let listed = listed(rt.alloc(), &cells)?;
    assert_same(&rt, listed.as_slice(), &[(3, 1), (-2, 4)]);
    let wanted = Bounds {
        left: -2,
        top: 1,
        right: 3,
        bottom: 4,
    };
    assert_same(&rt, shown(&cells), (true, false, Some(wanted)));
    Ok(())
}

#[test]
fn a_set_of_no_cells(rt: HostRuntime) {
    let none = CellSet::new(rt.alloc());
    assert_same(&rt, (none.is_empty(), none.bounds()), (true, None));
}

const LAST: Bounds = Bounds {
    left: COORDINATE_LIMIT - 1,
    top: 0,
    right: COORDINATE_LIMIT - 1,
    bottom: 0,
};

const FIRST: Bounds = Bounds {
    left: -COORDINATE_LIMIT,
    top: 0,
    right: 0,
    bottom: 0,
};

// A box, the generation that a run begins with, how many it takes, and where it stays.
type Reach = (Option<Bounds>, u64, u64, Result<Option<Bounds>, Refusal>);

const REACHES: &[Reach] = &[
    (Some(LAST), 0, 0, Ok(Some(LAST))),
    (Some(LAST), 0, 1, Err(Refusal::TooFar)),
    (Some(FIRST), 0, 0, Ok(Some(FIRST))),
    (Some(FIRST), 0, 1, Err(Refusal::TooFar)),
    (None, GENERATION_LIMIT, 0, Ok(None)),
    (None, GENERATION_LIMIT, 1, Err(Refusal::TooFar)),
    (None, u64::MAX, u64::MAX, Err(Refusal::TooFar)),
];

fn first_wrong_reach(rows: &[Reach]) -> Option<usize> {
    for (row, (bounds, start, generations, reached)) in rows.iter().enumerate() {
        if reach(*bounds, *start, *generations) != *reached {
            return Some(row);
        }
    }
    None
}

#[test]
fn reaches(rt: HostRuntime) {
    assert_no_row(&rt, first_wrong_reach(REACHES));
}

// A corner, and how many columns and rows.
type Sides = (i64, i64, u32, u32);

// The sides of a window, and whether there is such a window.
const WINDOWS: &[(Sides, bool)] = &[
    ((0, -1, 3, 3), true),
    ((-COORDINATE_LIMIT, COORDINATE_LIMIT, 1, 1024), true),
    ((COORDINATE_LIMIT, -COORDINATE_LIMIT, 1024, 1), true),
    ((0, 0, 0, 5), false),
    ((0, 0, 5, 0), false),
    ((0, 0, 1025, 1), false),
    ((0, 0, 1, 1025), false),
    ((-COORDINATE_LIMIT - 1, 0, 1, 1), false),
    ((COORDINATE_LIMIT + 1, 0, 1, 1), false),
    ((0, -COORDINATE_LIMIT - 1, 1, 1), false),
    ((0, COORDINATE_LIMIT + 1, 1, 1), false),
    ((i64::MIN, i64::MIN, u32::MAX, u32::MAX), false),
    ((i64::MAX, i64::MAX, 1, 1), false),
];

// The sides of the window of these sides.
fn window_sides(sides: Sides) -> Result<Sides, Refusal> {
    let window = Window::new(sides.0, sides.1, sides.2, sides.3)?;
    Ok((window.x(), window.y(), window.width(), window.height()))
}

fn first_wrong_window(rows: &[(Sides, bool)]) -> Option<usize> {
    for (row, (sides, is_window)) in rows.iter().enumerate() {
        let wanted = if *is_window {
            Ok(*sides)
        } else {
            Err(Refusal::WindowTooLarge)
        };
        if window_sides(*sides) != wanted {
            return Some(row);
        }
    }
    None
}

#[test]
fn windows(rt: HostRuntime) {
    assert_no_row(&rt, first_wrong_window(WINDOWS));
}

// What two reads and two writes answer.
type Answers = [Result<usize, Failed>; 2];

fn two_reads<S: Source>(source: &mut S, buffer: &mut [u8; 2]) -> Answers {
    [source.read_some(buffer), source.read_some(buffer)]
}

fn two_writes<S: Sink>(sink: &mut S, first: &[u8], second: &[u8]) -> Answers {
    [sink.write_some(first), sink.write_some(second)]
}

// A memory that has room for so many bytes.
fn memory_of(alloc: Global, room: usize) -> Result<Memory, Refusal> {
    match Memory::with_room(alloc, room) {
        Ok(memory) => Ok(memory),
        Err(_) => Err(Refusal::NoMemory),
    }
}

// What a memory of four bytes answers to two writes, how many failed, and whether it holds the
// first.
fn written_to_four_bytes(alloc: Global) -> Result<(Answers, u64, bool), Refusal> {
    let mut memory = memory_of(alloc, 4)?;
    let answers = two_writes(&mut memory, b"abc", b"de");
    let is_held = memory.bytes() == b"abc".as_slice();
    Ok((answers, Sink::failures(&memory), is_held))
}

#[test]
fn memory_takes_what_it_has_room_for(rt: HostRuntime) {
    let wanted = ([Ok(3), Err(Failed)], 1, true);
    assert_same(&rt, written_to_four_bytes(rt.alloc()), Ok(wanted));
}

// What two reads answer of which the second fails, and what the next one answers and what it
// leaves.
type Reads = (Answers, Result<usize, Failed>, [u8; 2]);

fn read_with_one_failure(alloc: Global) -> Result<Reads, Refusal> {
    let Ok(memory) = Memory::holding(alloc, b"abc") else {
        return Err(Refusal::NoMemory);
    };
    let mut source = FailAt::new(memory, 2);
    let mut buffer = [0; 2];
    let answers = two_reads(&mut source, &mut buffer);
    let last = source.read_some(&mut buffer);
    Ok((answers, last, buffer))
}

#[test]
fn source_that_fails_once(rt: HostRuntime) {
    let wanted = ([Ok(2), Err(Failed)], Ok(1), *b"cb");
    assert_same(&rt, read_with_one_failure(rt.alloc()), Ok(wanted));
}

// What two writes answer of which the first fails, and whether only the second is held.
fn written_with_one_failure(alloc: Global) -> Result<(Answers, bool), Refusal> {
    let mut sink = FailAt::new(memory_of(alloc, 2)?, 1);
    let answers = two_writes(&mut sink, b"a", b"b");
    Ok((answers, sink.inner().bytes() == b"b".as_slice()))
}

#[test]
fn sink_that_fails_once(rt: HostRuntime) {
    let wanted = ([Err(Failed), Ok(1)], true);
    assert_same(&rt, written_with_one_failure(rt.alloc()), Ok(wanted));
}

// A reader and a writer that is interrupted at every other call, and otherwise moves one byte.
#[derive(Drop)]
struct Halting {
    calls: u8,
}

impl Read for Halting {
    fn read(&mut self, buffer: &mut [u8]) -> io::Result<usize> {
        self.calls = self.calls.wrapping_add(1);
        if self.calls % 2 == 1 {
            return Err(Error::from(ErrorKind::Interrupted));
        }
        match buffer.first_mut() {
            Some(first) => {
                *first = b'x';
                Ok(1)
            }
            None => Ok(0),
        }
    }
}

impl Write for Halting {
    fn write(&mut self, bytes: &[u8]) -> io::Result<usize> {
        self.calls = self.calls.wrapping_add(1);
        if self.calls % 2 == 1 {
            return Ok(0);
        }
        Ok(bytes.len().min(1))
    }

    fn flush(&mut self) -> io::Result<()> {
        Ok(())
    }
}

#[test]
fn counts_failed_reads(rt: HostRuntime) {
    let mut source = Counted::new(Halting { calls: 0 });
    let read = two_reads(&mut source, &mut [0; 2]);
    assert_same(
        &rt,
        (read, Source::failures(&source)),
        ([Err(Failed), Ok(1)], 1),
    );
}

#[test]
fn counts_failed_writes(rt: HostRuntime) {
    let mut sink = Counted::new(Halting { calls: 0 });
    let written = two_writes(&mut sink, b"ab", b"ab");
    assert_same(
        &rt,
        (written, Sink::failures(&sink)),
        ([Err(Failed), Ok(1)], 1),
    );
}

#[test]
fn faults_have_numbers_and_names(rt: HostRuntime) -> Result<(), AllocError> {
    let fault = Fault {
        refusal: Refusal::BadCount,
        place: Some(13),
    };
    let too_far = Fault {
        refusal: Refusal::TooFar,
        place: None,
    };
    let shown = format!(in rt.alloc(); "{fault}, {too_far}")?;
    assert_same(
        &rt,
        shown.as_str(),
        "refused 7 at 13: BadCount, refused 14: TooFar",
    );
    Ok(())
}
