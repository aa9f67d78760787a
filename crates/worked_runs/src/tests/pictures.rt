//! Pictures of windows, behind the lines of the report.

use crate::tests::rows::{PLAIN, assert_ends};
use engine::{Format, Options};
use plane::{Fault, Refusal, Window};
use sample_patterns::BLINKER;
use std::process::Abort;
use std::test::Fail;
use std::thread::Threads;

// A file, how many generations it runs, which window is drawn, the report, and its picture.
struct Pictured {
    file: &'static str,
    generations: u64,
    window: (i64, i64, u32, u32),
    report: &'static str,
    picture: &'static str,
}

const PICTURES: &[Pictured] = &[
    Pictured {
        file: BLINKER,
        generations: 1,
        window: (0, -1, 3, 3),
        report: "0: 3\n1: 3\n.*.\n.*.\n.*.\n",
        picture: ".*.\n.*.\n.*.\n",
    },
    Pictured {
        file: "x = 0, y = 0, rule = B3/S23\n!\n",
        generations: 0,
        window: (-1, -1, 2, 2),
        report: "0: 0\n..\n..\n",
        picture: "..\n..\n",
    },
    Pictured {
        file: "x = 3, y = 3\nbob$2bo$3o!",
        generations: 0,
        window: (0, 0, 3, 3),
        report: "0: 5\n.*.\n..*\n***\n",
        picture: ".*.\n..*\n***\n",
    },
    // Two columns and three rows of it, one cell further to the right and down after four
    // generations.
    Pictured {
        file: "x = 3, y = 3\nbob$2bo$3o!",
        generations: 4,
        window: (2, 1, 2, 3),
        report: "0: 5\n4: 5\n*.\n.*\n**\n",
        picture: "*.\n.*\n**\n",
    },
    Pictured {
        file: "#CXRLE Pos=4611686018427387903,-4611686018427387904\nx = 1, y = 1\no!",
        generations: 0,
        window: (4611686018427387902, -4611686018427387904, 3, 2),
        report: "0: 1\n.*.\n...\n",
        picture: ".*.\n...\n",
    },
    Pictured {
        file: "x = 1, y = 1\no!",
        generations: 0,
        window: (4611686018427387904, 4611686018427387904, 1, 2),
        report: "0: 1\n.\n.\n",
        picture: ".\n.\n",
    },
    Pictured {
        file: "[M2]\n*$\n4 1 1 1 1\n",
        generations: 0,
        window: (-8, -8, 9, 1),
        report: "0: 4\n*.......*\n",
        picture: "*.......*\n",
    },
];

// What is asked for where a window is.
fn asked(generations: u64, window: (i64, i64, u32, u32), quiet: bool) -> Result<Options, Refusal> {
    Ok(Options {
        gens: generations,
        window: Some(Window::new(window.0, window.1, window.2, window.3)?),
        quiet,
        ..PLAIN
    })
}

// Runs a row with its lines and without, with one worker and by two.
fn assert_pictured<R: Abort + AllocGlobal + Threads + Sync>(
    rt: &R,
    row: &Pictured,
) -> Result<(), Fail> {
    let loud = asked(row.generations, row.window, false)?;
    let quiet = asked(row.generations, row.window, true)?;
    for workers in 1..=2 {
        let loud = Options { workers, ..loud };
        assert_ends(rt, row.file, &loud, (None, row.report, ""))?;
        let quiet = Options { workers, ..quiet };
        assert_ends(rt, row.file, &quiet, (None, row.picture, ""))?;
    }
    Ok(())
}

#[test]
fn draws_the_window_behind_the_lines(rt: HostRuntime) -> Result<(), Fail> {
    for row in PICTURES {
        assert_pictured(&rt, row)?;
    }
    Ok(())
}

// Runs a row with one worker in the fewest slots, where it has room: the worker takes the same
// steps in each run.
fn assert_pictured_in_the_fewest<R: Abort + AllocGlobal + Threads + Sync>(
    rt: &R,
    row: &Pictured,
) -> Result<(), Fail> {
    let options = Options {
        pairs: 1024,
        ..asked(row.generations, row.window, false)?
    };
    assert_ends(rt, row.file, &options, (None, row.report, ""))?;
    Ok(())
}

#[test]
fn draws_the_window_in_the_fewest_slots(rt: HostRuntime) -> Result<(), Fail> {
    for row in PICTURES {
        assert_pictured_in_the_fewest(&rt, row)?;
    }
    Ok(())
}

#[test]
fn draws_the_window_before_the_box_is_refused(rt: HostRuntime) -> Result<(), Fail> {
    let options = Options {
        format: Some(Format::Rle),
        ..asked(0, (2147483646, 0, 2, 1), false)?
    };
    let file = "x = 1, y = 1\no2147483646bo!";
    let too_large = Fault {
        refusal: Refusal::BoxTooLarge,
        place: None,
    };
    assert_ends(&rt, file, &options, (Some(too_large), "0: 2\n.*\n", ""))?;
    Ok(())
}
