//! Runs that are accepted: the report, and the pattern as RLE.

use crate::tests::ended::Ended;
use crate::tests::rows::{
    BLINKER, COMMENTED_GLIDER, FAR_GLIDER, FAR_REPLICATOR, PLAIN, R_PENTOMINO, RLE, Row,
    assert_ends, assert_rows, assert_told,
};
use engine::{Format, Options};
use rule_text::Rule;
use std::alloc::AllocError;
use std::process::Abort;

pub(crate) const PATTERNS: &[Row] = &[
    Row {
        file: "x = 0, y = 0, rule = B3/S23\n!\n",
        generations: 1000,
        report: "0: 0\n1000: 0\n",
        text: "#CXRLE Pos=0,0 Gen=1000\nx = 0, y = 0, rule = B3/S23\n!\n",
        ..RLE
    },
    Row {
        generations: 0,
        report: "0: 5\n",
        text: "#CXRLE Pos=0,0 Gen=0\nx = 3, y = 3, rule = B3/S23\nb2o$2o$bo!\n",
        ..R_PENTOMINO
    },
    BLINKER,
    Row {
        file: "x = 1, y = 1, rule = B1/SV\no!",
        generations: 1,
        report: "0: 1\n1: 4\n",
        text: "#CXRLE Pos=-1,-1 Gen=1\nx = 3, y = 3, rule = B1/SV\nbo$obo$bo!\n",
        ..RLE
    },
    Row {
        file: "x = 1, y = 1, rule = B1/SV\no!",
        generations: 2,
        report: "0: 1\n2: 4\n",
        text: "#CXRLE Pos=-2,-2 Gen=2\nx = 5, y = 5, rule = B1/SV\n2bo2$o3bo2$2bo!\n",
        ..RLE
    },
    Row {
        file: "x = 1, y = 1, rule = B1/SH\no!",
        generations: 1,
        report: "0: 1\n1: 6\n",
        text: "#CXRLE Pos=-1,-1 Gen=1\nx = 3, y = 3, rule = B1/SH\n2o$obo$b2o!\n",
        ..RLE
    },
    Row {
        file: "x = 3, y = 1, rule = b3s23\n3o!",
        report: "0: 3\n",
        text: "#CXRLE Pos=0,0 Gen=0\nx = 3, y = 1, rule = B3/S23\n3o!\n",
        ..RLE
    },
    // Two of 10000 rows have cells.
    Row {
        file: "x = 1, y = 10000\no9999$o!",
        report: "0: 2\n",
        text: "#CXRLE Pos=0,0 Gen=0\nx = 1, y = 10000, rule = B3/S23\no9999$o!\n",
        ..RLE
    },
    Row {
        file: "x = 12, y = 1\n1\n2o\n#C here\n!junk",
        report: "0: 12\n",
        text: "#CXRLE Pos=0,0 Gen=0\nx = 12, y = 1, rule = B3/S23\n12o!\n",
        ..RLE
    },
    Row {
        file: "x = 12, y = 1\r\n1\r\n2o\r\n#C here\r\n",
        report: "0: 12\n",
        text: "#CXRLE Pos=0,0 Gen=0\nx = 12, y = 1, rule = B3/S23\n12o!\n",
        ..RLE
    },
    COMMENTED_GLIDER,
    Row {
        file: "#CXRLE Gen=7\nx = 3, y = 3, rule = B3/S23\nbo$2bo$3o!",
        generations: 10,
        step: 4,
        report: "7: 5\n11: 5\n15: 5\n17: 5\n",
        text: "#CXRLE Pos=2,3 Gen=17\nx = 3, y = 3, rule = B3/S23\n2bo$obo$b2o!\n",
        ..RLE
    },
    // The first side that is too large for a file is one more.
    Row {
        file: "x = 1, y = 1\no2147483645bo!",
        report: "0: 2\n",
        text: "#CXRLE Pos=0,0 Gen=0\nx = 2147483647, y = 1, rule = B3/S23\no2147483645bo!\n",
        ..RLE
    },
];

/// The ends of the range and of the generations, and the position that was the last one of a
/// smaller range.
pub(crate) const LIMITS: &[Row] = &[
    Row {
        file: "#CXRLE Pos=4611686018427387903,0\nx = 1, y = 1\no!",
        report: "0: 1\n",
        text: "#CXRLE Pos=4611686018427387903,0 Gen=0\nx = 1, y = 1, rule = B3/S23\no!\n",
        ..RLE
    },
    Row {
        file: "#CXRLE Pos=-4611686018427387904,-4611686018427387904\nx = 1, y = 1\no!",
        report: "0: 1\n",
        text: "#CXRLE Pos=-4611686018427387904,-4611686018427387904 Gen=0\n\
         x = 1, y = 1, rule = B3/S23\no!\n",
        ..RLE
    },
    Row {
        file: "#CXRLE Gen=9223372036854775808\nx = 1, y = 1\no!",
        report: "9223372036854775808: 1\n",
        text: "#CXRLE Pos=0,0 Gen=9223372036854775808\nx = 1, y = 1, rule = B3/S23\no!\n",
        ..RLE
    },
    Row {
        file: "#CXRLE Pos=1152921504606846975,0\nx = 1, y = 1\no!",
        generations: 1,
        report: "0: 1\n1: 0\n",
        text: "#CXRLE Pos=0,0 Gen=1\nx = 0, y = 0, rule = B3/S23\n!\n",
        ..RLE
    },
    Row {
        file: "x = 0, y = 0\n!",
        generations: LAST,
        report: "0: 0\n9223372036854775808: 0\n",
        text: NONE_LEFT,
        ..RLE
    },
];

// The last generation that there is, and the text of no cells in it.
const LAST: u64 = 1 << 63;

const NONE_LEFT: &str = "#CXRLE Pos=0,0 Gen=9223372036854775808\nx = 0, y = 0, rule = B3/S23\n!\n";

/// The 36 cells at (0,0), (2,0), .. (70,0), and the 34 cells at (0,0), .. (66,0) with (68,0),
/// (69,0): a body line takes an item, or the `!`, where it then has at most 70 bytes.
pub(crate) const LONG_ROWS: &[Row] = &[
    Row {
        file: "x = 71, y = 1\nobobobobobobobobobobobobobobobobobobobobobobobobobobobobobobobobobobobo!",
        report: "0: 36\n",
        text: "#CXRLE Pos=0,0 Gen=0\nx = 71, y = 1, rule = B3/S23\n\
         obobobobobobobobobobobobobobobobobobobobobobobobobobobobobobobobobobob\no!\n",
        ..RLE
    },
    Row {
        file: "x = 70, y = 1\nobobobobobobobobobobobobobobobobobobobobobobobobobobobobobobobobobob2o!",
        report: "0: 36\n",
        text: "#CXRLE Pos=0,0 Gen=0\nx = 70, y = 1, rule = B3/S23\n\
         obobobobobobobobobobobobobobobobobobobobobobobobobobobobobobobobobob2o\n!\n",
        ..RLE
    },
];

const UPRIGHT: &str = "#CXRLE Pos=1,-1 Gen=5\nx = 1, y = 3, rule = B3/S23\no$o$o!\n";

const FLAT: &str = "#CXRLE Pos=0,0 Gen=4\nx = 3, y = 1, rule = B3/S23\n3o!\n";

pub(crate) const STEPS: &[Row] = &[
    Row {
        generations: 5,
        step: 2,
        report: "0: 3\n2: 3\n4: 3\n5: 3\n",
        text: UPRIGHT,
        ..BLINKER
    },
    Row {
        generations: 5,
        step: 5,
        report: "0: 3\n5: 3\n",
        text: UPRIGHT,
        ..BLINKER
    },
    Row {
        generations: 5,
        step: 6,
        report: "0: 3\n5: 3\n",
        text: UPRIGHT,
        ..BLINKER
    },
    Row {
        generations: 5,
        step: u64::MAX,
        report: "0: 3\n5: 3\n",
        text: UPRIGHT,
        ..BLINKER
    },
    Row {
        generations: 4,
        step: 2,
        report: "0: 3\n2: 3\n4: 3\n",
        text: FLAT,
        ..BLINKER
    },
    Row {
        generations: 4,
        step: 1,
        report: "0: 3\n1: 3\n2: 3\n3: 3\n4: 3\n",
        text: FLAT,
        ..BLINKER
    },
    // No cells take no step, so these answer at once.
    Row {
        file: "x = 0, y = 0\n!",
        generations: LAST,
        step: LAST / 2,
        report: "0: 0\n4611686018427387904: 0\n9223372036854775808: 0\n",
        text: NONE_LEFT,
        ..RLE
    },
];

/// Runs of the glider that no engine comes through cell by cell.
pub(crate) const FAR_GLIDERS: &[Row] = &[
    FAR_GLIDER,
    Row {
        generations: 3 << 39,
        step: 1 << 39,
        report: "0: 5\n549755813888: 5\n1099511627776: 5\n1649267441664: 5\n",
        text: "#CXRLE Pos=412316860416,412316860416 Gen=1649267441664\n\
         x = 3, y = 3, rule = B3/S23\nbo$2bo$3o!\n",
        ..FAR_GLIDER
    },
];

// Patterns, the limits, lines of at most 70 bytes, and a report of each step with the last
// generation once.
#[test]
fn writes_patterns(rt: HostRuntime) -> Result<(), AllocError> {
    for rows in &[PATTERNS, LIMITS, LONG_ROWS, STEPS] {
        assert_rows(&rt, rows)?;
    }
    Ok(())
}

#[test]
fn runs_far(rt: HostRuntime) -> Result<(), AllocError> {
    assert_rows(&rt, FAR_GLIDERS)?;
    assert_rows(&rt, &[FAR_REPLICATOR])
}

#[test]
fn runs_by_another_rule(rt: HostRuntime) -> Result<(), AllocError> {
    let file = "x = 1, y = 1, rule = B03/S23\no!";
    let text = "#CXRLE Pos=0,0 Gen=0\nx = 1, y = 1, rule = B3/S23\no!\n";
    for workers in 1..=2 {
        let options = Options {
            rule: Rule::read(b"b3s23").ok(),
            format: Some(Format::Rle),
            workers,
            ..PLAIN
        };
        assert_ends(&rt, file, &options, (None, "0: 1\n", text))?;
    }
    Ok(())
}

// The R-pentomino settles after 1103 generations.
#[test]
fn answers_the_last_generation_and_its_population(rt: HostRuntime) -> Result<(), AllocError> {
    let options = Options {
        gens: 1103,
        ..PLAIN
    };
    let file = R_PENTOMINO.file;
    let end = Ended::of(&rt, file, &options)?;
    assert_told(&rt, file, &end, (None, "0: 5\n1103: 116\n", ""));
    assert!(rt; end.is_summed_up_by(1103, 116));
    Ok(())
}
