//! Runs of macrocell files, and runs that write them.

use crate::tests::rows::{
    MACROCELL, PLAIN, RLE, Row, SHARED_LEAF, SHARED_LEAF_AGAIN, assert_ends, assert_rows,
};
use engine::Options;
use plane::Refusal;
use std::alloc::AllocError;
use std::process::Abort;
use std::thread::Threads;

const GLIDER: &str = "[M2] (golly 2.0)\n#R B3/S23\n$$..*$...*$.***$$$$\n4 0 0 0 1\n";

/// All 2^126 cells of the range.
pub(crate) const FULL: &str = "[M2] (lifebatch 1)\n#R B3/S23\n#G 0\n\
     ********$********$********$********$********$********$********$********$\n4 1 1 1 1\n\
     5 2 2 2 2\n6 3 3 3 3\n7 4 4 4 4\n8 5 5 5 5\n9 6 6 6 6\n10 7 7 7 7\n11 8 8 8 8\n\
     12 9 9 9 9\n13 10 10 10 10\n14 11 11 11 11\n15 12 12 12 12\n16 13 13 13 13\n\
     17 14 14 14 14\n18 15 15 15 15\n19 16 16 16 16\n20 17 17 17 17\n21 18 18 18 18\n\
     22 19 19 19 19\n23 20 20 20 20\n24 21 21 21 21\n25 22 22 22 22\n26 23 23 23 23\n\
     27 24 24 24 24\n28 25 25 25 25\n29 26 26 26 26\n30 27 27 27 27\n31 28 28 28 28\n\
     32 29 29 29 29\n33 30 30 30 30\n34 31 31 31 31\n35 32 32 32 32\n36 33 33 33 33\n\
     37 34 34 34 34\n38 35 35 35 35\n39 36 36 36 36\n40 37 37 37 37\n41 38 38 38 38\n\
     42 39 39 39 39\n43 40 40 40 40\n44 41 41 41 41\n45 42 42 42 42\n46 43 43 43 43\n\
     47 44 44 44 44\n48 45 45 45 45\n49 46 46 46 46\n50 47 47 47 47\n51 48 48 48 48\n\
     52 49 49 49 49\n53 50 50 50 50\n54 51 51 51 51\n55 52 52 52 52\n56 53 53 53 53\n\
     57 54 54 54 54\n58 55 55 55 55\n59 56 56 56 56\n60 57 57 57 57\n61 58 58 58 58\n\
     62 59 59 59 59\n63 60 60 60 60\n";

// The cell (0,0), in the corner of a chain of squares up to the largest.
const CHAIN: &str = "[M2]\n*$\n\
     4 1 0 0 0\n5 2 0 0 0\n6 3 0 0 0\n7 4 0 0 0\n8 5 0 0 0\n9 6 0 0 0\n10 7 0 0 0\n11 8 0 0 0\n\
     12 9 0 0 0\n13 10 0 0 0\n14 11 0 0 0\n15 12 0 0 0\n16 13 0 0 0\n17 14 0 0 0\n18 15 0 0 0\n\
     19 16 0 0 0\n20 17 0 0 0\n21 18 0 0 0\n22 19 0 0 0\n23 20 0 0 0\n24 21 0 0 0\n25 22 0 0 0\n\
     26 23 0 0 0\n27 24 0 0 0\n28 25 0 0 0\n29 26 0 0 0\n30 27 0 0 0\n31 28 0 0 0\n32 29 0 0 0\n\
     33 30 0 0 0\n34 31 0 0 0\n35 32 0 0 0\n36 33 0 0 0\n37 34 0 0 0\n38 35 0 0 0\n39 36 0 0 0\n\
     40 37 0 0 0\n41 38 0 0 0\n42 39 0 0 0\n43 40 0 0 0\n44 41 0 0 0\n45 42 0 0 0\n46 43 0 0 0\n\
     47 44 0 0 0\n48 45 0 0 0\n49 46 0 0 0\n50 47 0 0 0\n51 48 0 0 0\n52 49 0 0 0\n53 50 0 0 0\n\
     54 51 0 0 0\n55 52 0 0 0\n56 53 0 0 0\n57 54 0 0 0\n58 55 0 0 0\n59 56 0 0 0\n60 57 0 0 0\n\
     61 58 0 0 0\n62 59 0 0 0\n63 0 0 0 60\n";

// Two cells at the ends of a row of 2^31 columns.
const WIDE: &str =
    "[M2] (lifebatch 1)\n#R B3/S23\n#G 0\n*$\n4 1 0 0 0\n5 2 0 0 0\n6 3 0 0 0\n7 4 0 0 0\n\
     8 5 0 0 0\n9 6 0 0 0\n10 7 0 0 0\n11 8 0 0 0\n12 9 0 0 0\n13 10 0 0 0\n14 11 0 0 0\n\
     15 12 0 0 0\n16 13 0 0 0\n17 14 0 0 0\n18 15 0 0 0\n19 16 0 0 0\n20 17 0 0 0\n\
     21 18 0 0 0\n22 19 0 0 0\n23 20 0 0 0\n24 21 0 0 0\n25 22 0 0 0\n26 23 0 0 0\n\
     27 24 0 0 0\n28 25 0 0 0\n29 26 0 0 0\n30 27 0 0 0\n.......*$\n4 0 29 0 0\n5 0 30 0 0\n\
     6 0 31 0 0\n7 0 32 0 0\n8 0 33 0 0\n9 0 34 0 0\n10 0 35 0 0\n11 0 36 0 0\n12 0 37 0 0\n\
     13 0 38 0 0\n14 0 39 0 0\n15 0 40 0 0\n16 0 41 0 0\n17 0 42 0 0\n18 0 43 0 0\n\
     19 0 44 0 0\n20 0 45 0 0\n21 0 46 0 0\n22 0 47 0 0\n23 0 48 0 0\n24 0 49 0 0\n\
     25 0 50 0 0\n26 0 51 0 0\n27 0 52 0 0\n28 0 53 0 0\n29 0 54 0 0\n30 0 55 0 0\n\
     31 28 56 0 0\n32 0 0 0 57\n";

pub(crate) const WRITTEN: &[Row] = &[
    Row {
        file: "[M2]",
        generations: 5,
        report: "0: 0\n5: 0\n",
        text: "#CXRLE Pos=0,0 Gen=5\nx = 0, y = 0, rule = B3/S23\n!\n",
        ..RLE
    },
    Row {
        file: "x = 0, y = 0, rule = B3/S23\n!\n",
        generations: 1000,
        report: "0: 0\n1000: 0\n",
        text: "[M2] (lifebatch 1)\n#R B3/S23\n#G 1000\n",
        ..MACROCELL
    },
    Row {
        file: "[M2]\n*$\n4 0 0 0 1\n",
        report: "0: 1\n",
        text: "#CXRLE Pos=0,0 Gen=0\nx = 1, y = 1, rule = B3/S23\no!\n",
        ..RLE
    },
    SHARED_LEAF,
    SHARED_LEAF_AGAIN,
    // A root of side 8 covers -4 to 3.
    Row {
        file: "[M2]\n*$\n",
        report: "0: 1\n",
        text: "#CXRLE Pos=-4,-4 Gen=0\nx = 1, y = 1, rule = B3/S23\no!\n",
        ..RLE
    },
    Row {
        file: GLIDER,
        report: "0: 5\n",
        text: "#CXRLE Pos=1,2 Gen=0\nx = 3, y = 3, rule = B3/S23\nbo$2bo$3o!\n",
        ..RLE
    },
    // The last row of a leaf may lack its end.
    Row {
        file: "[M2] (golly 2.0)\n#R B3/S23\n$$..*$...*$.***$\n4 0 0 0 1\n",
        report: "0: 5\n",
        text: "#CXRLE Pos=1,2 Gen=0\nx = 3, y = 3, rule = B3/S23\nbo$2bo$3o!\n",
        ..RLE
    },
    Row {
        file: GLIDER,
        generations: 1 << 40,
        report: "0: 5\n1099511627776: 5\n",
        text: "#CXRLE Pos=274877906945,274877906946 Gen=1099511627776\n\
         x = 3, y = 3, rule = B3/S23\nbo$2bo$3o!\n",
        ..RLE
    },
    Row {
        file: "#N Glider\n#r 23/3\nx = 3, y = 3\nbob$2bo$3o!",
        generations: 4,
        report: "0: 5\n4: 5\n",
        text: "[M2] (lifebatch 1)\n#R B3/S23\n#G 4\n#N Glider\n\
         $..*$...*$.***$\n4 0 0 0 1\n",
        ..MACROCELL
    },
    // Comments stand anywhere; an empty square that is spelled is left out.
    Row {
        file: "[M2]\n#G 7\n#C first\n$\n*$\n#R B36/S23\n4 1 1 0 2\n#N last",
        report: "7: 1\n",
        text: "[M2] (lifebatch 1)\n#R B36/S23\n#G 7\n#C first\n#N last\n*$\n4 0 0 0 1\n",
        ..MACROCELL
    },
    // Equal squares are written once, and a root that is too large is trimmed.
    Row {
        file: "[M2]\n*$\n*$\n4 1 2 0 2\n5 0 0 0 3\n6 4 0 0 0\n",
        report: "0: 3\n",
        text: "[M2] (lifebatch 1)\n#R B3/S23\n#G 0\n*$\n4 1 1 0 1\n5 2 0 0 0\n",
        ..MACROCELL
    },
    // Two equal leaves are one node.
    Row {
        file: "[M2]\n*$\n*$\n4 1 0 0 2\n",
        report: "0: 2\n",
        text: "[M2] (lifebatch 1)\n#R B3/S23\n#G 0\n*$\n4 1 0 0 1\n",
        ..MACROCELL
    },
    // The cell (0,0), from roots of 32 cells on a side and of 2^63.
    Row {
        file: "[M2]\n*$\n4 1 0 0 0\n5 0 0 0 2\n",
        report: "0: 1\n",
        text: "[M2] (lifebatch 1)\n#R B3/S23\n#G 0\n*$\n4 0 0 0 1\n",
        ..MACROCELL
    },
    Row {
        file: CHAIN,
        report: "0: 1\n",
        text: "[M2] (lifebatch 1)\n#R B3/S23\n#G 0\n*$\n4 0 0 0 1\n",
        ..MACROCELL
    },
    // A leaf comes into the middle of a square of 16 cells on a side.
    Row {
        file: "[M2]\n*$\n",
        report: "0: 1\n",
        text: "[M2] (lifebatch 1)\n#R B3/S23\n#G 0\n$$$$....*$\n4 1 0 0 0\n",
        ..MACROCELL
    },
    // A box that no RLE text can hold.
    Row {
        file: "x = 1, y = 1\no2147483646bo!",
        report: "0: 2\n",
        text: WIDE,
        ..MACROCELL
    },
    Row {
        file: FULL,
        report: "0: 85070591730234615865843651857942052864\n",
        text: FULL,
        ..MACROCELL
    },
];

pub(crate) const REFUSED: &[Row] = &[
    Row {
        file: "[M2]\n*$\n4 0 0 0 2\n",
        refusal: Some(Refusal::BadChild),
        place: Some(8),
        ..RLE
    },
    Row {
        file: "[M2]\n*$\n4 0 0 0 9\n",
        refusal: Some(Refusal::BadChild),
        place: Some(8),
        ..RLE
    },
    Row {
        file: "[M2]\n*$\n5 0 0 0 1\n",
        refusal: Some(Refusal::BadChild),
        place: Some(8),
        ..RLE
    },
    Row {
        file: "[M2]\n*$\n3 0 0 0 0\n",
        refusal: Some(Refusal::BadNodeLine),
        place: Some(8),
        ..RLE
    },
    Row {
        file: "[M2]\n*$\n64 0 0 0 0\n",
        refusal: Some(Refusal::OutOfRange),
        place: Some(8),
        ..RLE
    },
    Row {
        file: "[M2]\n*$\n#FRAMES\n",
        refusal: Some(Refusal::FramesNotRead),
        place: Some(8),
        ..RLE
    },
    Row {
        file: "[M2]\n#G 9223372036854775809\n",
        refusal: Some(Refusal::BadGen),
        place: Some(5),
        ..RLE
    },
    Row {
        file: "[M2]\n#R B0/S\n",
        refusal: Some(Refusal::BirthOnZero),
        place: Some(5),
        ..RLE
    },
    Row {
        file: "[M2]\n*$\n#R B3/S9\n",
        refusal: Some(Refusal::BadRule),
        place: Some(8),
        ..RLE
    },
    Row {
        file: FULL,
        generations: 1,
        refusal: Some(Refusal::TooFar),
        ..RLE
    },
    Row {
        file: FULL,
        refusal: Some(Refusal::BoxTooLarge),
        report: "0: 85070591730234615865843651857942052864\n",
        ..RLE
    },
];

#[test]
fn reads_and_writes_macrocell_files(rt: HostRuntime) -> Result<(), AllocError> {
    assert_rows(&rt, WRITTEN)
}

// Runs what rows write, and compares what is written again, and the report, which is the last line
// of theirs.
fn assert_written_again<R: Abort + AllocGlobal + Threads + Sync>(
    rt: &R,
    rows: &[Row],
) -> Result<(), AllocError> {
    for row in rows {
        let options = Options {
            format: row.format,
            ..PLAIN
        };
        let last = row.report.split_inclusive('\n').last().unwrap_or("");
        assert_ends(rt, row.text, &options, (None, last, row.text))?;
    }
    Ok(())
}

#[test]
fn writes_again_what_it_wrote(rt: HostRuntime) -> Result<(), AllocError> {
    assert_written_again(&rt, WRITTEN)
}

#[test]
fn refuses_macrocell_files_by_name(rt: HostRuntime) -> Result<(), AllocError> {
    assert_rows(&rt, REFUSED)
}
