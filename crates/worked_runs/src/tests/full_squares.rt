//! Squares whose cells are all live.

use crate::tests::macrocell::FULL;
use crate::tests::rows::{MACROCELL, RLE, Row, assert_ends, assert_row};
use plane::Refusal;
use std::alloc::{AllocError, Global};

// Where no RLE file can hold the box.
const TOO_LARGE: Row = Row {
    refusal: Some(Refusal::BoxTooLarge),
    ..RLE
};

// The line behind the file of a full square, and how it runs. After one generation the corners
// live, and along each side the cells outside it that have three neighbours.
const SQUARES: &[(&str, Row)] = &[
    (
        "61 58",
        Row {
            generations: 1,
            report: "0: 1329227995784915872903807060280344576\n1: 4611686018427387900\n",
            ..TOO_LARGE
        },
    ),
    (
        "62 59",
        Row {
            report: "0: 5316911983139663491615228241121378304\n",
            ..TOO_LARGE
        },
    ),
    (
        "62 59",
        Row {
            generations: 1,
            report: "0: 5316911983139663491615228241121378304\n1: 9223372036854775804\n",
            ..TOO_LARGE
        },
    ),
];

// What stands before the nodes in a file that a run writes.
const HEAD: &str = "[M2] (lifebatch 1)\n#R B3/S23\n#G 0\n";

// The nodes up to a line.
fn nodes_before(line_behind: &str) -> &'static str {
    let nodes = match FULL.split_once(HEAD) {
        Some((_, nodes)) => nodes,
        None => "",
    };
    match nodes.split_once(line_behind) {
        Some((before, _)) => before,
        None => "",
    }
}

// These nodes, behind a first line or more.
fn file_of(alloc: Global, head: &str, nodes: &str) -> Result<String, AllocError> {
    let mut file = String::from_str(alloc, head)?;
    file.push_str(nodes)?;
    Ok(file)
}

/// A file of the nodes up to a line, which has neither a rule nor a generation.
pub(crate) fn full_square(alloc: Global, line_behind: &str) -> Result<String, AllocError> {
    file_of(alloc, "[M2]\n", nodes_before(line_behind))
}

#[test]
fn counts_the_cells_of_full_squares(rt: HostRuntime) -> Result<(), AllocError> {
    for (line_behind, row) in SQUARES {
        let file = full_square(rt.alloc(), line_behind)?;
        assert_row(&rt, file.as_str(), row)?;
    }
    Ok(())
}

#[test]
fn writes_a_full_square_by_the_lines_that_it_has(rt: HostRuntime) -> Result<(), AllocError> {
    let file = full_square(rt.alloc(), "62 59")?;
    let written = file_of(rt.alloc(), HEAD, nodes_before("62 59"))?;
    let report = "0: 5316911983139663491615228241121378304\n";
    let wanted = (None, report, written.as_str());
    assert_ends(&rt, file.as_str(), &MACROCELL.options(), wanted)
}
