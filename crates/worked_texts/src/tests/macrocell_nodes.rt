//! The nodes of macrocell texts.

use super::assert_none;
use super::macrocell_texts::refused;
use macrocell_reader::{McFile, Node, NodeLine, NodeLines};
use plane::Refusal;
use sample_patterns::chain;
use std::alloc::{AllocError, Global};

// The node lines of a text, which stay when the file is gone, if it is accepted.
fn nodes_of(alloc: Global, text: &str) -> Option<NodeLines<'_>> {
    match McFile::open(alloc, text.as_bytes()) {
        Ok(file) => {
            let moved = file;
            Some(moved.lines())
        }
        Err(_) => None,
    }
}

// Whether a node line has this slice, this place and this node.
fn is_this(line: Option<NodeLine<'_>>, wanted: &(&str, u64, Node)) -> bool {
    let (slice, place, node) = *wanted;
    let text = slice.as_bytes();
    match line {
        Some(line) => line == NodeLine { text, place, node },
        None => false,
    }
}

// Whether the node lines of a text are these, each as its slice, its place and its node, and none
// comes behind them, however often one asks.
fn has_lines(alloc: Global, text: &str, lines: &[(&str, u64, Node)]) -> bool {
    match nodes_of(alloc, text) {
        Some(nodes) => are_these(nodes, lines),
        None => false,
    }
}

fn are_these(nodes: NodeLines<'_>, lines: &[(&str, u64, Node)]) -> bool {
    let mut rest = nodes;
    for line in lines {
        if !is_this(rest.next(), line) {
            return false;
        }
    }
    rest.next().is_none() && rest.next().is_none()
}

// Whether the only node line is this one, and a leaf with these cells.
fn is_leaf(alloc: Global, line: &str, word: u64) -> bool {
    match format!(in alloc; "[M2]\n{line}\r\n") {
        Ok(text) => has_lines(alloc, text.as_str(), &[(line, 5, Node::Leaf(word))]),
        Err(_) => false,
    }
}

const LEAVES: &[(&str, u64)] = &[
    ("*$", 0x1),
    (".*$..*$***$", 0x70402),
    ("$*$", 0x100),
    ("$*", 0x100),
    ("$", 0),
    (".", 0),
    ("$$..*$...*$.***$$$$", 0xe0804 << 16),
    ("$$..*$...*$.***$", 0xe0804 << 16),
    ("$$$$$$$.......* \t", 1 << 63),
    (
        "********$********$********$********$********$********$********$********",
        u64::MAX,
    ),
];

// The first line that is read as another leaf, or as none.
fn read_otherwise<'a>(alloc: Global, rows: &[(&'a str, u64)]) -> Option<&'a str> {
    for (line, word) in rows {
        if !is_leaf(alloc, line, *word) {
            return Some(*line);
        }
    }
    None
}

#[test]
fn reads_leaves(rt: HostRuntime) {
    assert_none(&rt, read_otherwise(rt.alloc(), LEAVES));
}

const INNER: Node = Node::Inner {
    level: 4,
    kids: [0, 1, 0, 1],
};

const ROOT: Node = Node::Inner {
    level: 5,
    kids: [2, 0, 0, 2],
};

#[test]
fn reads_node_lines(rt: HostRuntime) {
    let text = "[M2]\n#C here\n*$ \n\n4 0 1 0 1\n#G 1\n005 2\t0  0 02 ";
    let lines = [
        ("*$ ", 13, Node::Leaf(1)),
        ("4 0 1 0 1", 18, INNER),
        ("005 2\t0  0 02 ", 33, ROOT),
    ];
    assert!(rt; has_lines(rt.alloc(), text, &lines));
}

#[test]
fn reads_node_lines_that_end_with_a_carriage_return(rt: HostRuntime) {
    let text = "[M2]\r\n#C here\r\n*$ \r\n\r\n4 0 1 0 1\r\n#G 1\r\n005 2\t0  0 02 ";
    let lines = [
        ("*$ ", 15, Node::Leaf(1)),
        ("4 0 1 0 1", 22, INNER),
        ("005 2\t0  0 02 ", 39, ROOT),
    ];
    assert!(rt; has_lines(rt.alloc(), text, &lines));
}

// What a text is refused with, and how many node lines it has, none if it is refused.
fn outcome(alloc: Global, text: &str) -> (Option<(Refusal, u64)>, u64) {
    let mut count = 0u64;
    if let Some(nodes) = nodes_of(alloc, text) {
        for _line in nodes {
            count = count.saturating_add(1);
        }
    }
    (refused(alloc, text), count)
}

// The last lines of chains, and what comes out: the refusal and how many node lines there are.
const CHAINS: &[(&str, Option<(Refusal, u64)>, u64)] = &[
    ("63 0 0 0 60\n", None, 61),
    ("63 60 0 0 0\n", None, 61),
    ("63 60 0 0 59\n", Some((Refusal::BadChild, 701)), 0),
    ("63 60 0 0 61\n", Some((Refusal::BadChild, 701)), 0),
    ("64 60 0 0 0\n", Some((Refusal::OutOfRange, 701)), 0),
    (
        "63 0 0 0 60\n64 0 0 0 61\n",
        Some((Refusal::OutOfRange, 713)),
        0,
    ),
];

// The outcome of a text that was made; none if there was no memory for it.
fn made_outcome(
    alloc: Global,
    text: Result<String, AllocError>,
) -> Option<(Option<(Refusal, u64)>, u64)> {
    match text {
        Ok(text) => Some(outcome(alloc, text.as_str())),
        Err(_) => None,
    }
}

// The first last line of a chain with another outcome, and the outcome.
fn chain_otherwise<'a>(
    alloc: Global,
    rows: &[(&'a str, Option<(Refusal, u64)>, u64)],
) -> Option<(&'a str, Option<(Option<(Refusal, u64)>, u64)>)> {
    for (last, refusal, count) in rows {
        let answer = made_outcome(alloc, chain(alloc, last));
        if answer != Some((*refusal, *count)) {
            return Some((*last, answer));
        }
    }
    None
}

#[test]
fn reads_a_chain_to_the_largest_level(rt: HostRuntime) {
    assert_none(&rt, chain_otherwise(rt.alloc(), CHAINS));
}

// Adds so many lines of nodes of a level, each of the next four nodes from the first on, and
// answers the node that comes next.
fn push_nodes(
    alloc: Global,
    text: &mut String,
    level: u8,
    count: u32,
    first: u64,
) -> Result<u64, AllocError> {
    let mut first = first;
    for _ in 0..count {
        let next = first.saturating_add(1);
        let third = first.saturating_add(2);
        let last = first.saturating_add(3);
        let line = format!(in alloc; "{level} {first} {next} {third} {last}\n")?;
        text.push_str(line.as_str())?;
        first = first.saturating_add(4);
    }
    Ok(first)
}

// How many nodes there are of each level above 4096 leaves.
const PYRAMID: &[(u8, u32)] = &[(4, 1024), (5, 256), (6, 64), (7, 16), (8, 4), (9, 1)];

// 4096 different leaves, and above them nodes that each take the next four, up to one root.
fn pyramid(alloc: Global) -> Result<String, AllocError> {
    let mut text = String::from_str(alloc, "[M2]\n")?;
    for word in 0..4096u32 {
        push_leaf(&mut text, word)?;
    }
    let mut first = 1u64;
    for (level, count) in PYRAMID {
        first = push_nodes(alloc, &mut text, *level, *count, first)?;
    }
    Ok(text)
}

// Adds a leaf line that has the lowest 12 bits of a word as its cells, in two rows.
fn push_leaf(text: &mut String, word: u32) -> Result<(), AllocError> {
    for bit in 0..12u32 {
        let cell = if (word >> bit) & 1 == 1 { "*" } else { "." };
        text.push_str(cell)?;
        if bit == 5 {
            text.push_str("$")?;
        }
    }
    text.push_str("$\n")
}

#[test]
fn reads_many_nodes(rt: HostRuntime) {
    let answer = made_outcome(rt.alloc(), pyramid(rt.alloc()));
    assert_eq!(rt; answer, Some((None, 5461)));
}
