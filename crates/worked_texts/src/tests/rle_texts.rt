//! RLE texts, and what they are read as.

use super::{are_only, assert_none, assert_same, bytes_of};
use plane::{Cell, Refusal};
use rle_reader::RleFile;
use std::alloc::Global;

// The refusal of a text and its place.
fn refused(text: &[u8]) -> Option<(Refusal, u64)> {
    match RleFile::open(text) {
        Ok(_) => None,
        Err(fault) => Some((fault.refusal, fault.place.unwrap_or(u64::MAX))),
    }
}

const REFUSED: &[(&str, Refusal, u64)] = &[
    ("", Refusal::NotAPattern, 0),
    ("\n \t\r\n#C only\n", Refusal::NotAPattern, 13),
    ("[M2] (golly 2.0)\n", Refusal::NotAPattern, 0),
    ("\r\r\nx = 1, y = 1\n!", Refusal::NotAPattern, 0),
    ("#C one\n  o!\n", Refusal::NotAPattern, 7),
    (" #C one\nx = 1, y = 1\n!", Refusal::NotAPattern, 0),
    ("x = 1, y", Refusal::BadHeader, 0),
    ("#C one\n x = 1", Refusal::BadHeader, 7),
    ("x = , y = 1\n!", Refusal::BadHeader, 0),
    ("x = 1 1, y = 1\n!", Refusal::BadHeader, 0),
    ("y = 1, x = 1\n!", Refusal::NotAPattern, 0),
    ("x = 1, y = 1, rule\n!", Refusal::BadHeader, 0),
    ("x = 1, y = 1,\n!", Refusal::BadHeader, 0),
    ("x = 1, y = 1, ruled = B3/S23\n!", Refusal::BadHeader, 0),
    ("xx = 1, y = 1\n!", Refusal::BadHeader, 0),
    ("x == 1, y = 1\n!", Refusal::BadHeader, 0),
    ("x = -1, y = 1\n!", Refusal::BadHeader, 0),
    ("#CXRLE Gen=9223372036854775809\n", Refusal::BadGen, 0),
    ("\n#CXRLE Gen=\nx = 1, y = 1\n!", Refusal::BadGen, 1),
    ("#CXRLE Gen=-1\n", Refusal::BadGen, 0),
    ("#CXRLEx Gen=b\n", Refusal::BadGen, 0),
    ("#CXRLE Pos=+1,1\n", Refusal::BadHeader, 0),
    ("#CXRLE Pos=,1\n", Refusal::BadHeader, 0),
    ("#CXRLE Pos=1,1,1\n", Refusal::BadHeader, 0),
    ("#CXRLE Pos=1\n", Refusal::BadHeader, 0),
    ("#CXRLE Pos=--1,1\n", Refusal::BadHeader, 0),
    ("#CXRLE Gen=x Pos=a,1\n", Refusal::BadHeader, 0),
    ("#CXRLE Pos=a,1 Gen=x\n", Refusal::BadHeader, 0),
    (
        "#CXRLE Gen=x Pos=4611686018427387904,0\n",
        Refusal::OutOfRange,
        0,
    ),
    (
        "#CXRLE Pos=0,-4611686018427387905\n",
        Refusal::OutOfRange,
        0,
    ),
    (
        "#CXRLE Pos=0,99999999999999999999999\n",
        Refusal::OutOfRange,
        0,
    ),
    (
        "#CXRLE Pos=9223372036854775808,0 Pos=0,0\n",
        Refusal::OutOfRange,
        0,
    ),
    (
        "#CXRLE Pos=4611686018427387903,0\nx = 1, y = 1\n2o!",
        Refusal::OutOfRange,
        46,
    ),
];

const REFUSED_BODIES: &[(&str, Refusal, u64)] = &[
    ("0o!", Refusal::BadCount, 13),
    ("3!", Refusal::BadCount, 13),
    ("o \n3\r", Refusal::BadCount, 16),
    ("000$", Refusal::BadCount, 13),
    ("3B!", Refusal::MoreStates, 13),
    ("0p!", Refusal::MoreStates, 13),
    ("b3y!", Refusal::MoreStates, 14),
    ("X", Refusal::MoreStates, 13),
    ("z", Refusal::BadTag, 13),
    ("Y", Refusal::BadTag, 13),
    ("0z", Refusal::BadTag, 13),
    ("o  #C", Refusal::BadTag, 16),
    ("-1o!", Refusal::BadTag, 13),
    ("99999999999999999999o!", Refusal::OutOfRange, 13),
    ("4611686018427387905b!", Refusal::OutOfRange, 13),
    ("4611686018427387904bo!", Refusal::OutOfRange, 33),
    ("4611686018427387905$!", Refusal::OutOfRange, 13),
    ("4611686018427387904$bo!", Refusal::OutOfRange, 34),
    ("268435457o!", Refusal::TooManyCells, 13),
    ("o$268435455o$o!", Refusal::TooManyCells, 26),
    ("o$4611686018427387905o", Refusal::OutOfRange, 15),
];

// The refusal of a text of two parts, and its place.
fn refused_behind(alloc: Global, head: &str, rest: &str) -> Option<(Refusal, u64)> {
    match format!(in alloc; "{head}{rest}") {
        Ok(text) => refused(text.as_bytes()),
        Err(_) => None,
    }
}

// The first rest that is refused otherwise behind a head, and how.
fn refused_otherwise<'a>(
    alloc: Global,
    head: &str,
    rows: &[(&'a str, Refusal, u64)],
) -> Option<(&'a str, Option<(Refusal, u64)>)> {
    for (rest, refusal, place) in rows {
        let answer = refused_behind(alloc, head, rest);
        if answer != Some((*refusal, *place)) {
            return Some((*rest, answer));
        }
    }
    None
}

#[test]
fn refuses_texts(rt: HostRuntime) {
    assert_none(&rt, refused_otherwise(rt.alloc(), "", REFUSED));
}

#[test]
fn refuses_bodies(rt: HostRuntime) {
    let head = "x = 1, y = 1\n";
    assert_none(&rt, refused_otherwise(rt.alloc(), head, REFUSED_BODIES));
}

const ACCEPTED: &[&str] = &[
    "x = 0, y = 0, rule = B3/S23\n!\n",
    "x = 3, y = 3, rule = B3/S23\nb2o$2o$bo!",
    "#CXRLE Pos=4611686018427387903,0\nx = 1, y = 1\no!",
    "#CXRLE Pos=-0,-4611686018427387904 Gen=9223372036854775808\nx = 1, y = 1\no!",
    "#CXRLEPos=a,b gen=x\nx = 1, y = 1\n!",
    "\r\n \t\n#r 23/3\n\tX\t=007,Y=  1 ,\tRuLe  = \r\n",
    "x = 123456789012345678901234567890, y = 1\n!0z",
    "x = 1, y = 1\n4611686018427387904b$4611686018427387902$o!",
    "x = 1, y = 1\n4611686018427387904$5b!",
    "x = 1, y = 1\n268435456o!",
    "x = 1, y = 1\n00268435456A$0000000000000000000000001.!",
];

// The first text that is refused, and how.
fn first_refused<'a>(texts: &[&'a str]) -> Option<(&'a str, (Refusal, u64))> {
    for text in texts {
        if let Some(refusal) = refused(text.as_bytes()) {
            return Some((*text, refusal));
        }
    }
    None
}

#[test]
fn accepts(rt: HostRuntime) {
    assert_none(&rt, first_refused(ACCEPTED));
}

// The refusal of the beginning of so many bytes of `x = 1, y = 1\n3o!`, and its place.
fn refused_beginning(length: usize) -> Option<(Refusal, u64)> {
    match length {
        0 => Some((Refusal::NotAPattern, 0)),
        1..=11 => Some((Refusal::BadHeader, 0)),
        14 => Some((Refusal::BadCount, 13)),
        _ => None,
    }
}

#[test]
fn reads_every_beginning(rt: HostRuntime) {
    let text = "x = 1, y = 1\n3o!".as_bytes();
    for length in 0..text.len() + 1 {
        let answer = refused(&text[..length]);
        assert_same(&rt, (length, answer), (length, refused_beginning(length)));
    }
}

// What the lines before the body say: the first cell, the generation, whether the rule's text is
// this one, and the place of the header.
fn settings(text: &str, rule: Option<&str>) -> Option<(Cell, u64, bool, u64)> {
    match RleFile::open(text.as_bytes()) {
        Ok(file) => Some(settings_of(&file, rule)),
        Err(_) => None,
    }
}

fn settings_of(file: &RleFile<'_>, rule: Option<&str>) -> (Cell, u64, bool, u64) {
    let is_rule = file.rule_slice() == bytes_of(rule);
    (file.pos(), file.generation(), is_rule, file.rule_place())
}

const LIFE: Option<&str> = Some("B3/S23");

// Texts, each with x and y of the first cell, its generation, its rule and the header's place.
type Settings = (&'static str, i64, i64, u64, Option<&'static str>, u64);

const SETTINGS: &[Settings] = &[
    ("x = 1, y = 1\n!", 0, 0, 0, None, 0),
    ("x=1,y=1,rule=B3/S23\n!", 0, 0, 0, LIFE, 0),
    (
        "#C a\n x = 1, y = 1, rule = B3/S23 \t\r\n!",
        0,
        0,
        0,
        LIFE,
        5,
    ),
    ("x = 1, y = 1, rule =\n!", 0, 0, 0, Some(""), 0),
    ("x = 1, y = 1, rule = a, b=c\n!", 0, 0, 0, Some("a, b=c"), 0),
    ("x = 1, y = 1, rule = B3\r\r\n", 0, 0, 0, Some("B3\r"), 0),
    (
        "#CXRLE Pos=-3,07 Gen=0012\nX = 1, Y = 1\n",
        -3,
        7,
        12,
        None,
        26,
    ),
    (
        "#CXRLE\tGen=1 Pos=1,2\tGen=3\nx = 1, y = 1\n",
        1,
        2,
        3,
        None,
        27,
    ),
    (
        "#CXRLE Pos=1,2\n#CXRLE Gen=5\n#CXRLEx Pos=3,4\nx=1,y=1",
        3,
        4,
        5,
        None,
        44,
    ),
];

// The first text whose lines before the body are read otherwise.
fn set_otherwise(rows: &[Settings]) -> Option<&'static str> {
    for (text, x, y, generation, rule, place) in rows {
        let first = Cell { x: *x, y: *y };
        if settings(text, *rule) != Some((first, *generation, true, *place)) {
            return Some(*text);
        }
    }
    None
}

#[test]
fn reads_the_lines_before_the_body(rt: HostRuntime) {
    assert_none(&rt, set_otherwise(SETTINGS));
}

/// Whether this comment, or none, is all that is kept of a text.
pub(super) fn keeps(text: &[u8], comment: &str) -> bool {
    match RleFile::open(text) {
        Ok(file) => are_only(file.comments(), comment),
        Err(_) => false,
    }
}

// Whether this comment, or none, is all that is kept of lines before a header.
fn keeps_before(alloc: Global, lines: &str, comment: &str) -> bool {
    match format!(in alloc; "{lines}x = 1, y = 1\n#C in the body\n!") {
        Ok(text) => keeps(text.as_bytes(), comment),
        Err(_) => false,
    }
}

// Lines before a header, and the comment that is kept, empty where none is.
const COMMENTS: &[(&str, &str)] = &[
    ("#C one\n", "#C one"),
    ("#C one\r\n", "#C one"),
    ("#C one\r\r\n", "#C one\r"),
    ("#CXRLE Pos=1,2\n", ""),
    ("#CXRL\n", "#CXRL"),
    ("#r 23/3\n", ""),
    ("#P 1 1\n#R x\n\n", ""),
    ("#N\n#r\n", "#N"),
    ("#Owner\n", "#Owner"),
    ("#D\n", "#D"),
];

// The first lines of which another comment is kept, or more than one.
fn kept_otherwise<'a>(alloc: Global, rows: &[(&'a str, &str)]) -> Option<&'a str> {
    for (lines, comment) in rows {
        if !keeps_before(alloc, lines, comment) {
            return Some(*lines);
        }
    }
    None
}

#[test]
fn keeps_comments(rt: HostRuntime) {
    assert_none(&rt, kept_otherwise(rt.alloc(), COMMENTS));
}
