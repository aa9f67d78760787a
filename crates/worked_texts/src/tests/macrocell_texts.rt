//! Macrocell texts, and what they are read as.

use super::{are_only, assert_none, bytes_of};
use macrocell_reader::McFile;
use plane::Refusal;
use std::alloc::Global;

/// The refusal of a text, and its place.
pub(super) fn refused(alloc: Global, text: &str) -> Option<(Refusal, u64)> {
    match McFile::open(alloc, text.as_bytes()) {
        Ok(_) => None,
        Err(fault) => Some((fault.refusal, fault.place.unwrap_or(u64::MAX))),
    }
}

const REFUSED: &[(&str, Refusal, u64)] = &[
    ("", Refusal::NotAPattern, 0),
    ("[M2", Refusal::NotAPattern, 0),
    ("\n[M2]\n", Refusal::NotAPattern, 0),
    ("x = 1, y = 1\n!", Refusal::NotAPattern, 0),
    ("[M2]\n*$\n4 0 0 0 2\n", Refusal::BadChild, 8),
    ("[M2]\n*$\n4 0 0 0 9\n", Refusal::BadChild, 8),
    ("[M2]\n*$\n5 0 0 0 1\n", Refusal::BadChild, 8),
    ("[M2]\n*$\n3 0 0 0 0\n", Refusal::BadNodeLine, 8),
    ("[M2]\n*$\n#FRAMES\n", Refusal::FramesNotRead, 8),
    ("[M2]\n*$\n#FRAMESx 1\n", Refusal::FramesNotRead, 8),
    ("[M2]\n*$\n64 0 0 0 0\n", Refusal::OutOfRange, 8),
    ("[M2]\n4 1 0 0 0\n", Refusal::BadChild, 5),
    ("[M2]\n4 0 0 0 1\n*$\n", Refusal::BadChild, 5),
    ("[M2]\n4 99999999999999999999 0 0 0\n", Refusal::BadChild, 5),
    ("[M2]\n4 18446744073709551617 0 0 0\n", Refusal::BadChild, 5),
    (
        "[M2]\n99999999999999999999 0 0 0 0\n",
        Refusal::OutOfRange,
        5,
    ),
    ("[M2]\n260 0 0 0 0\n", Refusal::OutOfRange, 5),
    ("[M2]\n64 9 9 9 9\n", Refusal::OutOfRange, 5),
    ("[M2]\n64 0 0 0\n", Refusal::BadNodeLine, 5),
    ("[M2]\n4 0 0 0 0 0\n", Refusal::BadNodeLine, 5),
    ("[M2]\n4 0 0 0 -1\n", Refusal::BadNodeLine, 5),
    ("[M2]\n4,0,0,0,0\n", Refusal::BadNodeLine, 5),
    ("[M2]\n0 0 0 0 9\n", Refusal::BadNodeLine, 5),
    ("[M2]\n 4 0 0 0 0\n", Refusal::BadNodeLine, 5),
    ("[M2]\n *$\n", Refusal::BadNodeLine, 5),
    ("[M2]\n #C one\n", Refusal::BadNodeLine, 5),
    ("[M2]\no$\n", Refusal::BadNodeLine, 5),
    ("[M2]\n*b$\n", Refusal::BadNodeLine, 5),
    ("[M2]\n* $\n", Refusal::BadNodeLine, 5),
    ("[M2]\n.........$\n", Refusal::BadNodeLine, 5),
    ("[M2]\n$$$$$$$$$\n", Refusal::BadNodeLine, 5),
    ("[M2]\n$$$$$$$$.\n", Refusal::BadNodeLine, 5),
    ("[M2]\n\r\r\n*$\n", Refusal::BadNodeLine, 5),
    ("[M2]\n*$\r\r\n", Refusal::BadNodeLine, 5),
    ("[M2]\n#G\n", Refusal::BadGen, 5),
    ("[M2]\n#G 1 2\n", Refusal::BadGen, 5),
    ("[M2]\n#G -1\n", Refusal::BadGen, 5),
    ("[M2]\n#Golly\n", Refusal::BadGen, 5),
    ("[M2]\n#G 9223372036854775809\n#G 1\n", Refusal::BadGen, 5),
    ("[M2]\n#G 99999999999999999999\n", Refusal::BadGen, 5),
    ("[M2]\n#G x\n#FRAMES\n", Refusal::BadGen, 5),
    ("[M2]\n*$\n4 0 0 0 1\n#G x\n3\n", Refusal::BadGen, 18),
];

// The first text that is refused otherwise, and how.
fn refused_otherwise<'a>(
    alloc: Global,
    rows: &[(&'a str, Refusal, u64)],
) -> Option<(&'a str, Option<(Refusal, u64)>)> {
    for (text, refusal, place) in rows {
        let answer = refused(alloc, text);
        if answer != Some((*refusal, *place)) {
            return Some((*text, answer));
        }
    }
    None
}

#[test]
fn refuses_lines(rt: HostRuntime) {
    assert_none(&rt, refused_otherwise(rt.alloc(), REFUSED));
}

const ACCEPTED: &[&str] = &[
    "[M2]",
    "[M2] (golly 2.0)\r\n",
    "[M2]x = 1, y = 1\n",
    "[M2]\n\n \t\n\r\n*$\n",
    "[M2]\n63 0 0 0 0\n",
    "[M2]\n0004   0\t000000000000000000000000 0 0 \t\n",
    "[M2]\n********$********$********$********$********$********$********$********$ \n",
    "[M2]\n$$$$$$$$\n4 1 1 1 1\n5 2 0 2 0\n$\n4 1 4 0 4\n",
    "[M2]\n#R nothing of a rule\n#G 9223372036854775808\n#x\n#",
];

// The first text that is refused, and how.
fn first_refused<'a>(alloc: Global, texts: &[&'a str]) -> Option<(&'a str, (Refusal, u64))> {
    for text in texts {
        if let Some(refusal) = refused(alloc, text) {
            return Some((*text, refusal));
        }
    }
    None
}

#[test]
fn accepts(rt: HostRuntime) {
    assert_none(&rt, first_refused(rt.alloc(), ACCEPTED));
}

// What the lines of settings say: the generation, whether the rule's text is this one, and its
// place.
fn settings(alloc: Global, text: &str, rule: Option<&str>) -> Option<(u64, bool, u64)> {
    match McFile::open(alloc, text.as_bytes()) {
        Ok(file) => Some(settings_of(&file, rule)),
        Err(_) => None,
    }
}

fn settings_of(file: &McFile<'_>, rule: Option<&str>) -> (u64, bool, u64) {
    let is_rule = file.rule_slice() == bytes_of(rule);
    (file.generation(), is_rule, file.rule_place())
}

// Texts, each with its generation, its rule and the rule's place.
const SETTINGS: &[(&str, u64, Option<&str>, u64)] = &[
    ("[M2]\n*$\n", 0, None, 0),
    ("[M2] (golly 2.0)\n#R B3/S23\n", 0, Some("B3/S23"), 17),
    ("[M2]\n#R\t B3/S23 \t\r\n#G 007 \r\n", 7, Some("B3/S23"), 5),
    ("[M2]\n#R a\n#G 3\n*$\n#R b\n#G5\n#r c\n", 5, Some("b"), 18),
    ("[M2]\n#Rule of thumb", 0, Some("ule of thumb"), 5),
    ("[M2]\n#R\n", 0, Some(""), 5),
    ("[M2]#R a\n#Rb\n", 0, Some("b"), 9),
];

// The first text whose settings are read otherwise.
fn set_otherwise<'a>(alloc: Global, rows: &[(&'a str, u64, Option<&str>, u64)]) -> Option<&'a str> {
    for (text, generation, rule, place) in rows {
        if settings(alloc, text, *rule) != Some((*generation, true, *place)) {
            return Some(*text);
        }
    }
    None
}

#[test]
fn reads_settings(rt: HostRuntime) {
    assert_none(&rt, set_otherwise(rt.alloc(), SETTINGS));
}

// Whether this comment, or none, is all that is kept of a text.
fn keeps(alloc: Global, text: &str, comment: &str) -> bool {
    match McFile::open(alloc, text.as_bytes()) {
        Ok(file) => are_only(file.comments(), comment),
        Err(_) => false,
    }
}

// Texts, and the comment that is kept, empty where none is.
const COMMENTS: &[(&str, &str)] = &[
    ("[M2]\n#C one\n", "#C one"),
    ("[M2]\n#C one\r\n", "#C one"),
    ("[M2]\n#C one\r\r\n", "#C one\r"),
    ("[M2]\n#CXRLE Pos=1,2\n", ""),
    ("[M2]\n#r 23/3\n*$\n#P\n", ""),
    ("[M2]\n*$\n#N", "#N"),
    ("[M2]\n#Owner\n4 0 0 0 0\n", "#Owner"),
    ("[M2]\n#D\n", "#D"),
];

// The first text of which another comment is kept, or more than one.
fn kept_otherwise<'a>(alloc: Global, rows: &[(&'a str, &str)]) -> Option<&'a str> {
    for (text, comment) in rows {
        if !keeps(alloc, text, comment) {
            return Some(*text);
        }
    }
    None
}

#[test]
fn keeps_comments(rt: HostRuntime) {
    assert_none(&rt, kept_otherwise(rt.alloc(), COMMENTS));
}

// What a text is refused with, the second time if memory ran out the first time, and how often it
// ran out.
fn refused_again(alloc: Global, text: &str) -> (Option<(Refusal, u64)>, u32) {
    let answer = refused(alloc, text);
    if answer == Some((Refusal::NoMemory, u64::MAX)) {
        (refused(alloc, text), 1)
    } else {
        (answer, 0)
    }
}

// The first text that is refused otherwise, and how often memory ran out before.
fn first_and_misses<'a>(
    alloc: Global,
    rows: &[(&'a str, Option<(Refusal, u64)>)],
) -> (Option<&'a str>, u32) {
    let mut misses = 0u32;
    for (text, wanted) in rows {
        let (answer, missed) = refused_again(alloc, text);
        misses = misses.saturating_add(missed);
        if answer != *wanted {
            return (Some(*text), misses);
        }
    }
    (None, misses)
}

// Texts whose reading takes memory, and what they are refused with.
const GROWING: &[(&str, Option<(Refusal, u64)>)] = &[
    ("[M2]\n*$\n4 0 0 0 1\n5 0 0 0 2\n", None),
    ("[M2]\n*$\n3\n", Some((Refusal::BadNodeLine, 8))),
    (
        "[M2]\n$\n$\n$\n$\n$\n$\n$\n$\n$\n$\n$\n$\n$\n$\n$\n$\n$\n$\n$\n$\n$\n$\n$\n$\n#G x",
        Some((Refusal::BadGen, 53)),
    ),
    ("[M2]\n#G x\n*$\n", Some((Refusal::BadGen, 5))),
];

// In a plain run of the tests there is memory. `rt try --test --fail-alloc N --
// says_when_memory_runs_out` makes the Nth allocation fail: the answer is then `NoMemory` without
// a place, and that of a run with memory the next time.
#[test]
fn says_when_memory_runs_out(rt: HostRuntime) {
    let (first, misses) = first_and_misses(rt.alloc(), GROWING);
    assert_none(&rt, first);
    assert!(rt; misses <= 1);
}
