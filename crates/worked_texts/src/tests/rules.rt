//! Texts of rules, and what they are read as.

use super::{assert_none, assert_same};
use rule_text::{Rule, RuleFault};
use std::alloc::{AllocError, Global};

// What a text of a rule is read as: its canonical text and its code.
const RULES: &[(&str, &str, u32)] = &[
    ("B3/S23", "B3/S23", 6152),
    ("b3s23", "B3/S23", 6152),
    ("23/3", "B3/S23", 6152),
    ("S23/B3", "B3/S23", 6152),
    ("S32B33", "B3/S23", 6152),
    ("B3/S23M", "B3/S23", 6152),
    ("B63/S23", "B36/S23", 6216),
    ("B1/SV", "B1/SV", 262146),
    ("34/2h", "B2/S34H", 536580),
    ("/", "B/S", 0),
    ("3/", "B/S3", 4096),
];

// The faults of texts that are not rules.
const FAULTS: &[(&str, RuleFault)] = &[
    ("", RuleFault::BadRule),
    ("B3", RuleFault::BadRule),
    ("B3/23", RuleFault::BadRule),
    ("B3 /S23", RuleFault::BadRule),
    ("233", RuleFault::BadRule),
    ("B3/S235V", RuleFault::BadRule),
    ("B7/SH", RuleFault::BadRule),
    ("B09/S23", RuleFault::BadRule),
    ("B3/S23:T30,20", RuleFault::BadRule),
    ("B3/S23VH", RuleFault::BadRule),
    ("Life", RuleFault::BadRule),
    ("B03/S23", RuleFault::BirthOnZero),
    ("3/0", RuleFault::BirthOnZero),
];

// Whether the rule that a text is read as has this canonical text, and its code.
fn read_and_written(text: &str, canonical: &str) -> Option<(bool, u32)> {
    match Rule::read(text.as_bytes()) {
        Ok(rule) => Some((rule.text().as_str() == canonical, rule.code())),
        Err(_) => None,
    }
}

// The first text that is read as another rule, and what it is read as.
fn read_otherwise<'a>(rows: &[(&'a str, &str, u32)]) -> Option<(&'a str, Option<(bool, u32)>)> {
    for (text, canonical, code) in rows {
        let rule = read_and_written(text, canonical);
        if rule != Some((true, *code)) {
            return Some((*text, rule));
        }
    }
    None
}

#[test]
fn reads_and_writes_rules(rt: HostRuntime) {
    assert_none(&rt, read_otherwise(RULES));
}

// The fault of a text, if it has one.
fn fault_of(text: &str) -> Option<RuleFault> {
    Rule::read(text.as_bytes()).err()
}

// The first text that has another fault, and the fault.
fn faulty_otherwise<'a>(rows: &[(&'a str, RuleFault)]) -> Option<(&'a str, Option<RuleFault>)> {
    for (text, fault) in rows {
        let found = fault_of(text);
        if found != Some(*fault) {
            return Some((*text, found));
        }
    }
    None
}

#[test]
fn names_faults(rt: HostRuntime) {
    assert_none(&rt, faulty_otherwise(FAULTS));
}

fn messages(alloc: Global) -> Result<String, AllocError> {
    let bad_rule = RuleFault::BadRule;
    let birth_on_zero = RuleFault::BirthOnZero;
    format!(in alloc; "{bad_rule}, {birth_on_zero}")
}

#[test]
fn says_faults(rt: HostRuntime) {
    assert_same(
        &rt,
        messages(rt.alloc()).as_deref(),
        Ok("not a rule, birth on zero neighbours"),
    );
}

#[test]
fn leaves_blanks_out(rt: HostRuntime) {
    assert_same(&rt, Rule::read(b" \tB3/S23V\t "), Rule::read(b"23/3v"));
}

// How long the canonical text of a rule is.
fn text_length(text: &str) -> Option<usize> {
    match Rule::read(text.as_bytes()) {
        Ok(rule) => Some(rule.text().len()),
        Err(_) => None,
    }
}

#[test]
fn longest_text(rt: HostRuntime) {
    assert_same(&rt, text_length("B12345678/S012345678"), Some(20));
}

// Whether a dead and a live cell with so many live neighbours live on by the rule of Life.
fn fates(count: u8) -> Option<(bool, bool)> {
    match Rule::read(b"B3/S23") {
        Ok(life) => Some((life.lives(false, count), life.lives(true, count))),
        Err(_) => None,
    }
}

// The first number of live neighbours with other fates, and these.
fn fated_otherwise() -> Option<(u8, Option<(bool, bool)>)> {
    for count in 0..9 {
        let found = fates(count);
        if found != Some((count == 3, count == 2 || count == 3)) {
            return Some((count, found));
        }
    }
    None
}

#[test]
fn lives_by_its_digits(rt: HostRuntime) {
    assert_none(&rt, fated_otherwise());
}

// How many neighbours a cell has by the rule of a text.
fn most_neighbours(text: &str) -> Option<u8> {
    match Rule::read(text.as_bytes()) {
        Ok(rule) => Some(rule.neighbourhood().neighbour_count()),
        Err(_) => None,
    }
}

#[test]
fn counts_neighbours(rt: HostRuntime) {
    for (text, most) in [("/", 8), ("/V", 4), ("/H", 6)] {
        assert_same(&rt, (text, most_neighbours(text)), (text, Some(most)));
    }
}
