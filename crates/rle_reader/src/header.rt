//! The header line: `x = W, y = H` or `x = W, y = H, rule = R`.

ghost use Rattle.std.specs.Prelude.{◌≡◌};
ghost use Rattle.std.specs.List.{before_first};
ghost use Rattle.std.specs.Option.{option_copied};
ghost use Rattle.std.specs.Str.{byte};
ghost use Rattle.text_lines.specs.Bytes.{is_byte};
ghost use Rattle.rle_reader.specs.Header.{header_rule, rule_behind, begins_as_header, is_side, is_key, value_behind, seen_rule};

use crate::bytes::split_at_byte;
use plane::Refusal;
use text_lines::{number, trim, trim_start};

/// The rule of a header line, if it names one.
#[tactic(auto, unfolding(crate::specs::Header::header_rule))]
pub(crate) fn header_rule(line: &[u8]) -> Result<Option<&[u8]>, Refusal>
    ensures { seen_rule result ≡ header_rule line.now }
{
    if !begins_as_header(line) {
        return Err(Refusal::NotAPattern);
    }
    let Some((width, rest)) = split_at_byte(line, b',') else {
        return Err(Refusal::BadHeader);
    };
    if !is_side(width, b"x") || !is_side(until_comma(rest), b"y") {
        return Err(Refusal::BadHeader);
    }
    rule_behind(rest)
}

// What stands before the first comma, or all where there is none.
fn until_comma(text: &[u8]) -> &[u8]
    ensures { result.now ≡ before_first (is_byte (byte ",")) text.now }
{
    match split_at_byte(text, b',') {
        Some((front, _)) => front,
        None => text,
    }
}

// The rule that stands behind the next comma, if there is one.
#[tactic(auto, unfolding(crate::specs::Header::rule_behind))]
fn rule_behind(rest: &[u8]) -> Result<Option<&[u8]>, Refusal>
    ensures { seen_rule result ≡ rule_behind rest.now }
{
    let Some((_, part)) = split_at_byte(rest, b',') else {
        return Ok(None);
    };
    value_behind(part, b"rule")
        .map(Some)
        .ok_or(Refusal::BadHeader)
}

// Whether the line's first byte after blanks is `x` or `X`.
#[tactic(auto, unfolding(crate::specs::Header::begins_as_header))]
fn begins_as_header(line: &[u8]) -> bool
    ensures { result ≡ begins_as_header line.now }
{
    matches!(trim_start(line).first(), Some(b'x' | b'X'))
}

// Whether the part is the key, `=` and one or more digits.
#[tactic(auto, unfolding(crate::specs::Header::is_side))]
fn is_side(part: &[u8], key: &[u8]) -> bool
    ensures { result ≡ is_side key.now part.now }
{
    value_behind(part, key).is_some_and(|value| number(value).is_some())
}

// What stands behind `key =`, without the blanks at its ends. The key is in small letters; in the
// part they may stand in either case.
#[tactic(auto, unfolding(crate::specs::Header::value_behind))]
fn value_behind<'a>(part: &'a [u8], key: &[u8]) -> Option<&'a [u8]>
    ensures { option_copied result ≡ value_behind key.now part.now }
{
    let (name, value) = split_at_byte(part, b'=')?;
    is_key(trim(name), key).then(|| trim(value))
}

// Whether the name is the key, whichever its letters' case.
fn is_key(name: &[u8], key: &[u8]) -> bool
    ensures { result ≡ is_key key.now name.now }
{
    name.eq_ignore_ascii_case(key)
}
