//! The beginning of a text, and a text without the blanks at its ends.

ghost use Rattle.std.specs.Prelude.{◌≡◌};
ghost use Rattle.std.specs.List.{position};
ghost use Rattle.text_lines.specs.Bytes.{begins_with, is_blank, trimmed, trimmed_end};

use rule_text::{is_blank, trim_start};

/// Whether the text begins with these bytes.
pub fn begins_with(text: &[u8], front: &[u8]) -> bool
    ensures { result ≡ begins_with front.now text.now }
{
    text.strip_prefix(front).is_some()
}

/// The place of the first blank.
pub fn first_blank(text: &[u8]) -> Option<usize>
    ensures { result ≡ position is_blank text.now }
{
    text.iter().position(|byte| is_blank(*byte))
}

/// The text up to its last byte that is not a blank.
#[tactic(auto, using(crate::proofs::TrimLemmas::trimmed_ends))]
pub fn trim_end(text: &[u8]) -> &[u8]
    ensures { result.now ≡ trimmed_end text.now }
{
    let mut rest = text;
    while let Some((last, others)) = rest.split_last() {
        if !is_blank(*last) {
            return rest;
        }
        rest = others;
    }
    rest
}

/// The text without the blanks at its ends.
pub fn trim(text: &[u8]) -> &[u8]
    ensures { result.now ≡ trimmed text.now }
{
    trim_end(trim_start(text))
}
