//! A text on both sides of a byte.

ghost use Rattle.std.specs.Prelude.{◌≡◌, MatchOption, false, true};
ghost use Rattle.std.specs.List.{before_first, after_first, list_any, position};
ghost use Rattle.text_lines.specs.Bytes.{is_byte};

/// What stands before the first such byte, and what stands after it, if the text has one.
#[tactic(auto, using(crate::proofs::SplitLemmas::first_places))]
pub(crate) fn split_at_byte(text: &[u8], byte: u8) -> Option<(&[u8], &[u8])>
    ensures { MatchOption result (list_any (is_byte byte) text.now ≡ false)
        (λ parts. (list_any (is_byte byte) text.now ≡ true)
        × (parts.0.now ≡ before_first (is_byte byte) text.now)
        × (parts.1.now ≡ after_first (is_byte byte) text.now)) }
{
    let at = place_of_byte(text, byte)?;
    Some((&text[..at], &text[at + 1..]))
}

// The place of the first such byte.
fn place_of_byte(text: &[u8], byte: u8) -> Option<usize>
    ensures { result ≡ position (is_byte byte) text.now }
{
    text.iter().position(|other| *other == byte)
}
