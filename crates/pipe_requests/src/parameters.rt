//! The words of a line behind its first.

ghost use Rattle.std.specs.Prelude.{◌≡◌, [], ◌∷◌, IfErr, IfOk, OnOk};
ghost use Rattle.std.specs.Option.{option_copied};
ghost use Rattle.std.specs.List.{position};
ghost use Rattle.text_lines.specs.Bytes.{is_byte};
ghost use Rattle.pipe_requests.specs.Words.{HasNot, IsCut, words_behind};

use crate::bad::Bad;

const BLANK: u8 = b' ';

/// The first word of a text, and the text behind the blank that ends it, if there is one.
#[tactic(auto, using(crate::proofs::WordLemmas::words_by_blank))]
pub(crate) fn cut(text: &[u8]) -> (&[u8], Option<&[u8]>)
    ensures { IsCut text.now result.0.now (option_copied result.1) }
{
    match place_of_blank(text) {
        Some(place) => (&text[..place], Some(&text[place + 1..])),
        None => (text, None),
    }
}

// The place of the first blank.
fn place_of_blank(text: &[u8]) -> Option<usize>
    ensures { result ≡ position (is_byte 32) text.now }
{
    text.iter().position(|byte| *byte == BLANK)
}

/// There is no word. `Words` where there is one.
#[tactic(auto, using(crate::proofs::WordLemmas::words_some))]
pub(crate) fn none(rest: Option<&[u8]>) -> Result<(), Bad>
    ensures ok { OnOk result (words_behind (option_copied rest.entry) ≡ []) }
    ensures err { IfErr result (HasNot 0 (option_copied rest.entry)) }
{
    match rest {
        None => Ok(()),
        Some(_) => Err(Bad::Words),
    }
}

/// The one word. `Words` where there are more, or none.
pub(crate) fn one(rest: Option<&[u8]>) -> Result<&[u8], Bad>
    ensures ok { IfOk result (λ word.
        words_behind (option_copied rest.entry) ≡ word.now ∷ []) }
    ensures err { IfErr result (HasNot 1 (option_copied rest.entry)) }
{
    let (word, rest) = next(rest)?;
    none(rest)?;
    Ok(word)
}

/// The four words. `Words` where there are more or fewer.
pub(crate) fn four(rest: Option<&[u8]>) -> Result<(&[u8], &[u8], &[u8], &[u8]), Bad>
    ensures ok { IfOk result (λ words. words_behind (option_copied rest.entry)
        ≡ words.0.now ∷ words.1.now ∷ words.2.now ∷ words.3.now ∷ []) }
    ensures err { IfErr result (HasNot 4 (option_copied rest.entry)) }
{
    let (first, rest) = next(rest)?;
    let (second, rest) = next(rest)?;
    let (third, rest) = next(rest)?;
    let fourth = one(rest)?;
    Ok((first, second, third, fourth))
}

/// The first word, and the text behind it. `Words` where there is none.
pub(crate) fn next(rest: Option<&[u8]>) -> Result<(&[u8], Option<&[u8]>), Bad>
    ensures ok { IfOk result (λ parts. words_behind (option_copied rest.entry)
        ≡ parts.0.now ∷ words_behind (option_copied parts.1)) }
    ensures err { IfErr result (λ why. (why ≡ Bad.Words)
        × (words_behind (option_copied rest.entry) ≡ [])) }
{
    match rest {
        Some(text) => Ok(cut(text)),
        None => Err(Bad::Words),
    }
}
