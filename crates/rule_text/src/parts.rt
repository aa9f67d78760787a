//! The parts of a rule's text, found from its front on.

ghost use Rattle.std.specs.Prelude.{◌≡◌, IfSome, option_map, take_while};
ghost use Rattle.std.specs.List.{AllPass};
ghost use Rattle.std.specs.Char.{is_ascii_digit};
ghost use Rattle.std.specs.Option.{option_copied};
ghost use Rattle.rule_text.specs.RuleText.{capitals};
ghost use Rattle.rule_text.specs.RuleCut.{after_all, after_mark, runs_round_slash, runs_round_letter, both_runs, neighbourhood_cut, parts_of, seen_runs, seen_body, seen_parts};

use crate::blanks::trim_start;
use crate::neighbourhood::Neighbourhood;

/// The neighbourhood and the digits of a rule's text, the digits as they stand in it.
#[derive(Clone, Copy)]
pub(crate) struct Parts<'a> {
    pub(crate) neighbourhood: Neighbourhood,
    pub(crate) birth: &'a [u8],
    pub(crate) survival: &'a [u8],
}

// The digits of birth and of survival, and the text after them.
#[derive(Clone, Copy)]
struct Body<'a> {
    birth: &'a [u8],
    survival: &'a [u8],
    rest: &'a [u8],
}

// Two runs of digits, and the text after them.
#[derive(Clone, Copy)]
struct Runs<'a> {
    first: &'a [u8],
    second: &'a [u8],
    rest: &'a [u8],
}

/// The parts of a text in one of the forms of a rule's text, if it is in one of them.
pub(crate) fn find_parts(text: &[u8]) -> Option<Parts<'_>>
    ensures parts { option_map seen_parts result ≡ parts_of (capitals text.now) }
    ensures birth { IfSome result (λ parts. AllPass is_ascii_digit parts.birth.now) }
    ensures survival { IfSome result (λ parts. AllPass is_ascii_digit parts.survival.now) }
{
    let Body {
        birth,
        survival,
        rest,
    } = find_body(trim_start(text))?;
    let (neighbourhood, rest) = leading_neighbourhood(rest);
    if !trim_start(rest).is_empty() {
        return None;
    }
    Some(Parts {
        neighbourhood,
        birth,
        survival,
    })
}

// The digits of birth and of survival at the front of a text, in one of the five forms.
#[tactic(auto, unfolding(crate::specs::RuleCut::both_runs))]
fn find_body(text: &[u8]) -> Option<Body<'_>>
    ensures body { option_map seen_body result ≡ both_runs (capitals text.now) }
    ensures birth { IfSome result (λ found. AllPass is_ascii_digit found.birth.now) }
    ensures survival { IfSome result (λ found. AllPass is_ascii_digit found.survival.now) }
{
    if let Some(rest) = after_mark(text, b'B') {
        let runs = runs_round_letter(rest, b'S')?;
        return Some(Body {
            birth: runs.first,
            survival: runs.second,
            rest: runs.rest,
        });
    }
    let runs = match after_mark(text, b'S') {
        Some(rest) => runs_round_letter(rest, b'B')?,
        None => runs_round_slash(text)?,
    };
    Some(Body {
        birth: runs.second,
        survival: runs.first,
        rest: runs.rest,
    })
}

// Two runs of digits with a letter between them, before which a slash may stand.
#[tactic(auto, unfolding(crate::specs::RuleCut::runs_round_letter))]
fn runs_round_letter(text: &[u8], letter: u8) -> Option<Runs<'_>>
    ensures runs { option_map seen_runs result ≡ runs_round_letter letter (capitals text.now) }
    ensures first { IfSome result (λ runs. AllPass is_ascii_digit runs.first.now) }
    ensures second { IfSome result (λ runs. AllPass is_ascii_digit runs.second.now) }
{
    let (first, gap) = leading_digits(text);
    let gap = after_mark(gap, b'/').unwrap_or(gap);
    let (second, rest) = leading_digits(after_mark(gap, letter)?);
    Some(Runs {
        first,
        second,
        rest,
    })
}

// Two runs of digits with a slash between them.
#[tactic(auto, unfolding(crate::specs::RuleCut::runs_round_slash))]
fn runs_round_slash(text: &[u8]) -> Option<Runs<'_>>
    ensures runs { option_map seen_runs result ≡ runs_round_slash (capitals text.now) }
    ensures first { IfSome result (λ runs. AllPass is_ascii_digit runs.first.now) }
    ensures second { IfSome result (λ runs. AllPass is_ascii_digit runs.second.now) }
{
    let (first, gap) = leading_digits(text);
    let (second, rest) = leading_digits(after_mark(gap, b'/')?);
    Some(Runs {
        first,
        second,
        rest,
    })
}

// The neighbourhood by the letter at the front of a text, and the text after it. Without such a
// letter it is the eight cells round a cell.
#[tactic(auto, unfolding(crate::specs::RuleCut::neighbourhood_cut))]
fn leading_neighbourhood(text: &[u8]) -> (Neighbourhood, &[u8])
    ensures { (result.0, capitals result.1.now) ≡ neighbourhood_cut (capitals text.now) }
{
    if let Some(rest) = after_mark(text, b'M') {
        (Neighbourhood::Moore, rest)
    } else if let Some(rest) = after_mark(text, b'V') {
        (Neighbourhood::VonNeumann, rest)
    } else if let Some(rest) = after_mark(text, b'H') {
        (Neighbourhood::Hexagonal, rest)
    } else {
        (Neighbourhood::Moore, text)
    }
}

// The text after this mark at its front: a slash, or a capital or the same letter in lower case.
fn after_mark(text: &[u8], mark: u8) -> Option<&[u8]>
    ensures { option_map capitals (option_copied result) ≡ after_mark mark (capitals text.now) }
{
    let (first, rest) = text.split_first()?;
    if first.to_ascii_uppercase() == mark {
        Some(rest)
    } else {
        None
    }
}

// The digits at the front of a text, and the text after them.
fn leading_digits(text: &[u8]) -> (&[u8], &[u8])
    ensures digits { result.0.now ≡ take_while is_ascii_digit (capitals text.now) }
    ensures only_digits { AllPass is_ascii_digit result.0.now }
    ensures rest { capitals result.1.now ≡ after_all is_ascii_digit (capitals text.now) }
{
    let end = text
        .iter()
        .position(|byte| !byte.is_ascii_digit())
        .unwrap_or(text.len());
    text.split_at(end)
}
