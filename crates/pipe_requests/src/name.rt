//! The names of requests.

ghost use Rattle.std.specs.Prelude.{◌≡◌, IfNone, IfSome};
ghost use Rattle.pipe_requests.specs.Names.{IsName, name_of};

use std::str;

/// Which request it is.
#[derive(Clone, Copy, Debug, PartialEq, Eq)]
pub(crate) enum Name {
    Open,
    Advance,
    Generation,
    Rule,
    Population,
    Bounds,
    Window,
    Runs,
    Write,
    Picture,
    Period,
    Multiple,
    Same,
    Close,
}

impl Name {
    /// The name that a word is, if it is one.
    pub(crate) fn of(word: &[u8]) -> Option<Name>
        ensures some { IfSome result (λ name. word.now ≡ name_of name) }
        ensures none { IfNone result (IsName word.now → ⊥) }
    {
        match str::from_utf8(word) {
            Ok(text) => Name::of_text(text),
            Err(_) => None,
        }
    }

    fn of_text(text: &str) -> Option<Name>
        ensures some { IfSome result (λ name. text.now ≡ name_of name) }
        ensures none { IfNone result (IsName text.now → ⊥) }
    {
        match text {
            "open" => Some(Name::Open),
            "advance" => Some(Name::Advance),
            "generation" => Some(Name::Generation),
            "rule" => Some(Name::Rule),
            "population" => Some(Name::Population),
            "bounds" => Some(Name::Bounds),
            "window" => Some(Name::Window),
            "runs" => Some(Name::Runs),
            "write" => Some(Name::Write),
            "picture" => Some(Name::Picture),
            "period" => Some(Name::Period),
            "multiple" => Some(Name::Multiple),
            "same" => Some(Name::Same),
            "close" => Some(Name::Close),
            _ => None,
        }
    }
}
