//! Why a line is no request.

ghost use Rattle.std.specs.Prelude.{◌≡◌};
ghost use Rattle.pipe_requests.specs.Bad.{word_of};

/// Why a line is no request, or none here.
#[derive(Clone, Copy, Debug, PartialEq, Eq)]
pub enum Bad {
    /// The input ended before the line, or its block, did.
    Cut,
    /// The line is too long.
    Long,
    /// The first word is the name of no request.
    Name,
    /// The request has another number of words.
    Words,
    /// The word is the name of no format.
    Format,
    /// A word is no number, or one that is too small or too large.
    Number,
    /// No pattern is open.
    Closed,
}

impl Bad {
    /// The word that says it in a reply.
    pub fn word(self) -> &'static str
        ensures { result.now ≡ word_of self }
    {
        match self {
            Bad::Cut => "cut",
            Bad::Long => "long",
            Bad::Name => "name",
            Bad::Words => "words",
            Bad::Format => "format",
            Bad::Number => "number",
            Bad::Closed => "closed",
        }
    }
}
