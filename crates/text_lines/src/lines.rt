//! The lines of a text.

ghost use Rattle.std.specs.Prelude.{◌≡◌, ◌<◌, ◌≤◌, [], ◌∷◌, length, MatchOption};
ghost use Rattle.std.specs.List.{position_or_len};
ghost use Rattle.text_lines.specs.Lines.{is_line_feed, lines_from, without_return};

use memchr::memchr;

/// A line: the place of its first byte, and its bytes without its line end.
#[derive(Clone, Copy)]
pub struct Line<'a> {
    /// The index of its first byte in the text.
    pub place: usize,
    pub text: &'a [u8],
}

/// The lines of a text from a place on. A line goes up to the next LF or to the end of the text,
/// and one CR at its end is left out.
#[derive(Clone, Copy)]
pub struct Lines<'a> {
    /// The whole text.
    pub source: &'a [u8],
    /// Where the next line begins; the text's length where no line is left.
    pub at: usize,
    ghost in_range: { at ≤ length source.now },
}

impl<'a> Lines<'a> {
    /// All lines of a text.
    pub fn new(source: &'a [u8]) -> Self
        ensures source { result.source.now ≡ source.now }
        ensures start { result.at ≡ 0 }
    {
        Lines { source, at: 0 }
    }

    /// Where the next line begins.
    pub fn place(&self) -> usize
        ensures place { result ≡ self.now.at }
        ensures within { result ≤ length self.now.source.now }
    {
        self.at
    }

    /// Takes the next line, if there is one.
    pub fn next_line(&mut self) -> Option<Line<'a>>
        ensures source { self.new.source.now ≡ self.old.source.now }
        ensures place { MatchOption result (self.new.at ≡ self.old.at)
            (λ line. (line.place ≡ self.old.at) × (self.old.at < self.new.at)) }
        ensures line { MatchOption result
            (lines_from self.old.source.now self.old.at ≡ [])
            (λ line. lines_from self.old.source.now self.old.at
            ≡ record { place = line.place; text = line.text.now }
            ∷ lines_from self.new.source.now self.new.at) }
    {
        let rest = &self.source[self.at..];
        if rest.is_empty() {
            return None;
        }
        let place = self.at;
        let length = line_length(rest);
        self.at = place + (length + 1).min(rest.len());
        Some(Line {
            place,
            text: without_return(&rest[..length]),
        })
    }
}

/// How many bytes stand before the first LF, or how many there are if there is none.
pub fn line_length(text: &[u8]) -> usize
    ensures value { result ≡ position_or_len is_line_feed text.now }
    ensures within { result ≤ length text.now }
{
    memchr(b'\n', text).unwrap_or(text.len())
}

// The line without one CR at its end.
#[tactic(auto, unfolding(crate::specs::Lines::without_return))]
fn without_return(line: &[u8]) -> &[u8]
    ensures { result.now ≡ without_return line.now }
{
    line.strip_suffix(b"\r").unwrap_or(line)
}
