//! The bytes of a body that count: without blanks, line ends and comments.

ghost use Rattle.std.specs.Prelude.{◌≡◌, ◌<◌, ◌≤◌, [], ◌∷◌, false, true, length, slice_index, MatchOption};
ghost use Rattle.rle_reader.specs.Body.{is_skipped, stripped_from};

use text_lines::{is_blank, line_length};

/// A byte and its place.
#[derive(Clone, Copy)]
pub struct LocatedByte {
    pub place: usize,
    pub byte: u8,
}

/// What is left of a body. No comment begins at `at`.
#[derive(Clone, Copy)]
pub(crate) struct Body<'a> {
    source: &'a [u8],
    at: usize,
    ghost in_range: { at ≤ length source.now },
}

impl<'a> Body<'a> {
    /// The body that begins at this place, which is the start of a line.
    pub(crate) fn new(source: &'a [u8], at: usize) -> Self
        requires { at ≤ length source.now }
        ensures source { result.source.now ≡ source.now }
        ensures bytes { stripped_from source.now result.at false
            ≡ stripped_from source.now at true }
    {
        Body {
            source,
            at: past_comments(source, at),
        }
    }

    /// The text that the body belongs to.
    pub(crate) fn source(&self) -> &'a [u8]
        ensures { result.now ≡ self.now.source.now }
    {
        self.source
    }

    /// Drops what is left.
    pub(crate) fn close(&mut self)
        ensures source { self.new.source.now ≡ self.old.source.now }
        ensures closed { stripped_from self.new.source.now self.new.at false ≡ [] }
    {
        self.at = self.source.len();
    }

    /// Takes the next byte that is not a blank, CR or LF and stands in no comment.
    pub(crate) fn next_byte(&mut self) -> Option<LocatedByte>
        ensures source { self.new.source.now ≡ self.old.source.now }
        ensures place { MatchOption result (self.old.at ≤ self.new.at)
            (λ next. (self.old.at ≤ next.place) × (next.place < self.new.at)) }
        ensures within { self.new.at ≤ length self.new.source.now }
        ensures bytes { MatchOption result
            ((stripped_from self.old.source.now self.old.at false ≡ [])
            × (stripped_from self.new.source.now self.new.at false ≡ []))
            (λ next. stripped_from self.old.source.now self.old.at false
            ≡ next ∷ stripped_from self.new.source.now self.new.at false) }
    {
        while self.at < self.source.len() {
            let place = self.at;
            let byte = self.source[place];
            if !is_skipped(byte) {
                self.at = place + 1;
                return Some(LocatedByte { place, byte });
            }
            self.at = past_skipped(self.source, place);
        }
        None
    }
}

/// The place behind a byte that counts for nothing, and behind the comments that follow it if it is
/// an LF.
pub(crate) fn past_skipped(source: &[u8], at: usize) -> usize
    requires within { at < length source.now }
    requires skipped { is_skipped (slice_index source.now at) ≡ true }
    ensures further { at < result }
    ensures within { result ≤ length source.now }
    ensures bytes { stripped_from source.now result false ≡ stripped_from source.now at false }
{
    if source[at] == b'\n' {
        past_comments(source, at + 1)
    } else {
        at + 1
    }
}

/// The place behind the comments that begin at this one, the start of a line.
pub(crate) fn past_comments(source: &[u8], at: usize) -> usize
    requires { at ≤ length source.now }
    ensures after { at ≤ result }
    ensures within { result ≤ length source.now }
    ensures bytes { stripped_from source.now result false ≡ stripped_from source.now at true }
{
    let mut place = at;
    while place < source.len() && source[place] == b'#' {
        let rest = &source[place..];
        place += (line_length(rest) + 1).min(rest.len());
    }
    place
}

/// Whether the byte is a blank, a CR or an LF.
pub(crate) fn is_skipped(byte: u8) -> bool
    ensures { result ≡ is_skipped byte }
{
    is_blank(byte) || byte == b'\r' || byte == b'\n'
}
