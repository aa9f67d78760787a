//! Blank lines, comments, which are lines whose first byte is `#`, and the comments that are kept.

ghost use Rattle.std.specs.Prelude.{◌≡◌, [], ◌∷◌, MatchOption};
ghost use Rattle.std.specs.Iterator.{YieldsFirstRef, item_count};
ghost use Rattle.text_lines.specs.Comments.{comments_of, is_blank_line, is_comment, is_kept, is_settings_line};
ghost use Rattle.text_lines.specs.LinesLeft.{lines_left};

use crate::bytes::begins_with;
use crate::lines::Lines;
use rule_text::is_blank;
use std::marker::Model;

/// Whether the line is empty or has nothing but blanks.
pub fn is_blank_line(line: &[u8]) -> bool
    ensures { result ≡ is_blank_line line.now }
{
    line.iter().all(|byte| is_blank(*byte))
}

/// Whether the first byte of the line is `#`.
pub fn is_comment(line: &[u8]) -> bool
    ensures { result ≡ is_comment line.now }
{
    matches!(line.first(), Some(b'#'))
}

/// Whether the line begins with `#CXRLE`.
pub fn is_settings_line(line: &[u8]) -> bool
    ensures { result ≡ is_settings_line line.now }
{
    begins_with(line, b"#CXRLE")
}

// Whether the line is a comment that is kept: it begins with `#C`, `#D`, `#N` or `#O`, and not with
// `#CXRLE`.
#[tactic(auto, unfolding(crate::specs::Comments::is_kept))]
fn is_kept(line: &[u8]) -> bool
    ensures { result ≡ is_kept line.now }
{
    !is_settings_line(line)
        && (begins_with(line, b"#C")
            || begins_with(line, b"#D")
            || begins_with(line, b"#N")
            || begins_with(line, b"#O"))
}

/// The kept comments among the lines of a text, in order, each without its line end. A contract
/// sees the comments that are still to come.
#[derive(Drop)]
pub struct Comments<'a> {
    rest: Lines<'a>,
}

impl<'a> Model for Comments<'a> {
    ghost use Rattle.std.specs.Prelude.{List, ℕ};
    ghost use Rattle.text_lines.specs.Comments.{comments_of};
    ghost use Rattle.text_lines.specs.LinesLeft.{lines_left};

    ghost Value = { List (List ℕ) };

    ghost view = { λ comments. comments_of (lines_left comments.rest) };
}

impl<'a> Comments<'a> {
    /// The kept comments among these lines.
    pub fn new(lines: Lines<'a>) -> Self
        ensures { result ≡ comments_of (lines_left lines.entry) }
    {
        Comments { rest: lines }
    }
}

impl<'a> Iterator for Comments<'a> {
    type Item = &'a [u8];

    ghost next_gives = { YieldsFirstRef (λ comments. comments) };

    ghost remaining = { item_count (λ comments. comments) };

    fn next(&mut self) -> Option<&'a [u8]> {
        next_comment(&mut self.rest)
    }
}

// Takes lines up to the next kept comment, or all if there is none.
fn next_comment<'a>(lines: &mut Lines<'a>) -> Option<&'a [u8]>
    ensures { MatchOption result
        ((comments_of (lines_left lines.old) ≡ []) × (comments_of (lines_left lines.new) ≡ []))
        (λ comment. comments_of (lines_left lines.old)
        ≡ comment.now ∷ comments_of (lines_left lines.new)) }
{
    while let Some(line) = lines.next_line() {
        if is_kept(line.text) {
            return Some(line.text);
        }
    }
    None
}
