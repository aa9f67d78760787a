//! What stands before the body: blank lines, comments and the header line.

ghost use Rattle.std.specs.Prelude.{◌≡◌, ◌≤◌, length, IfOk, IfErr};
ghost use Rattle.std.specs.Option.{option_copied};
ghost use Rattle.text_lines.specs.Lines.{lines_from};
ghost use Rattle.rle_reader.specs.Seen.{rule_at, preamble_result};
ghost use Rattle.rle_reader.specs.Preamble.{stands_before_header, preamble_of};

use crate::header::header_rule;
use crate::settings::Settings;
use plane::{Fault, Refusal};
use text_lines::{Line, Lines, fault_at, is_blank_line, is_comment};

/// What stands before the body.
#[derive(Clone, Copy)]
pub(crate) struct Preamble<'a> {
    pub(crate) settings: Settings,
    /// The rule that the header names.
    pub(crate) rule: Option<&'a [u8]>,
    /// Where the header line begins.
    pub(crate) header: usize,
    /// Where the body begins.
    pub(crate) body: usize,
}

impl<'a> Preamble<'a> {
    /// Reads the lines up to the header.
    pub(crate) fn read(source: &'a [u8]) -> Result<Preamble<'a>, Fault>
        ensures preamble { preamble_result source.now result
            ≡ preamble_of (length source.now) (lines_from source.now 0) }
        ensures body { IfOk result (λ read. read.body ≤ length source.now) }
    {
        let mut lines = Lines::new(source);
        let mut settings = Settings::new();
        while let Some(line) = lines.next_line() {
            if !stands_before_header(line.text) {
                return Preamble::with_header(settings, line, lines.place());
            }
            settings = settings.after_line(line)?;
        }
        Err(fault_at(Refusal::NotAPattern, source.len()))
    }

    fn with_header(settings: Settings, line: Line<'a>, body: usize) -> Result<Preamble<'a>, Fault>
        ensures ok { IfOk result (λ read.
            (read.settings ≡ settings) × (read.header ≡ line.entry.place) × (read.body ≡ body)
            × (rule_at line.entry ≡ Ok (option_copied read.rule))) }
        ensures err { IfErr result (λ fault. rule_at line.entry ≡ Err fault) }
    {
        let rule = header_rule(line.text).map_err(|refusal| fault_at(refusal, line.place))?;
        Ok(Preamble {
            settings,
            rule,
            header: line.place,
            body,
        })
    }
}

/// Whether the line is empty or blank, or a comment.
#[tactic(auto, unfolding(crate::specs::Preamble::stands_before_header))]
pub(crate) fn stands_before_header(line: &[u8]) -> bool
    ensures { result ≡ stands_before_header line.now }
{
    is_comment(line) || is_blank_line(line)
}
