//! The lines `#R`, `#G` and `#FRAMES`.

ghost use Rattle.std.specs.Prelude.{◌≡◌, OnOk, IfErr};
ghost use Rattle.plane.specs.declared.refusal.Refusal.{Refusal};
ghost use Rattle.text_lines.specs.Faults.{fault_at};
ghost use Rattle.macrocell_reader.specs.Seen.{said_seen};
ghost use Rattle.macrocell_reader.specs.Settings.{nothing_said, said_fault, after_line, generation_of};

use plane::{Fault, GENERATION_LIMIT, Refusal};
use text_lines::{Line, begins_with, fault_at, number, trim};

/// What the lines `#R` and `#G` say, of each the last.
#[derive(Clone, Copy)]
pub(crate) struct Settings<'a> {
    pub(crate) generation: u64,
    pub(crate) rule: Option<&'a [u8]>,
    /// Where the line of the rule begins; 0 where no line names a rule.
    pub(crate) rule_place: usize,
}

impl<'a> Settings<'a> {
    /// What holds where no line says otherwise.
    pub(crate) fn new() -> Self
        ensures { said_seen result ≡ nothing_said }
    {
        Settings {
            generation: 0,
            rule: None,
            rule_place: 0,
        }
    }

    /// Reads a line of any kind. It refuses
    ///
    /// - `FramesNotRead` a line that begins with `#FRAMES`;
    /// - `BadGen` a line `#G` whose rest is not a number or above the last generation.
    #[tactic(auto, unfolding(crate::specs::Settings::after_line, crate::specs::Settings::said_fault))]
    pub(crate) fn read_line(&mut self, line: Line<'a>) -> Result<(), Fault>
        ensures fault { IfErr result (λ fault. (refusal : Refusal)
            × (said_fault line.entry.text.now ≡ Some refusal)
            × (fault ≡ fault_at refusal line.entry.place)) }
        ensures accepted { OnOk result (said_fault line.entry.text.now ≡ None) }
        ensures settings { OnOk result (said_seen self.new ≡ after_line (said_seen self.old)
            (record { place = line.entry.place; text = line.entry.text.now })) }
    {
        if begins_with(line.text, b"#FRAMES") {
            return Err(fault_at(Refusal::FramesNotRead, line.place));
        }
        if let Some(rule) = line.text.strip_prefix(b"#R") {
            self.rule = Some(trim(rule));
            self.rule_place = line.place;
        }
        if let Some(text) = line.text.strip_prefix(b"#G") {
            self.generation = generation_of(text).ok_or(fault_at(Refusal::BadGen, line.place))?;
        }
        Ok(())
    }
}

// The generation that digits write, with blanks at their ends or none, if it is no more than the
// last generation.
#[tactic(auto, unfolding(crate::specs::Settings::generation_of))]
fn generation_of(text: &[u8]) -> Option<u64>
    ensures { result ≡ generation_of text.now }
{
    number(trim(text)).filter(|generation| *generation <= GENERATION_LIMIT)
}
