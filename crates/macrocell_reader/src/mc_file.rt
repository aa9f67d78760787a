//! A checked macrocell file.

ghost use Rattle.std.specs.Prelude.{◌≡◌, ◌⊎◌, [], map, IfOk, IfErr, OnOk};
ghost use Rattle.std.specs.Option.{option_copied};
ghost use Rattle.plane.specs.declared.refusal.Refusal.{Refusal};
ghost use Rattle.text_lines.specs.Faults.{fault_at};
ghost use Rattle.text_lines.specs.LinesLeft.{lines_left};
ghost use Rattle.macrocell_reader.specs.Meaning.{judged, first_fault, levels_after, is_node_line, node_line_fault};
ghost use Rattle.macrocell_reader.specs.NodeFaults.{StandInOrder};
ghost use Rattle.macrocell_reader.specs.Seen.{said_seen, out_of_memory};
ghost use Rattle.macrocell_reader.specs.Settings.{after_lines, nothing_said};

use crate::node_faults::level_of_line;
use crate::node_lines::NodeLines;
use crate::settings::Settings;
use plane::{Fault, Refusal};
use std::alloc::Global;
use std::marker::Model;
use text_lines::{Comments, Line, Lines, begins_with, fault_at, is_blank_line, is_comment};

/// A macrocell file whose whole text was checked. What it hands out are slices of that text, and
/// they stay good after it is gone.
#[derive(Drop)]
pub struct McFile<'a> {
    /// The lines after the first.
    body: Lines<'a>,
    settings: Settings<'a>,
}

impl<'a> Model for McFile<'a> {
    ghost use Rattle.std.specs.Prelude.{◌≡◌, None, []};
    ghost use Rattle.text_lines.specs.LinesLeft.{lines_left};
    ghost use Rattle.macrocell_reader.specs.Meaning.{Meaning, meaning_with, first_fault};
    ghost use Rattle.macrocell_reader.specs.Seen.{said_seen};

    ghost Value = { Meaning };

    ghost view = { λ file. meaning_with (said_seen file.settings) (lines_left file.body) };

    ghost invariant = { λ file. first_fault [] (lines_left file.body) ≡ None };
}

impl<'a> McFile<'a> {
    /// Checks a text. It takes memory for the levels of its nodes, a byte for each, and gives it
    /// back; where there is none, it refuses `NoMemory` without a place. Else it refuses
    ///
    /// - `NotAPattern` at 0 where the text does not begin with `[M2]`;
    /// - `FramesNotRead` at a line that begins with `#FRAMES`;
    /// - `BadGen` at a line `#G` whose rest is not a number or above the last generation;
    /// - `OutOfRange` at a line of an inner node of a level above 63;
    /// - `TooManyCells` at a node line whose number is 2^32;
    /// - `BadNodeLine` at another line that is neither blank, nor a comment, a leaf or an inner
    ///   node of level 4 or more;
    /// - `BadChild` at an inner node with a quadrant that is neither 0 nor the number of an
    ///   earlier node one level lower.
    ///
    /// The first line with a fault is answered, and of its faults the first in the order of this
    /// list.
    pub fn open(alloc: Global, source: &'a [u8]) -> Result<McFile<'a>, Fault>
        ensures accepted { IfOk result (λ file. judged source.now ≡ Ok file) }
        ensures refused { IfErr result (λ fault.
            (judged source.now ≡ Err fault) ⊎ (fault ≡ out_of_memory)) }
    {
        if !begins_with(source, b"[M2]") {
            return Err(fault_at(Refusal::NotAPattern, 0));
        }
        let mut body = Lines::new(source);
        let _first = body.next_line();
        let settings = check_lines(alloc, body)?;
        Ok(McFile { body, settings })
    }

    /// The generation of the pattern, 0 if the file does not say.
    pub fn generation(&self) -> u64
        ensures { result ≡ self.now.generation }
    {
        self.settings.generation
    }

    /// The text of the rule, as it stands in the last `#R` line, without blanks at its ends.
    pub fn rule_slice(&self) -> Option<&'a [u8]>
        ensures { option_copied result ≡ self.now.rule }
    {
        self.settings.rule
    }

    /// The place of the last `#R` line, 0 if there is none.
    pub fn rule_place(&self) -> u64
        ensures { result ≡ self.now.rule_place }
    {
        self.settings.rule_place as u64
    }

    /// The comments that are kept: the lines that begin with `#C`, `#D`, `#N` or `#O`, and not with
    /// `#CXRLE`.
    pub fn comments(&self) -> Comments<'a>
        ensures { result ≡ self.now.comments }
    {
        Comments::new(self.body)
    }

    /// The node lines, in order. Node line k, counted from 1, is node k, and the last is the root.
    /// Each is without fault after those before it: its quadrants are 0 or earlier nodes, one level
    /// lower.
    pub fn lines(&self) -> NodeLines<'a>
        ensures value { result ≡ self.now.nodes }
        ensures in_order { StandInOrder [] (map (λ line. line.node) self.now.nodes) }
    {
        NodeLines::new(self.body)
    }
}

// Checks lines, each with the nodes before it, and gives what they say.
fn check_lines<'a>(alloc: Global, body: Lines<'a>) -> Result<Settings<'a>, Fault>
    ensures accepted { IfOk result (λ settings.
        (first_fault [] (lines_left body.entry) ≡ None)
        × (said_seen settings ≡ after_lines nothing_said (lines_left body.entry))) }
    ensures refused { IfErr result (λ fault.
        (first_fault [] (lines_left body.entry) ≡ Some fault) ⊎ (fault ≡ out_of_memory)) }
{
    let mut lines = body;
    let mut settings = Settings::new();
    let mut levels = Vec::new(alloc);
    while let Some(line) = lines.next_line() {
        settings.read_line(line)?;
        add_level(&mut levels, line)?;
    }
    Ok(settings)
}

// Adds the level of a line to those of the nodes before it, if it is a node line.
fn add_level(levels: &mut Vec<u8>, line: Line<'_>) -> Result<(), Fault>
    ensures accepted { OnOk result ((node_line_fault levels.old.items line.entry.text.now ≡ None)
        × (levels.new.items ≡ levels_after levels.old.items line.entry.text.now)) }
    ensures refused { IfErr result (λ fault. ((refusal : Refusal)
        × (node_line_fault levels.old.items line.entry.text.now ≡ Some refusal)
        × (fault ≡ fault_at refusal line.entry.place)) ⊎ (fault ≡ out_of_memory)) }
{
    if is_node_line(line.text) {
        let found = level_of_line(levels, line.text);
        let level = found.map_err(|refusal| fault_at(refusal, line.place))?;
        levels.push(level).map_err(|error| Refusal::from(error))?;
    }
    Ok(())
}

// Whether the line is neither blank nor a comment.
fn is_node_line(line: &[u8]) -> bool
    ensures { result ≡ is_node_line line.now }
{
    !(is_blank_line(line) || is_comment(line))
}
