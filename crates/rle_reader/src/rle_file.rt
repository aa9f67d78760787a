//! A checked RLE file.

ghost use Rattle.std.specs.Prelude.{◌≡◌, ◌<◌, ◌≤◌, ◌^◌, length, IfOk, IfErr, OnOk};
ghost use Rattle.std.specs.List.{AllByRecursion};
ghost use Rattle.std.specs.Option.{option_copied};
ghost use Rattle.rle_reader.specs.LiveRuns.{LiesWithin, live_runs_of};
ghost use Rattle.rle_reader.specs.Meaning.{StayInRange, judged, live_plane};
ghost use Rattle.rle_reader.specs.Seen.{fault_in_body, live_runs_kept};
ghost use Rattle.rle_reader.specs.State.{start_at};
ghost use Rattle.plane.specs.Range.{IsInRange};
ghost use Rattle.plane.specs.Runs.{AreRuns, runs_plane};
ghost use Rattle.plane.specs.Square.{IsSame};

use crate::body::Body;
use crate::cursor::Cursor;
use crate::item::next_run;
use crate::live_runs::LiveRuns;
use crate::preamble::Preamble;
use crate::reach::{reach_of, rightmost};
use crate::runs::Runs;
use plane::{Cell, Fault};
use std::marker::Model;
use text_lines::{Comments, Lines};

/// An RLE file whose whole text was checked. What it hands out are slices of that text, and they
/// stay good after it is gone.
#[derive(Drop)]
pub struct RleFile<'a> {
    source: &'a [u8],
    preamble: Preamble<'a>,
    /// How far from 0 the coordinates of the live cells go, at most.
    reach: u64,
}

impl<'a> Model for RleFile<'a> {
    ghost use Rattle.std.specs.Prelude.{◌≡◌, ◌≤◌, ◌^◌, None, Ok, length};
    ghost use Rattle.std.specs.List.{AllByRecursion};
    ghost use Rattle.rle_reader.specs.LiveRuns.{LiesWithin, live_runs_of};
    ghost use Rattle.rle_reader.specs.Meaning.{Meaning, meaning_of};
    ghost use Rattle.rle_reader.specs.Preamble.{preamble_of};
    ghost use Rattle.text_lines.specs.Lines.{lines_from};
    ghost use Rattle.plane.specs.Range.{IsInRange};
    ghost use Rattle.rle_reader.specs.Seen.{fault_in_body, preamble_meaning};

    ghost Value = { Meaning };

    ghost view = { λ file.
        meaning_of file.source.now (preamble_meaning file.source.now file.preamble) };

    ghost invariant = { λ file. (file.preamble.body ≤ length file.source.now)
        × IsInRange file.preamble.settings.pos
        × (fault_in_body file.source.now file.preamble ≡ None)
        × (Ok (preamble_meaning file.source.now file.preamble)
        ≡ preamble_of (length file.source.now) (lines_from file.source.now 0))
        × (file.reach ≤ 2 ^ 62)
        × AllByRecursion (LiesWithin file.reach)
        (live_runs_of (meaning_of file.source.now (preamble_meaning file.source.now file.preamble))) };
}

impl<'a> RleFile<'a> {
    /// Checks a text. It refuses
    ///
    /// - `NotAPattern` where no line is the header, at the end of the text, and at the first line
    ///   that is not blank, no comment and does not begin with `x` or `X`;
    /// - `BadHeader` at any other malformed header line, and at a `#CXRLE` line with a malformed
    ///   `Pos=`;
    /// - `OutOfRange` at a `#CXRLE` line whose `Pos=` is outside the range, and at an item after
    ///   which the column or the row is above the limit, or of live cells in the row of the limit;
    /// - `BadGen` at a `#CXRLE` line whose `Gen=` is not a number or above the last generation;
    /// - `BadTag`, `MoreStates` and `BadCount` at an item whose tag is none, is one of more than
    ///   two states, or whose count is 0, and `BadCount` at a count that no tag follows;
    /// - `TooManyCells` at the item with which there are more live cells than a file may have.
    ///
    /// The first line or item with a fault is answered, and of its faults the one of the lowest
    /// number.
    pub fn open(source: &'a [u8]) -> Result<RleFile<'a>, Fault>
        ensures { result ≡ judged source.now }
    {
        let preamble = Preamble::read(source)?;
        let reach = check_body(source, &preamble)?;
        Ok(RleFile {
            source,
            preamble,
            reach,
        })
    }

    /// The cell of the first item, the upper left corner of the pattern's box; (0, 0) if the file
    /// does not say.
    #[tactic(auto, unfolding(crate::specs::Meaning::meaning_of))]
    pub fn pos(&self) -> Cell
        ensures value { result ≡ self.now.pos }
        ensures in_range { IsInRange self.now.pos }
    {
        self.preamble.settings.pos
    }

    /// The generation of the pattern, 0 if the file does not say.
    #[tactic(auto, unfolding(crate::specs::Meaning::meaning_of))]
    pub fn generation(&self) -> u64
        ensures { result ≡ self.now.generation }
    {
        self.preamble.settings.generation
    }

    /// The text of the rule, as it stands in the header, if it names one.
    #[tactic(auto, unfolding(crate::specs::Meaning::meaning_of))]
    pub fn rule_slice(&self) -> Option<&'a [u8]>
        ensures { option_copied result ≡ self.now.rule }
    {
        self.preamble.rule
    }

    /// The place of the header line, whether or not it names a rule.
    #[tactic(auto, unfolding(crate::specs::Meaning::meaning_of))]
    pub fn rule_place(&self) -> u64
        ensures { result ≡ self.now.rule_place }
    {
        self.preamble.header as u64
    }

    /// The comments that are kept: the lines before the header that begin with `#C`, `#D`, `#N` or
    /// `#O`, and not with `#CXRLE`.
    pub fn comments(&self) -> Comments<'a>
        ensures { result ≡ self.now.comments }
    {
        let before_header = &self.source[..self.preamble.header];
        Comments::new(Lines::new(before_header))
    }

    /// The items of the body. From the cell of the first one on they stay in the range of
    /// coordinates, and their live cells are no more than a file may have.
    pub fn runs(&self) -> Runs<'a>
        ensures value { result ≡ self.now.runs }
        ensures in_range { StayInRange self.now.pos.x (start_at self.now.pos) self.now.runs }
        ensures counted { AllByRecursion (λ run. 0 < run.count) self.now.runs }
    {
        Runs::new(self.source, self.preamble.body)
    }

    /// The live items, each as its first cell and how many cells it has to the right, in the order
    /// of reading.
    pub fn live_runs(&self) -> LiveRuns<'a>
        ensures value { result ≡ live_runs_of self.now }
        ensures runs { AreRuns result }
        ensures cells { IsSame (runs_plane result) (live_plane self.now) }
    {
        let preamble = &self.preamble;
        LiveRuns::new(self.source, preamble.body, preamble.settings.pos)
    }

    /// How far from 0 the coordinates of the live cells go, at most: all live cells lie in the
    /// square of that half side around (0, 0).
    #[tactic(auto, unfolding(crate::specs::Meaning::meaning_of))]
    pub fn reach(&self) -> u64
        ensures bound { result ≤ 2 ^ 62 }
        ensures within { AllByRecursion (LiesWithin result) (live_runs_of self.now) }
    {
        self.reach
    }
}

// Goes through the items, each with what comes before it, and answers how far from 0 the
// coordinates of the live cells go.
fn check_body(source: &[u8], preamble: &Preamble<'_>) -> Result<u64, Fault>
    requires body { preamble.now.body ≤ length source.now }
    requires in_range { IsInRange preamble.now.settings.pos }
    ensures ok { OnOk result (fault_in_body source.now preamble.now ≡ None) }
    ensures bound { IfOk result (λ reach. reach ≤ 2 ^ 62) }
    ensures reach { IfOk result (λ reach.
        AllByRecursion (LiesWithin reach) (live_runs_kept source.now preamble.now)) }
    ensures err { IfErr result (λ fault. fault_in_body source.now preamble.now ≡ Some fault) }
{
    let mut body = Body::new(source, preamble.body);
    let corner = preamble.settings.pos;
    let mut cursor = Cursor::new(corner);
    let mut right = corner.x;
    while let Some(run) = next_run(&mut body)? {
        cursor = match cursor.after(&run) {
            Ok(next) => next,
            Err(refusal) => {
                return Err(Fault {
                    refusal,
                    place: Some(run.place),
                });
            }
        };
        right = rightmost(right, cursor.column());
    }
    Ok(reach_of(corner, right, cursor.row()))
}
