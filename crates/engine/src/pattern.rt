//! A pattern, as live cells at rest.

ghost use Rattle.std.specs.Prelude.{◌≡◌, ◌<◌, ◌≤◌, None, IfOk, IfErr, OnErr, OnOk, IsOkUnless};
ghost use Rattle.node_table.specs.Openings.{SaysAll};
ghost use Rattle.plane.specs.Square.{IsSame};
ghost use Rattle.node_table.specs.Stills.{book_in};
ghost use Rattle.squares.specs.Book.{IsKnown};
ghost use Rattle.squares.specs.Roots.{square_plane};
ghost use Rattle.universe.specs.Cells.{known_by, resting_limit, resting_rule, shown_by};
ghost use Rattle.universe.specs.Rests.{IsAtRest};
ghost use Rattle.viewport.specs.Population.{HasPopulation};
ghost use Rattle.viewport.specs.RowRuns.{AreRowRuns};
ghost use Rattle.viewport.specs.Rows.{IsFirstRow};
ghost use Rattle.viewport.specs.BoundingBox.{HasBounds};

use crate::options::Format;
use node_table::Still;
use pattern_writers::{write_mc, write_rle};
use plane::{Bounds, Refusal, Sink, Window};
use rule_text::Rule;
use squares::Sq;
use std::alloc::{AllocError, Global};
use std::thread::Threads;
use text_lines::Comments;
use universe::{Resting, Universe};

/// Live cells in the range, at rest.
#[derive(Drop)]
pub struct Pattern {
    resting: Resting,
}

/// What stands in a pattern file before its cells.
#[derive(Drop)]
pub struct Heading<'a> {
    pub comments: Comments<'a>,
    pub rule: Rule,
    pub generation: u64,
}

impl Pattern {
    ghost use Rattle.plane.specs.Device.{AppendsBeginning, TellsFailure};
    ghost use Rattle.pattern_writers.specs.Output.{IfTaken};
    ghost use Rattle.pattern_writers.specs.Output.{IsWriterRefusal};
    ghost use Rattle.engine.specs.Formats.{Exceeds, HasText, format_of};
    ghost use Rattle.engine.specs.Pattern.{StandsAlone, plane_of, square_of, words_of};
    ghost use Rattle.engine.specs.Report.{window_text};
    ghost use Rattle.std.specs.Io.KnownBytes.{Appends};

    /// The live cells of a universe, which may go on later. Nothing is copied.
    pub(crate) fn of(universe: Universe) -> Pattern
        ensures same { IsAtRest universe result.resting }
        ensures shows { SaysAll (known_by universe) (shown_by result.resting) }
    {
        Pattern {
            resting: universe.rest(),
        }
    }

    /// The universe, at work again.
    pub(crate) fn resume(self, alloc: Global) -> Result<Universe, AllocError>
        ensures same { IfOk result (λ universe. IsAtRest universe self.resting) }
        ensures knows { IfOk result
            (λ universe. SaysAll (shown_by self.resting) (known_by universe)) }
    {
        self.resting.resume(alloc)
    }

    /// Only the words that hold these cells: all other tables are freed.
    pub(crate) fn without_other_tables(self, alloc: Global) -> Pattern
        ensures cells { plane_of result ≡ plane_of self }
        ensures rule { resting_rule result.resting ≡ resting_rule self.resting }
        ensures limit { resting_limit result.resting ≡ resting_limit self.resting }
        ensures alone { StandsAlone result }
    {
        Pattern {
            resting: self.resting.without_others(alloc),
        }
    }

    /// The same cells in words of their own, without other tables. `NoMemory` where there is no
    /// room for them.
    pub(crate) fn snapshot(&self, alloc: Global) -> Result<Pattern, Refusal>
        ensures ok { IfOk result (λ pattern. IsSame (plane_of pattern) (plane_of self.now)) }
        ensures alone { IfOk result StandsAlone }
        ensures memory { IsOkUnless result Refusal.NoMemory }
    {
        let resting = self.resting.snapshot(alloc)?;
        Ok(Pattern { resting })
    }

    /// How many cells are live. `NoMemory` where there is no room to count them.
    pub fn population(&self, alloc: Global) -> Result<u128, Refusal>
        ensures ok { IfOk result (HasPopulation (plane_of self.now)) }
        ensures memory { IsOkUnless result Refusal.NoMemory }
    {
        self.resting.population(alloc)
    }

    /// The smallest box that holds the live cells. `NoMemory` where there is no room to find it.
    pub fn bounds(&self, alloc: Global) -> Result<Option<Bounds>, Refusal>
        ensures ok { IfOk result (HasBounds (plane_of self.now)) }
        ensures memory { IsOkUnless result Refusal.NoMemory }
    {
        self.resting.bounds(alloc)
    }

    /// The first row with a live cell from row y on downwards. Its time follows what the pattern has
    /// near the rows from y to that one, and not how many rows lie between.
    pub fn first_row(&self, y: i64) -> Option<i64>
        ensures { IsFirstRow (plane_of self.now) y result }
    {
        viewport::first_row(self.still(), self.root(), y)
    }

    /// The runs of live cells in row y, from left to right, each as long as it can be: its first
    /// cell, and how many there are. `NoMemory` where there is no room for one more run.
    pub fn row_runs(&self, alloc: Global, y: i64) -> Result<Vec<(i64, u64)>, Refusal>
        ensures ok { IfOk result (λ runs. AreRowRuns (plane_of self.now) y runs.items) }
        ensures memory { IsOkUnless result Refusal.NoMemory }
    {
        viewport::row_runs(alloc, self.still(), self.root(), y)
    }

    /// Writes the text of a window of the pattern, if one is asked for. `WriteFailed` where the
    /// sink failed, which took a beginning of the text then.
    pub fn write_window<W: Sink>(
        &self,
        window: Option<Window>,
        report: &mut W,
    ) -> Result<(), Refusal>
        ensures written { OnOk result (Appends (W.taken report.old) (W.taken report.new)
            (window_text window (plane_of self.now))) }
        ensures beginning { OnErr result (AppendsBeginning (W.taken report.old) (W.taken report.new)
            (window_text window (plane_of self.now))) }
        ensures failure { TellsFailure
            (W.failure_count report.old) (W.failure_count report.new) result }
    {
        match window {
            Some(window) => viewport::picture(self.still(), self.root(), &window, report),
            None => Ok(()),
        }
    }

    /// Writes the pattern in the format that is asked for, if one is, behind its heading. It
    /// refuses `BoxTooLarge` where RLE is asked for and a side of its box is 2^31 or more, and
    /// `NoMemory`, both before the first byte, and `WriteFailed`, where the sink failed: the box
    /// fits then, and the sink took a beginning of the text. The runs of RLE's rows are found in
    /// threads. What was written is read as the same cells, rule and generation, within the limits
    /// of the format's reader.
    pub fn write<R: Threads + Sync, V: Sink>(
        &self,
        rt: &R,
        alloc: Global,
        format: Option<Format>,
        heading: Heading<'_>,
        file: &mut V,
    ) -> Result<(), Refusal>
        ensures written { OnOk result (HasText (format_of format) (plane_of self.now)
            heading.entry.comments heading.entry.rule heading.entry.generation
            (Appends (V.taken file.old) (V.taken file.new))) }
        ensures read_back { OnOk result (IfTaken (V.taken file.old) (V.taken file.new)
            ((format_of format).IsReadBack (plane_of self.now)
            heading.entry.comments heading.entry.rule heading.entry.generation)) }
        ensures no_format { format ≡ None → file.new ≡ file.old }
        ensures unfailed { OnOk result (V.failure_count file.new ≡ V.failure_count file.old) }
        ensures refused { IfErr result (IsWriterRefusal V.failure_count file.old file.new
            (Exceeds (format_of format) (plane_of self.now))
            (HasText (format_of format) (plane_of self.now)
            heading.entry.comments heading.entry.rule heading.entry.generation
            (AppendsBeginning (V.taken file.old) (V.taken file.new)))) }
    {
        let (book, root) = (self.still(), self.root());
        let Heading {
            comments,
            rule,
            generation,
        } = heading;
        match format {
            Some(Format::Rle) => {
                let shared = book.shared(alloc)?;
                write_rle(rt, alloc, &shared, root, comments, &rule, generation, file)
            }
            Some(Format::Macrocell) => write_mc(
                rt, alloc, book, root, comments, &rule, generation, file,
            ),
            None => Ok(()),
        }
    }

    /// The words that hold the cells.
    pub fn still(&self) -> &Still
        ensures { result.now ≡ words_of self.now }
    {
        self.resting.cells().still()
    }

    /// The square of the cells in these words.
    pub fn root(&self) -> Sq
        ensures root { result ≡ square_of self.now }
        ensures known { IsKnown (book_in (words_of self.now)) result.level result }
        ensures level { (3 < result.level) × (result.level ≤ 63) }
        ensures cells { plane_of self.now ≡ square_plane (book_in (words_of self.now)) result }
    {
        self.resting.cells().root()
    }
}
