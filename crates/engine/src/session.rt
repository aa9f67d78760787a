//! A pattern that stays open: it is asked, advanced, and asked again.

ghost use Rattle.std.specs.Prelude.{◌≡◌, ◌⊎◌, ◌≤◌, None, false, true, IfErr, IfNone, IfOk, IfSome, IsOkUnless, OnOk};
ghost use Rattle.std.specs.Io.KnownBytes.{Appends};
ghost use Rattle.rule_text.specs.CountRule.{IsRule};
ghost use Rattle.plane.specs.Device.{AppendsBeginning, IsWriteRefusal};
ghost use Rattle.plane.specs.Square.{IsSame};
ghost use Rattle.plane.specs.declared.range.TheConstants.{GENERATION_LIMIT};
ghost use Rattle.pattern_writers.specs.Output.{IfTaken, IsWriterRefusal};
ghost use Rattle.viewport.specs.BoundingBox.{HasBounds};
ghost use Rattle.viewport.specs.Population.{HasPopulation};
ghost use Rattle.viewport.specs.RowRuns.{AreRowRuns};
ghost use Rattle.viewport.specs.Rows.{IsFirstRow};
ghost use Rattle.engine.specs.Accepted.{SumsUp};
ghost use Rattle.engine.specs.Formats.{Exceeds, HasText, format_of};
ghost use Rattle.engine.specs.Pattern.{StandsAlone, plane_of};
ghost use Rattle.engine.specs.Report.{window_text};
ghost use Rattle.engine.specs.States.{IsByRule, KeepsResults, is_at_rest};

use crate::kept_comments::KeptComments;
use crate::options::Format;
use crate::pattern::{Heading, Pattern};
use crate::running::Summary;
use crate::state::State;
use plane::{Bounds, Refusal, Sink, Window};
use rule_text::Rule;
use std::alloc::Global;
use std::thread::Threads;
use text_lines::Comments;

/// A pattern that stays open, with what it found out so far. It owns what it needs of its file.
///
/// Where memory runs out while it advances, its cells may be lost. It is closed then, and each
/// call for its cells refuses `NoMemory`.
#[derive(Drop)]
pub struct Session {
    pub(crate) comments: KeptComments,
    pub(crate) rule: Rule,
    pub(crate) generation: u64,
    pub(crate) state: State,
    ghost lawful: { IsRule rule },
    ghost by_rule: { IsByRule rule state },
    ghost last: { generation ≤ GENERATION_LIMIT },
}

impl Session {
    ghost use Rattle.engine.specs.Sessions.{IsSameSession, cells_of, comments_of, is_open};

    /// The number of its generation.
    pub fn generation(&self) -> u64
        ensures { result ≡ self.now.generation }
    {
        self.generation
    }

    /// The rule by which its generations follow one another.
    pub fn rule(&self) -> Rule
        ensures { result ≡ self.now.rule }
    {
        self.rule
    }

    /// The kept comments of its file.
    pub fn comments(&self) -> Comments<'_>
        ensures { result ≡ comments_of self.now }
    {
        self.comments.comments()
    }

    /// How many cells are live. `NoMemory` where there is no room to count them.
    pub fn population(&mut self, alloc: Global) -> Result<u128, Refusal>
        ensures ok { IfOk result (HasPopulation (cells_of self.old)) }
        ensures same { IsSameSession self.old self.new }
        ensures closed { IfOk result (λ _. is_open self.old ≡ true) }
        ensures memory { IsOkUnless result Refusal.NoMemory }
    {
        match &mut self.state {
            State::AtWork(universe) => universe.population(alloc),
            State::AtRest(pattern) => pattern.population(alloc),
            State::Lost => Err(Refusal::NoMemory),
        }
    }

    /// The smallest box that holds the live cells. `NoMemory` where there is no room to find it.
    pub fn bounds(&mut self, alloc: Global) -> Result<Option<Bounds>, Refusal>
        ensures ok { IfOk result (HasBounds (cells_of self.old)) }
        ensures same { IsSameSession self.old self.new }
        ensures closed { IfOk result (λ _. is_open self.old ≡ true) }
        ensures memory { IsOkUnless result Refusal.NoMemory }
    {
        match &mut self.state {
            State::AtWork(universe) => universe.bounds(alloc),
            State::AtRest(pattern) => pattern.bounds(alloc),
            State::Lost => Err(Refusal::NoMemory),
        }
    }

    /// Its generation, its population and the box of its cells. `NoMemory` where there is no room
    /// to find them.
    pub fn summary(&mut self, alloc: Global) -> Result<Summary, Refusal>
        ensures ok { IfOk result (SumsUp self.old.generation (cells_of self.old)) }
        ensures same { IsSameSession self.old self.new }
        ensures memory { IsOkUnless result Refusal.NoMemory }
    {
        let population = self.population(alloc)?;
        self.summary_with(alloc, population)
    }

    /// The same, where its population is known.
    pub(crate) fn summary_with(
        &mut self,
        alloc: Global,
        population: u128,
    ) -> Result<Summary, Refusal>
        requires { HasPopulation (cells_of self.old) population }
        ensures ok { IfOk result (SumsUp self.old.generation (cells_of self.old)) }
        ensures same { IsSameSession self.old self.new }
        ensures memory { IsOkUnless result Refusal.NoMemory }
    {
        Ok(Summary {
            generation: self.generation,
            population,
            bounds: self.bounds(alloc)?,
        })
    }

    /// Brings the cells to rest, so that [`Session::pattern`] has them. Nothing is copied, and the
    /// next generations are found with all results that are known.
    pub fn rest(&mut self)
        ensures same { IsSameSession self.old self.new }
        ensures results { KeepsResults self.old.state self.new.state }
        ensures rest { is_open self.old ≡ true → is_at_rest self.new.state ≡ true }
    {
        self.state.rest();
    }

    /// The cells, if they are at rest.
    pub fn pattern(&self) -> Option<&Pattern>
        ensures some { IfSome result (λ pattern. plane_of pattern.now ≡ cells_of self.now) }
        ensures open { IfSome result (λ _. is_open self.now ≡ true) }
        ensures none { IfNone result (is_at_rest self.now.state ≡ false) }
    {
        self.state.pattern()
    }

    /// The first row with a live cell from row y on downwards. `NoMemory` where it is closed.
    pub fn first_row(&mut self, y: i64) -> Result<Option<i64>, Refusal>
        ensures ok { IfOk result (IsFirstRow (cells_of self.new) y) }
        ensures same { IsSameSession self.old self.new }
        ensures results { KeepsResults self.old.state self.new.state }
        ensures closed { IfErr result (λ refusal. (refusal ≡ Refusal.NoMemory)
            × (is_open self.old ≡ false)) }
    {
        self.state.rest();
        let pattern = self.state.pattern().ok_or(Refusal::NoMemory)?;
        Ok(pattern.first_row(y))
    }

    /// The runs of live cells in row y, from left to right, each as long as it can be: its first
    /// cell, and how many there are. `NoMemory` where there is no room for one more run.
    pub fn row_runs(&mut self, alloc: Global, y: i64) -> Result<Vec<(i64, u64)>, Refusal>
        ensures ok { IfOk result (λ runs. AreRowRuns (cells_of self.new) y runs.items) }
        ensures same { IsSameSession self.old self.new }
        ensures results { KeepsResults self.old.state self.new.state }
        ensures closed { OnOk result (is_open self.old ≡ true) }
        ensures memory { IsOkUnless result Refusal.NoMemory }
    {
        self.state.rest();
        let pattern = self.state.pattern().ok_or(Refusal::NoMemory)?;
        pattern.row_runs(alloc, y)
    }

    /// Writes the text of a window of its cells, if one is asked for, as [`Pattern::write_window`]
    /// does. `NoMemory` where it is closed.
    pub fn write_window<W: Sink>(
        &mut self,
        window: Option<Window>,
        report: &mut W,
    ) -> Result<(), Refusal>
        ensures same { IsSameSession self.old self.new }
        ensures results { KeepsResults self.old.state self.new.state }
        ensures written { OnOk result (Appends (W.taken report.old) (W.taken report.new)
            (window_text window (cells_of self.new))) }
        ensures closed { OnOk result (is_open self.old ≡ true) }
        ensures unfailed { OnOk result (W.failure_count report.new ≡ W.failure_count report.old) }
        ensures refused { IfErr result (λ refusal.
            (IsWriteRefusal (W.failure_count report.old) (W.failure_count report.new) refusal
            × AppendsBeginning (W.taken report.old) (W.taken report.new)
            (window_text window (cells_of self.new)))
            ⊎ ((refusal ≡ Refusal.NoMemory) × (is_open self.old ≡ false)
            × (report.new ≡ report.old))) }
    {
        self.state.rest();
        let pattern = self.state.pattern().ok_or(Refusal::NoMemory)?;
        pattern.write_window(window, report)
    }

    /// Writes its generation in a format, if one is asked for, as [`Pattern::write`] does, behind
    /// its comments, its rule and its number.
    pub fn write<R: Threads + Sync, V: Sink>(
        &mut self,
        rt: &R,
        alloc: Global,
        format: Option<Format>,
        file: &mut V,
    ) -> Result<(), Refusal>
        ensures same { IsSameSession self.old self.new }
        ensures results { KeepsResults self.old.state self.new.state }
        ensures written { OnOk result (HasText (format_of format) (cells_of self.new)
            (comments_of self.new) self.new.rule self.new.generation
            (Appends (V.taken file.old) (V.taken file.new))) }
        ensures read_back { OnOk result (IfTaken (V.taken file.old) (V.taken file.new)
            ((format_of format).IsReadBack (cells_of self.new)
            (comments_of self.new) self.new.rule self.new.generation)) }
        ensures no_format { format ≡ None → file.new ≡ file.old }
        ensures closed { OnOk result (is_open self.old ≡ true) }
        ensures unfailed { OnOk result (V.failure_count file.new ≡ V.failure_count file.old) }
        ensures refused { IfErr result (IsWriterRefusal V.failure_count file.old file.new
            (Exceeds (format_of format) (cells_of self.new))
            (HasText (format_of format) (cells_of self.new)
            (comments_of self.new) self.new.rule self.new.generation
            (AppendsBeginning (V.taken file.old) (V.taken file.new)))) }
    {
        self.state.rest();
        let pattern = self.state.pattern().ok_or(Refusal::NoMemory)?;
        let heading = Heading {
            comments: self.comments.comments(),
            rule: self.rule,
            generation: self.generation,
        };
        pattern.write(rt, alloc, format, heading, file)
    }

    /// A pattern of its cells as they are now, which stays as it is when the session goes on. It has
    /// only what these cells need, in as few words as have room for it, or else a copy of all words.
    /// `NoMemory` where there is no room for it.
    pub fn snapshot(&mut self, alloc: Global) -> Result<Pattern, Refusal>
        ensures ok { IfOk result (λ pattern. IsSame (plane_of pattern) (cells_of self.new)) }
        ensures alone { IfOk result StandsAlone }
        ensures same { IsSameSession self.old self.new }
        ensures results { KeepsResults self.old.state self.new.state }
        ensures closed { IfOk result (λ _. is_open self.old ≡ true) }
        ensures memory { IsOkUnless result Refusal.NoMemory }
    {
        self.state.rest();
        let pattern = self.state.pattern().ok_or(Refusal::NoMemory)?;
        pattern.snapshot(alloc)
    }

    /// Its cells at rest, without its other tables. `NoMemory` where it is closed.
    pub fn into_pattern(self, alloc: Global) -> Result<Pattern, Refusal>
        ensures ok { IfOk result (λ pattern. IsSame (plane_of pattern) (cells_of self)) }
        ensures alone { IfOk result StandsAlone }
        ensures closed { IfErr result (λ refusal. (refusal ≡ Refusal.NoMemory)
            × (is_open self ≡ false)) }
    {
        self.state.into_pattern(alloc)
    }

    /// Frees all tables beside the words that hold its cells.
    pub(crate) fn free_other_tables(&mut self, alloc: Global)
        ensures { IsSameSession self.old self.new }
    {
        self.state.free_other_tables(alloc)
    }
}
