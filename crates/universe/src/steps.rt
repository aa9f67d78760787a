//! The cells some generations on.

ghost use Rattle.std.specs.Prelude.{◌≡◌, ◌⊎◌, ◌≤◌, ◌<◌, ◌^◌, IfErr, IfOk, Ok};
ghost use Rattle.plane.specs.Square.{IsSame, empty};
ghost use Rattle.universe.specs.Advances.{IsAdvance};
ghost use Rattle.universe.specs.StaysWithinRoot.{StaysWithinRoot};
ghost use Rattle.universe.specs.Later.{IsLater, IsStuck};

use crate::advances::Advance;
use crate::attempts::Attempt;
use crate::digits::steps_of;
use crate::universe::Universe;
use plane::Refusal;
use std::alloc::AllocError;
use std::thread::Threads;
use worker_split::{Gate, Team};

impl Universe {
    ghost use Rattle.universe.specs.Cells.{live_cells, rule_of};

    // The cells after 2^exponent generations, by steps at the table of this exponent, or of a lower
    // one. Where the largest table is too small for a step, it is taken in two halves.
    #[cycle(step)]
    fn step<R: Threads + Sync, G: Gate>(
        self,
        team: &Team<'_, R, G>,
        exponent: u8,
        table: u8,
    ) -> Result<Advance, AllocError>
        requires exponent { exponent ≤ 62 }
        requires held { StaysWithinRoot (rule_of self) (live_cells self) (2 ^ exponent) }
        ensures { IfOk result (IsAdvance self (2 ^ exponent)) }
    {
        if exponent > table {
            return self.step_by_halves(team, exponent, table);
        }
        let there = self.at_exponent(team, exponent)?;
        match there.step_with_growth(team)? {
            Attempt::Done(later) => Ok(Advance::Done(later)),
            Attempt::Full(there) if exponent == 0 => Ok(Advance::Stuck { there, done: 0 }),
            Attempt::Full(start) => start.step_by_halves(team, exponent, table),
        }
    }

    // The cells after 2^exponent generations, by two steps of half as many.
    #[cycle(step)]
    fn step_by_halves<R: Threads + Sync, G: Gate>(
        self,
        team: &Team<'_, R, G>,
        exponent: u8,
        table: u8,
    ) -> Result<Advance, AllocError>
        requires exponent { (1 ≤ exponent) × (exponent ≤ 62) }
        requires held { StaysWithinRoot (rule_of self) (live_cells self) (2 ^ exponent) }
        ensures { IfOk result (IsAdvance self (2 ^ exponent)) }
    {
        let half = exponent - 1;
        let middle = match self.step(team, half, table)? {
            Advance::Done(middle) => middle,
            stuck => return Ok(stuck),
        };
        let second = middle.step(team, half, table)?;
        Ok(second.with_earlier(1 << half))
    }

    /// The cells after so many generations: for each binary digit of their number a team takes some
    /// steps, at the table of its exponent or of a lower one. The empty universe takes no step.
    /// `Stuck` where the largest table, opened with only the cells of a generation, fills up before
    /// the next one is made or has no room for these cells: the universe is that generation then.
    /// `AllocError` where memory runs out.
    pub fn advance<R: Threads + Sync, G: Gate>(
        self,
        team: &Team<'_, R, G>,
        generations: u64,
    ) -> Result<Advance, AllocError>
        requires held { StaysWithinRoot (rule_of self) (live_cells self) generations }
        requires short { (IsSame (live_cells self) empty → ⊥) → generations < 2 ^ 63 }
        ensures ok { IfOk result (IsAdvance self generations) }
        ensures no_step { IsSame (live_cells self) empty → result ≡ Ok (Advance.Done self) }
    {
        if self.is_empty() {
            return Ok(Advance::Done(self));
        }
        let mut universe = self;
        let mut done = 0;
        let plan = steps_of(generations, universe.here.table.key().exponent);
        'steps: for next in plan.as_slice() {
            universe = match universe.step(team, next.exponent, next.table)? {
                Advance::Done(later) => later,
                stuck => return Ok(stuck.with_earlier(done)),
            };
            done += 1 << next.exponent;
        }
        Ok(Advance::Done(universe))
    }

    /// The cells after so many generations, as `advance` makes them. `NodesFull` where that is
    /// stuck; `NoMemory` where memory runs out.
    pub fn after<R: Threads + Sync, G: Gate>(
        self,
        team: &Team<'_, R, G>,
        generations: u64,
    ) -> Result<Universe, Refusal>
        requires held { StaysWithinRoot (rule_of self) (live_cells self) generations }
        requires short { (IsSame (live_cells self) empty → ⊥) → generations < 2 ^ 63 }
        ensures ok { IfOk result (IsLater self generations) }
        ensures no_step { IsSame (live_cells self) empty → result ≡ Ok self }
        ensures full { IfErr result
            (λ refusal. refusal ≡ Refusal.NodesFull → IsStuck self generations) }
        ensures refusal { IfErr result
            (λ refusal. (refusal ≡ Refusal.NoMemory) ⊎ (refusal ≡ Refusal.NodesFull)) }
    {
        match self.advance(team, generations)? {
            Advance::Done(later) => Ok(later),
            Advance::Stuck { .. } => Err(Refusal::NodesFull),
        }
    }
}
