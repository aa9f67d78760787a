//! Sessions that advance.

ghost use Rattle.std.specs.Prelude.{◌≡◌, ◌⊎◌, ◌+◌, ◌≤◌, ◌<◌, ◌^◌, true, IfErr, OnOk};
ghost use Rattle.plane.specs.Square.{IsSame, empty};
ghost use Rattle.plane.specs.declared.range.TheConstants.{GENERATION_LIMIT};
ghost use Rattle.universe.specs.StaysWithinRoot.{StaysWithinRoot};
ghost use Rattle.universe.specs.Ranges.{KeepsToRange};
ghost use Rattle.engine.specs.Sessions.{IsLaterSession, IsLostSession, IsNotAdvanced, IsStuckOnTheWay, cells_of, is_open};

use crate::session::Session;
use plane::Refusal;
use std::thread::Threads;
use universe::Advance;
use worker_split::{Gate, Team};

impl Session {
    /// Takes its cells so many generations on, with a team.
    ///
    /// `TooFar` if they may leave the range, or if the last generation is above the limit: no step
    /// is taken. `NodesFull` if a table of the largest size, opened with only the cells of a
    /// generation, is full before the next one or has no room for these cells: it is that
    /// generation then. `NoMemory` if memory runs out: it is as it was, or closed.
    pub fn advance<R: Threads + Sync, G: Gate>(
        &mut self,
        team: &Team<'_, R, G>,
        generations: u64,
    ) -> Result<(), Refusal>
        ensures ok { OnOk result (IsLaterSession self.old generations self.new) }
        ensures in_range { OnOk result
            (KeepsToRange (cells_of self.old) self.old.generation generations) }
        ensures closed { OnOk result (is_open self.old ≡ true) }
        ensures refused { IfErr result (IsNotAdvanced self.old generations self.new) }
        ensures opened { IfErr result (λ refusal. (refusal ≡ Refusal.NoMemory)
            ⊎ (is_open self.old ≡ true)) }
    {
        let mut universe = self.state.take_universe(team.alloc)?;
        let judged = universe.judge_range(team.alloc, self.generation, generations);
        self.state.put_universe(universe);
        judged?;
        self.advance_within(team, generations)
    }

    /// The same, where so many generations stay in the range.
    pub(crate) fn advance_within<R: Threads + Sync, G: Gate>(
        &mut self,
        team: &Team<'_, R, G>,
        generations: u64,
    ) -> Result<(), Refusal>
        requires held { StaysWithinRoot self.old.rule (cells_of self.old) generations }
        requires short { (IsSame (cells_of self.old) empty → ⊥) → generations < 2 ^ 63 }
        requires last { self.old.generation + generations ≤ GENERATION_LIMIT }
        ensures ok { OnOk result (IsLaterSession self.old generations self.new) }
        ensures refused { IfErr result (λ refusal.
            ((refusal ≡ Refusal.NodesFull) × IsStuckOnTheWay self.old generations self.new)
            ⊎ ((refusal ≡ Refusal.NoMemory) × IsLostSession self.old self.new)) }
    {
        let universe = self.state.take_universe(team.alloc)?;
        match universe.advance(team, generations)? {
            Advance::Done(later) => {
                self.state.put_universe(later);
                self.generation += generations;
                Ok(())
            }
            Advance::Stuck { there, done } => {
                self.state.put_universe(there);
                self.generation += done;
                Err(Refusal::NodesFull)
            }
        }
    }
}
