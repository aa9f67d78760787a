//! Universes built of live cells, at the smallest table that has room for them.

ghost use Rattle.std.specs.Prelude.{◌≡◌, ◌⊎◌, ◌^◌, IfErr, IfOk};
ghost use Rattle.plane.specs.Square.{IsSame};
ghost use Rattle.table_core.specs.Sizes.{IsPairCount};
ghost use Rattle.universe.specs.Outcomes.{LacksMemoryOrRoom, WhereFull};
ghost use Rattle.universe.specs.Tables.{HasFullTable};

use crate::other_tables::OtherTables;
use crate::refusals::unless_full;
use crate::tables::OpenTable;
use crate::universe::Universe;
use plane::Refusal;
use rule_text::Rule;
use squares::{Build, Sq};
use std::alloc::Global;
use table_core::Shape;
use table_growth::{GrowthFactor, TableHistory, expected_shape, larger};

impl Universe {
    ghost use Rattle.universe.specs.Cells.{limit_of, live_cells, rule_of};

    /// The live cells of the source, in tables of together at most `limit` pair slots. The first
    /// table has about as many as are `expected`; 0 where nothing is known. `NodesFull` where the
    /// largest table fills up before their square is built; `NoMemory` where memory runs out.
    pub fn of<B: Build>(
        alloc: Global,
        rule: &Rule,
        source: &B,
        expected: u64,
        limit: u32,
    ) -> Result<Universe, Refusal>
        requires source { B.is_lawful source.now }
        requires limit { IsPairCount limit }
        ensures ok { IfOk result (λ universe. IsSame (live_cells universe) (B.live source.now)) }
        ensures rule { IfOk result (λ universe. rule_of universe ≡ rule.now) }
        ensures limit { IfOk result (λ universe. limit_of universe ≡ limit) }
        ensures refusal { IfErr result
            (λ refusal. (refusal ≡ Refusal.NoMemory) ⊎ (refusal ≡ Refusal.NodesFull)) }
        ensures full { IfErr result
            (λ refusal. refusal ≡ Refusal.NodesFull → HasFullTable rule.now limit) }
    {
        let limit = Shape::new(limit);
        let mut shape = expected_shape(expected, limit);
        'sizes: loop {
            let made = OpenTable::of_source(alloc, rule, source, shape);
            if let Some((here, root)) = unless_full(made)? {
                let others = OtherTables::new(alloc, limit);
                return Ok(Universe { here, root, others });
            }
            shape = larger(shape, limit, GrowthFactor::Sixteen).ok_or(Refusal::NodesFull)?;
        }
    }
}

impl OpenTable {
    ghost use Rattle.universe.specs.Tables.{IsBuilt};

    // A new table of this shape with the square of the live cells, and this square.
    fn of_source<B: Build>(
        alloc: Global,
        rule: &Rule,
        source: &B,
        shape: Shape,
    ) -> Result<(OpenTable, Sq), Refusal>
        requires { B.is_lawful source.now }
        ensures ok { IfOk result
            (λ made. IsBuilt rule.now (B.live source.now) (2 ^ shape.bits) made.0 made.1) }
        ensures refusal { IfErr result LacksMemoryOrRoom }
        ensures full { IfErr result (WhereFull (HasFullTable rule.now (2 ^ shape.bits))) }
    {
        let mut opened = OpenTable::fresh(alloc, shape, rule, 0, TableHistory::new())?;
        let desk = opened.desk;
        let mut at = opened.table.at(desk);
        let made = source.build(alloc, &mut at);
        opened.desk = at.leave();
        let root = made?;
        Ok((opened, root))
    }
}
