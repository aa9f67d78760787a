//! Running tables that the other examples begin with.

ghost use Rattle.std.specs.Prelude.{IfOk};
ghost use Rattle.node_table.specs.Desks.{IsDeskOf};

use node_table::{Desk, NodeTable, Still};
use rule_text::Rule;
use std::alloc::Global;
use std::test::Fail;
use table_core::Shape;

/// The pair slots of the smallest table, which has 256 leaf slots.
pub(crate) const PAIRS: u32 = 1024;

/// A running table of these words, and its first desk.
pub(crate) fn open_table(
    alloc: Global,
    still: Still,
    rule: Rule,
    exponent: u8,
) -> Result<(NodeTable, Desk), Fail>
    ensures { IfOk result (λ opened. IsDeskOf opened.0 opened.1) }
{
    match NodeTable::open(alloc, still, rule, exponent) {
        Ok(opened) => Ok(opened),
        Err((_, refusal)) => Err(refusal)?,
    }
}

/// A running table of so many pair slots without a square, by `B3/S23`, and its first desk. It
/// fails if no table has that many.
pub(crate) fn empty_table(
    alloc: Global,
    pairs: u32,
    exponent: u8,
) -> Result<(NodeTable, Desk), Fail>
    ensures { IfOk result (λ opened. IsDeskOf opened.0 opened.1) }
{
    if !Shape::is_pair_count(pairs) {
        return Err("no table has that many pair slots")?;
    }
    let still = Still::empty(alloc, pairs)?;
    open_table(alloc, still, Rule::read(b"B3/S23")?, exponent)
}
