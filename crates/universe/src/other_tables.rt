//! The tables of a universe beside the one of its cells.

ghost use Rattle.std.specs.Prelude.{◌≡◌, ◌<◌, ◌≤◌, ◌-◌, ◌^◌, [], ◌∷◌, ◌++◌, IfNone, IfSome, OnErr, OnOk};
ghost use Rattle.universe.specs.Sums.{AreLast, IsTakenOut, pair_sum};
ghost use Rattle.universe.specs.Tables.{IsTableUnder};

use crate::tables::OpenTable;
use rule_text::Rule;
use std::alloc::{AllocError, Global};
use table_core::Shape;
use table_growth::pair_count;

/// The tables that stay open beside the one of the cells, the least recently used first, and the
/// limit for the pair slots of all.
#[derive(Drop)]
pub(crate) struct OtherTables {
    tables: Vec<OpenTable>,
    pub(crate) limit: Shape,
}

impl OtherTables {
    /// None yet.
    pub(crate) fn new(alloc: Global, limit: Shape) -> OtherTables
        ensures tables { result.tables.items ≡ [] }
        ensures limit { result.limit ≡ limit }
    {
        OtherTables {
            tables: Vec::new(alloc),
            limit,
        }
    }

    /// How many pair slots they have together.
    pub(crate) fn pairs(&self) -> u64
        requires { pair_sum self.now.tables.items < 2 ^ 64 }
        ensures { result ≡ pair_sum self.now.tables.items }
    {
        let mut pairs = 0;
        for table in &self.tables {
            pairs += table.pair_count();
        }
        pairs
    }

    /// Evicts as many of them as are needed to make room for so many pair slots.
    pub(crate) fn make_room(&mut self, pairs: u64)
        requires sum { pair_sum self.old.tables.items < 2 ^ 64 }
        requires room { pairs ≤ 2 ^ self.old.limit.bits }
        ensures limit { self.new.limit ≡ self.old.limit }
        ensures tables { AreLast self.old.tables.items self.new.tables.items
            (2 ^ self.old.limit.bits - pairs) }
    {
        let room = pair_count(self.limit) - pairs;
        'evicting: while self.pairs() > room {
            self.tables.remove(0);
        }
    }

    /// Takes out the table of this rule and exponent.
    pub(crate) fn take_out(&mut self, rule: &Rule, exponent: u8) -> Option<OpenTable>
        ensures under { IfSome result (IsTableUnder rule.now exponent) }
        ensures taken { IfSome result (IsTakenOut self.old.tables.items self.new.tables.items) }
        ensures none { IfNone result (self.new.tables.items ≡ self.old.tables.items) }
        ensures limit { self.new.limit ≡ self.old.limit }
    {
        let place = self
            .tables
            .iter()
            .position(|table| table.is_under(rule, exponent))?;
        Some(self.tables.remove(place))
    }

    /// Puts a table back, as the most recently used.
    pub(crate) fn push(&mut self, table: OpenTable) -> Result<(), AllocError>
        ensures ok { OnOk result (self.new.tables.items ≡ self.old.tables.items ++ table ∷ []) }
        ensures err { OnErr result (self.new.tables.items ≡ self.old.tables.items) }
        ensures limit { self.new.limit ≡ self.old.limit }
    {
        self.tables.push(table)?;
        Ok(())
    }
}
