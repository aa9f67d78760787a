//! The head of a table: its shape, its rule and its exponent.

ghost use Rattle.std.specs.Prelude.{◌≡◌};

use crate::shape::Shape;
use rule_text::Rule;

/// What holds of a table as long as it is open: its shape, the rule by which squares have their
/// futures, and the exponent, which says after how many generations.
#[derive(Clone, Copy)]
pub struct Key {
    pub shape: Shape,
    pub rule: Rule,
    pub exponent: u8,
}

impl Key {
    ghost use Rattle.table_core.specs.Good.{head};

    /// The word at index 0, which names the rule and the exponent.
    pub fn head(&self) -> u64
        ensures { result ≡ head self.now }
    {
        let exponent = self.exponent;
        u64::from(self.rule.code()) + (1 << 20) * u64::from(exponent)
    }
}
