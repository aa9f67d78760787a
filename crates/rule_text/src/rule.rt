//! Rules that count live neighbours.

ghost use Rattle.std.specs.Prelude.{◌≡◌, ◌^◌, ◌<◌};
ghost use Rattle.rule_text.specs.CountRule.{IsRule, dead, lives};
ghost use Rattle.rule_text.specs.RuleCode.{code_of};

use crate::digits::Digits;
use crate::neighbourhood::Neighbourhood;
use std::marker::Model;

/// A rule that counts live neighbours: a dead cell becomes live if their number is a digit of
/// birth, and a live cell stays live if it is a digit of survival. No digit is above the number of
/// neighbours, and 0 is not a digit of birth.
#[derive(Clone, Copy, Debug, PartialEq, Eq)]
pub struct Rule {
    pub(crate) neighbourhood: Neighbourhood,
    pub(crate) birth: Digits,
    pub(crate) survival: Digits,
}

impl Model for Rule {
    ghost use Rattle.rule_text.specs.CountRule.{CountRule, IsRule, count_rule};

    ghost Value = { CountRule };

    ghost view = { λ rule. count_rule rule.neighbourhood rule.birth rule.survival };

    ghost invariant = { λ rule. IsRule (count_rule rule.neighbourhood rule.birth rule.survival) };

    ghost inverse = { λ rule. record {
      neighbourhood = rule.neighbourhood;
      birth = rule.birth;
      survival = rule.survival;
    } };
}

impl Rule {
    /// The rule by which no cell lives, `B/S`.
    pub fn dead() -> Rule
        ensures dead { result ≡ dead }
        ensures rule { IsRule result }
    {
        Rule {
            neighbourhood: Neighbourhood::Moore,
            birth: Digits::new(),
            survival: Digits::new(),
        }
    }

    /// Which cells it counts as neighbours.
    pub fn neighbourhood(&self) -> Neighbourhood
        ensures neighbourhood { result ≡ self.now.neighbourhood }
        ensures rule { IsRule self.now }
    {
        self.neighbourhood
    }

    /// Whether a cell that is alive or dead now, with so many live neighbours, lives in the next
    /// generation.
    pub fn lives(&self, alive: bool, count: u8) -> bool
        ensures lives { result ≡ lives self.now alive count }
        ensures rule { IsRule self.now }
    {
        let digits = if alive { self.survival } else { self.birth };
        digits.contains(count)
    }

    /// The rule as a number below 2^20: bit `d` for a digit `d` of birth, bit `9 + d` for a digit
    /// `d` of survival, and from bit 18 on the neighbourhood, 0 for Moore's, 1 for von Neumann's
    /// and 2 for the hexagonal one.
    pub fn code(&self) -> u32
        ensures code { result ≡ code_of self.now }
        ensures bound { result < 2 ^ 20 }
        ensures rule { IsRule self.now }
    {
        self.birth.bits() + (self.survival.bits() << 9) + (self.neighbourhood.number() << 18)
    }
}
