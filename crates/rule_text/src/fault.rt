//! Why a text is not a rule.

ghost use Rattle.std.specs.Prelude.{Some};
ghost use Rattle.rule_text.specs.RuleFault.{rule_fault_text};

use std::error::Error;
use std::fmt;

/// Why a text is not a rule.
#[derive(Clone, Copy, Debug, PartialEq, Eq)]
pub enum RuleFault {
    /// It is written in no form of a rule's text, or has a digit above the number of neighbours.
    BadRule,
    /// It is written as a rule is, but a cell would be born of no neighbours.
    BirthOnZero,
}

impl fmt::Display for RuleFault {
    ghost output = { λ fault. Some (rule_fault_text fault) };

    fn fmt<W: fmt::Write>(&self, f: &mut fmt::Formatter<W>) -> fmt::Result {
        match self {
            RuleFault::BadRule => write!(f, "not a rule"),
            RuleFault::BirthOnZero => write!(f, "birth on zero neighbours"),
        }
    }
}

impl Error for RuleFault {}
