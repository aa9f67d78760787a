//! The numbers of generations that a search tries.

ghost use Rattle.std.specs.Prelude.{IfNone, IfSome};
ghost use Rattle.period_search.specs.Candidates.{AreSome, IsNext, IsNoneBehind};

use crate::divisors::next_divisor;

/// The numbers of generations that a search tries, each in turn from the least on.
#[derive(Clone, Copy, Debug, PartialEq, Eq)]
pub enum Candidates {
    /// Each number from 1 to this one.
    UpTo(u64),
    /// Each divisor of this number, which is at least 1.
    DivisorsOf(u64),
}

impl Candidates {
    /// The least of them behind those that were tried.
    pub(crate) fn after(self, tried: u64) -> Option<u64>
        requires { AreSome self }
        ensures next { IfSome result (IsNext self tried) }
        ensures none { IfNone result (IsNoneBehind self tried) }
    {
        match self {
            Candidates::UpTo(most) if tried < most => Some(tried + 1),
            Candidates::DivisorsOf(whole) if tried < whole => Some(next_divisor(whole, tried)),
            _ => None,
        }
    }
}
