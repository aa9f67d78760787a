//! How far a universe has come.

ghost use Rattle.std.specs.Prelude.{◌≡◌, ◌+◌, ◌^◌, ◌<◌};

use crate::universe::Universe;

/// The cells some generations on; or, where the largest table is too small for the next one, those
/// of the last generation that was reached.
#[derive(Drop)]
pub enum Advance {
    /// All generations were reached.
    Done(Universe),
    /// The last generation that was reached, and how many were done until then.
    Stuck { there: Universe, done: u64 },
}

impl Advance {
    ghost use Rattle.universe.specs.Advances.{stuck_after, with_earlier};

    /// The same, where so many generations were done before.
    pub(crate) fn with_earlier(self, earlier: u64) -> Advance
        requires { earlier + stuck_after self < 2 ^ 64 }
        ensures { result ≡ with_earlier earlier self }
    {
        match self {
            Advance::Stuck { there, done } => Advance::Stuck {
                there,
                done: earlier + done,
            },
            all => all,
        }
    }
}
