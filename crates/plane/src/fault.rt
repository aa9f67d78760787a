//! Refusals with their places.

ghost use Rattle.std.specs.Prelude.{◌≡◌, None, Some};
ghost use Rattle.plane.specs.Fault.{fault_text};

use crate::refusal::Refusal;
use std::error::Error;
use std::fmt;

/// A refusal and its place, if it has one: the index, from 0, of the first byte of the line or item
/// that was refused.
#[derive(Clone, Copy, Debug, PartialEq, Eq)]
pub struct Fault {
    pub refusal: Refusal,
    pub place: Option<u64>,
}

impl fmt::Display for Fault {
    ghost output = { λ fault. Some (fault_text fault) };

    fn fmt<W: fmt::Write>(&self, f: &mut fmt::Formatter<W>) -> fmt::Result {
        let number = self.refusal.number();
        let name = self.refusal.name();
        match self.place {
            Some(place) => write!(f, "refused {number} at {place}: {name}"),
            None => write!(f, "refused {number}: {name}"),
        }
    }
}

impl Error for Fault {}

/// A refusal without a place in the file.
impl From<Refusal> for Fault {
    ghost from_gives = { λ refusal fault. fault ≡ record { refusal = refusal; place = None } };

    fn from(refusal: Refusal) -> Fault {
        Fault {
            refusal,
            place: None,
        }
    }
}
