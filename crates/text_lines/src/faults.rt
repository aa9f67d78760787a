//! Faults at a place of the text.

ghost use Rattle.std.specs.Prelude.{◌≡◌};
ghost use Rattle.text_lines.specs.Faults.{fault_at};

use plane::{Fault, Refusal};

/// A refusal at the line or item whose first byte has this index.
pub fn fault_at(refusal: Refusal, place: usize) -> Fault
    ensures { result ≡ fault_at refusal place }
{
    Fault {
        refusal,
        place: Some(place as u64),
    }
}
