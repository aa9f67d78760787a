//! A full table, told apart from a failed allocation.

ghost use Rattle.std.specs.Prelude.{◌≡◌, Ok, Err, IsOk};
ghost use Rattle.universe.specs.Outcomes.{IfMade, IfNoRoom};

use plane::Refusal;
use std::alloc::AllocError;

/// What was made, or `None` if a table was full.
pub(crate) fn unless_full<T>(made: Result<T, Refusal>) -> Result<Option<T>, AllocError>
    ensures some { IfMade result (λ value. made ≡ Ok value) }
    ensures none { IfNoRoom result (made ≡ Err Refusal.NodesFull) }
    ensures made { IsOk made → IsOk result }
    ensures full { made ≡ Err Refusal.NodesFull → IsOk result }
{
    match made {
        Ok(value) => Ok(Some(value)),
        Err(Refusal::NodesFull) => Ok(None),
        Err(_) => Err(AllocError),
    }
}
