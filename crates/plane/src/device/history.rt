//! Bytes that only contracts read.

ghost use Rattle.std.specs.Prelude.{◌≡◌, ℕ, List, [], ◌++◌};
ghost use Rattle.std.specs.Borrow.{ftrue};

use std::marker::Model;

/// The bytes that went through a device, in order. It takes no memory, and its calls do nothing at
/// run time.
#[derive(Drop)]
pub(crate) struct History {
    pub(crate) ghost bytes: { List ℕ },
}

impl Model for History {
    ghost also_owns = { λ _. ftrue };
}

impl History {
    /// No bytes.
    pub(crate) fn new() -> History
        ensures { result.bytes ≡ [] }
    {
        History {}
    }

    /// These bytes come after the others.
    pub(crate) fn extend(&mut self, _bytes: &[u8])
        ensures { self.new.bytes ≡ self.old.bytes ++ _bytes.now }
    {}
}
