//! How many results were made.
ghost use Rattle.std.specs.Prelude.{◌≡◌, ◌+◌, min};

/// How many results were made and kept. A count that is full stays.
#[derive(Clone, Copy, Debug, PartialEq, Eq, Drop)]
pub struct Tally {
    pub expansions: u64,
}

impl Tally {
    /// One more expansion.
    pub fn add(&mut self)
        ensures { self.new.expansions ≡ min u64.MAX (self.old.expansions + 1) }
    {
        self.expansions = self.expansions.saturating_add(1);
    }
}
