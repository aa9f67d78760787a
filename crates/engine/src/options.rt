//! What a run is asked to do.

ghost use Rattle.std.specs.Prelude.{◌≡◌};
ghost use Rattle.engine.specs.RunOptions.{run_of};

use plane::Window;
use rule_text::Rule;
use run_options::RunOptions;

/// A format of pattern files.
#[derive(Clone, Copy, Debug, PartialEq, Eq)]
pub enum Format {
    /// Run length encoded, with a `#CXRLE` line.
    Rle,
    /// Macrocell, `[M2]`: a quadtree whose equal squares are written once.
    Macrocell,
}

/// What a run is asked to do.
#[derive(Clone, Copy, Debug, PartialEq, Eq)]
pub struct Options {
    /// The number of generations to run on from the file's own.
    pub gens: u64,
    /// The distance of reported generations; 0 reports the first and the last.
    pub step: u64,
    /// The rule to run by instead of the file's, if one is given.
    pub rule: Option<Rule>,
    /// The window of the last generation that is drawn after the report, if one is.
    pub window: Option<Window>,
    /// The format of the pattern that is written, if one is.
    pub format: Option<Format>,
    /// The most pair slots that all tables of squares may have together: a power of two, from 2^10
    /// to 2^28.
    pub pairs: u32,
    /// How many workers take the steps, from 1 to 64. One starts no thread.
    pub workers: usize,
    /// Whether the lines of the report are left out.
    pub quiet: bool,
}

impl Options {
    /// Which run it is, whatever is said and written of it.
    pub(crate) fn run(&self) -> RunOptions
        ensures { result ≡ run_of self.now }
    {
        RunOptions {
            gens: self.gens,
            rule: self.rule,
            pairs: self.pairs,
            workers: self.workers,
        }
    }
}
