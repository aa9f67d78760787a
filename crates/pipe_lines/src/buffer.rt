//! Bytes that were read from a source and not yet taken.

ghost use Rattle.std.specs.Prelude.{◌≡◌, ◌≢◌, ◌≤◌, ◌⊎◌, [], length, drop, IfErr, IfOk, OnErr, OnOk};
ghost use Rattle.std.specs.Bool.{OnFalse, OnTrue};
ghost use Rattle.plane.specs.Device.{HasFailed};
ghost use Rattle.plane.specs.SourceChange.{reading_of};

use plane::{Refusal, Source};

// How many bytes are asked for at a time.
const ROOM: usize = 8192;

/// Bytes that were read from a source and not yet taken. All calls for one source take the same
/// buffer.
#[derive(Drop)]
pub struct Buffer {
    bytes: [u8; ROOM],
    start: usize,
    end: usize,
    ghost ordered: { start ≤ end },
    ghost within: { end ≤ 8192 },
}

impl Buffer {
    ghost use Rattle.pipe_lines.specs.Supply.{HasEnded, HasTaken, IsOneRead, pending_in};

    /// No bytes.
    #[tactic(auto, unfolding(crate::specs::Supply::pending_in))]
    pub fn new() -> Self
        ensures { pending_in result ≡ [] }
    {
        Buffer {
            bytes: [0; ROOM],
            start: 0,
            end: 0,
        }
    }

    // The bytes that were not yet taken.
    #[tactic(auto, unfolding(crate::specs::Supply::pending_in))]
    pub(crate) fn pending(&self) -> &[u8]
        ensures { result.now ≡ pending_in self.now }
    {
        &self.bytes[self.start..self.end]
    }

    // Takes so many of them.
    #[tactic(auto, unfolding(crate::specs::Supply::pending_in))]
    pub(crate) fn take(&mut self, count: usize)
        requires { count ≤ length (pending_in self.old) }
        ensures { pending_in self.new ≡ drop count (pending_in self.old) }
    {
        self.start += count;
    }

    // Reads some, if there are none. Says whether there are some now: if not, the source has ended.
    // `ReadFailed` where it failed.
    #[tactic(auto, unfolding(crate::specs::Supply::pending_in))]
    pub(crate) fn fill<S: Source>(&mut self, source: &mut S) -> Result<bool, Refusal>
        ensures taken { HasTaken
            (reading_of S.remaining S.given S.has_ended S.failure_count source.old source.new)
            (pending_in self.old) (pending_in self.new) [] }
        ensures more { IfOk result (λ more. OnTrue more (pending_in self.new ≢ [])) }
        ensures end { IfOk result (λ more. OnFalse more (HasEnded
            (reading_of S.remaining S.given S.has_ended S.failure_count source.old source.new)
            (pending_in self.old) (pending_in self.new))) }
        ensures none { OnErr result (pending_in self.new ≡ []) }
        ensures read { (source.new ≡ source.old)
            ⊎ ((pending_in self.old ≡ []) × IsOneRead S.reads source.old source.new) }
        ensures unfailed { OnOk result (S.failure_count source.new ≡ S.failure_count source.old) }
        ensures failed { IfErr result (λ refusal. (refusal ≡ Refusal.ReadFailed)
            × HasFailed (S.failure_count source.old) (S.failure_count source.new)) }
    {
        if self.start < self.end {
            return Ok(true);
        }
        let Ok(count) = source.read_some(&mut self.bytes) else {
            return Err(Refusal::ReadFailed);
        };
        self.start = 0;
        self.end = count;
        Ok(count > 0)
    }
}
