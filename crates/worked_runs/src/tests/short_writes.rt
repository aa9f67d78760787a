//! A sink that takes few bytes at a time, and fails at one of its calls.

ghost use Rattle.std.specs.Prelude.{None};

use plane::{Failed, Memory, Sink};
use std::alloc::{AllocError, Global};

// Room for the longest text of a test.
const ROOM: usize = 65536;

/// A sink that takes at most so many bytes at a time, and at least one, fails at one of its calls,
/// counted from 1, or at none for 0, and counts its calls and failures.
#[derive(Drop)]
pub(crate) struct ShortWrites {
    inner: Memory,
    most: usize,
    failing_call: u64,
    pub(crate) calls: u64,
    pub(crate) failures: u64,
}

impl ShortWrites {
    pub(crate) fn new(alloc: Global, most: usize, failing_call: u64) -> Result<Self, AllocError> {
        Ok(ShortWrites {
            inner: Memory::with_room(alloc, ROOM)?,
            most,
            failing_call,
            calls: 0,
            failures: 0,
        })
    }

    /// The text that it took.
    pub(crate) fn text(&self) -> &str {
        std::str::from_utf8(self.inner.bytes()).unwrap_or("not UTF-8")
    }
}

impl Sink for ShortWrites {
    ghost taken = { λ _. None };

    ghost failure_count = { λ sink. sink.failures };

    fn write_some(&mut self, bytes: &[u8]) -> Result<usize, Failed> {
        self.calls = self.calls.saturating_add(1);
        let count = bytes.len().min(self.most.max(1));
        let outcome = if self.calls == self.failing_call {
            Err(Failed)
        } else {
            self.inner.write_some(&bytes[..count])
        };
        if outcome.is_err() {
            self.failures = self.failures.saturating_add(1);
        }
        outcome
    }

    fn failures(&self) -> u64 {
        self.failures
    }
}
