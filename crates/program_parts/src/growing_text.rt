//! Bytes in memory to which more are added.

ghost use Rattle.std.specs.Prelude.{◌≡◌, [], Some};

use plane::{Failed, Sink};
use std::alloc::Global;

/// Bytes in memory to which more are added. A write fails if memory runs out, and takes none then.
#[derive(Drop)]
pub struct GrowingText {
    bytes: Vec<u8>,
    failures: u64,
}

impl GrowingText {
    ghost use Rattle.program_parts.specs.GrowingTexts.{text_of};

    /// No bytes.
    pub fn new(alloc: Global) -> Self
        ensures { text_of result ≡ [] }
    {
        GrowingText {
            bytes: Vec::new(alloc),
            failures: 0,
        }
    }

    /// The bytes that it took.
    pub fn into_bytes(self) -> Vec<u8>
        ensures { result.items ≡ text_of self }
    {
        self.bytes
    }
}

impl Sink for GrowingText {
    ghost taken = { λ text. Some text.bytes.items };

    ghost failure_count = { λ text. text.failures };

    fn write_some(&mut self, bytes: &[u8]) -> Result<usize, Failed> {
        if self.bytes.extend_from_slice(bytes).is_err() {
            self.failures = self.failures.saturating_add(1);
            return Err(Failed);
        }
        Ok(bytes.len())
    }

    fn failures(&self) -> u64 {
        self.failures
    }
}
