//! Bytes in memory as a device.

ghost use Rattle.std.specs.Prelude.{◌≡◌, ◌+◌, ◌≤◌, ◌<◌, ◌↔◌, ◌++◌, [], Some, drop, length, min, take, IsOk, IfOk};
ghost use Rattle.std.specs.Io.{ReadsAtMost, WritesAtMost};
ghost use Rattle.std.specs.Io.KnownBytes.{ReadConsumes, WriteAppends};
ghost use Rattle.plane.specs.Device.{FindsEnd, ReadGives, ReadsMemory, WritesMemory, failures_after, memory_given, memory_remaining, unread};

use super::{Failed, Sink, Source};
use std::alloc::{AllocError, Global};
use std::marker::Model;

/// Bytes in memory as a device: writes go to their end, and reads begin at their front. All room is
/// taken when it is made, and a write that is longer than the room that is left fails.
#[derive(Drop)]
pub struct Memory {
    bytes: Vec<u8>,
    position: usize,
    room: usize,
    failures: u64,
}

impl Model for Memory {
    ghost use Rattle.std.specs.Prelude.{◌≤◌, vec_len, vec_capacity};
    ghost use Rattle.plane.specs.Device.{MemoryContents};

    ghost Value = { MemoryContents };

    ghost view = { λ memory. record {
      bytes = memory.bytes.items;
      position = memory.position;
      room = memory.room;
      failures = memory.failures;
    } };

    ghost invariant = { λ memory. (memory.position ≤ vec_len memory.bytes)
        × (vec_len memory.bytes ≤ memory.room)
        × (memory.room ≤ vec_capacity memory.bytes) };
}

impl Memory {
    /// Room for so many bytes, and none in it yet.
    pub fn with_room(alloc: Global, room: usize) -> Result<Self, AllocError>
        ensures { IfOk result (λ memory. memory ≡ unread [] room) }
    {
        Ok(Memory {
            bytes: Vec::with_capacity(alloc, room)?,
            position: 0,
            room,
            failures: 0,
        })
    }

    /// These bytes, with no room for more.
    pub fn holding(alloc: Global, bytes: &[u8]) -> Result<Self, AllocError>
        ensures { IfOk result (λ memory. memory ≡ unread bytes.now (length bytes.now)) }
    {
        Ok(Memory {
            bytes: Vec::from_slice(alloc, bytes)?,
            position: 0,
            room: bytes.len(),
            failures: 0,
        })
    }

    /// All bytes that it was made with or took, also those that were read.
    pub fn bytes(&self) -> &[u8]
        ensures { result.now ≡ self.now.bytes }
    {
        self.bytes.as_slice()
    }
}

// Copies the first bytes to the front of the buffer, as many as both have, and says how many.
fn copy_front(bytes: &[u8], buffer: &mut [u8]) -> usize
    ensures count { result ≡ min (length bytes.now) (length buffer.old) }
    ensures copied { buffer.new ≡ take result bytes.now ++ drop result buffer.old }
{
    let count = bytes.len().min(buffer.len());
    buffer[..count].copy_from_slice(&bytes[..count]);
    count
}

impl Source for Memory {
    ghost remaining = { memory_remaining };

    ghost given = { memory_given };

    ghost has_ended = { λ memory. memory_remaining memory ≡ Some [] };

    ghost failure_count = { λ memory. memory.failures };

    ghost reads = { λ old before answer new after. ReadsMemory old before answer new after };

    fn read_some(&mut self, buffer: &mut [u8]) -> Result<usize, Failed>
        ensures bound { ReadsAtMost result buffer.new }
        ensures bytes { ReadConsumes
            (memory_remaining self.old) (memory_remaining self.new) result buffer.new }
        ensures given { ReadGives
            (memory_given self.old) (memory_given self.new) result buffer.new }
        ensures end { FindsEnd result buffer.new → memory_remaining self.new ≡ Some [] }
        ensures failures { self.new.failures ≡ failures_after result self.old.failures }
        ensures succeeds { IsOk result }
        ensures does { ReadsMemory self.old buffer.old result self.new buffer.new }
    {
        let count = copy_front(&self.bytes[self.position..], buffer);
        self.position += count;
        Ok(count)
    }

    fn failures(&self) -> u64 {
        self.failures
    }
}

impl Sink for Memory {
    ghost taken = { λ memory. Some memory.bytes };

    ghost failure_count = { λ memory. memory.failures };

    ghost writes = { λ old bytes answer new. WritesMemory old bytes answer new };

    fn write_some(&mut self, bytes: &[u8]) -> Result<usize, Failed>
        ensures bound { WritesAtMost result bytes.now }
        ensures progress { 0 < length bytes.now → IfOk result (λ count. 0 < count) }
        ensures bytes { WriteAppends (Some self.old.bytes) (Some self.new.bytes) result bytes.now }
        ensures failures { self.new.failures ≡ failures_after result self.old.failures }
        // It takes all of them, or fails where they are more than its room.
        ensures room { IsOk result ↔ (length self.old.bytes + length bytes.now ≤ self.old.room) }
        ensures whole { IfOk result (λ count. count ≡ length bytes.now) }
        ensures does { WritesMemory self.old bytes.now result self.new }
    {
        if bytes.len() > self.room - self.bytes.len() {
            self.failures = self.failures.saturating_add(1);
            return Err(Failed);
        }
        self.bytes.extend_from_slice(bytes).unwrap();
        Ok(bytes.len())
    }

    fn failures(&self) -> u64 {
        self.failures
    }
}
