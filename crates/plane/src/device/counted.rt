//! Readers and writers of the standard library as devices.

ghost use Rattle.std.specs.Prelude.{◌≡◌, ◌+◌, ◌<◌, ◌↔◌, Some, [], length, min, IfOk, OnErr};
ghost use Rattle.std.specs.Io.{ReadsAtMost, WritesAtMost};
ghost use Rattle.std.specs.Io.KnownBytes.{ReadConsumes, WriteAppends};
ghost use Rattle.plane.specs.Device.{FindsEnd, ReadGives, failures_after, most_failures};
ghost use Rattle.plane.specs.DeviceParts.{counted_failures, counted_given, counted_has_ended, counted_inner, counted_taken};

use super::history::History;
use super::{Failed, Sink, Source};
use std::io::{Read, Write};

/// A reader or a writer of `std` as a device. A call that is interrupted, and a write that takes
/// none of some bytes, are failures.
#[derive(Drop)]
pub struct Counted<T> {
    inner: T,
    failures: u64,
    ended: bool,
    given: History,
    taken: History,
}

impl<T> Counted<T> {
    /// The device, with no failure and no end yet.
    pub fn new(inner: T) -> Self
        ensures inner { counted_inner result ≡ inner }
        ensures failures { counted_failures result ≡ 0 }
        ensures given { counted_given result ≡ [] }
        ensures taken { counted_taken result ≡ [] }
        ensures ended { ¬ (counted_has_ended result) }
    {
        Counted {
            inner,
            failures: 0,
            ended: false,
            given: History::new(),
            taken: History::new(),
        }
    }

    fn fail(&mut self) -> Failed
        ensures inner { counted_inner self.new ≡ counted_inner self.old }
        ensures failures { counted_failures self.new
            ≡ min (counted_failures self.old + 1) most_failures }
        ensures given { counted_given self.new ≡ counted_given self.old }
        ensures taken { counted_taken self.new ≡ counted_taken self.old }
        ensures ended { self.new.ended ≡ self.old.ended }
    {
        self.failures = self.failures.saturating_add(1);
        Failed
    }
}

impl<T: Read> Source for Counted<T> {
    ghost remaining = { λ device. T.remaining device.inner };

    ghost given = { λ device. Some (counted_given device) };

    ghost has_ended = { counted_has_ended };

    ghost failure_count = { λ device. device.failures };

    fn read_some(&mut self, buffer: &mut [u8]) -> Result<usize, Failed>
        ensures bound { ReadsAtMost result buffer.new }
        ensures bytes { ReadConsumes (T.remaining (counted_inner self.old))
            (T.remaining (counted_inner self.new)) result buffer.new }
        ensures given { ReadGives (Some (counted_given self.old)) (Some (counted_given self.new))
            result buffer.new }
        ensures end { FindsEnd result buffer.new → counted_has_ended self.new }
        ensures failures { counted_failures self.new
            ≡ failures_after result (counted_failures self.old) }
        // It finds an end nowhere else.
        ensures ended { IfOk result (λ count.
            counted_has_ended self.new ↔ FindsEnd result buffer.new) }
        // A call that fails leaves that as it was.
        ensures still { OnErr result (counted_has_ended self.new ↔ counted_has_ended self.old) }
    {
        match self.inner.read(buffer) {
            Ok(count) => {
                self.ended = count == 0 && !buffer.is_empty();
                self.given.extend(&buffer[..count]);
                Ok(count)
            }
            Err(_) => Err(self.fail()),
        }
    }

    fn failures(&self) -> u64 {
        self.failures
    }
}

impl<T: Write> Sink for Counted<T> {
    ghost taken = { λ device. Some (counted_taken device) };

    ghost failure_count = { λ device. device.failures };

    fn write_some(&mut self, bytes: &[u8]) -> Result<usize, Failed>
        ensures bound { WritesAtMost result bytes.now }
        ensures progress { 0 < length bytes.now → IfOk result (λ count. 0 < count) }
        ensures bytes { WriteAppends (Some (counted_taken self.old)) (Some (counted_taken self.new))
            result bytes.now }
        ensures failures { counted_failures self.new
            ≡ failures_after result (counted_failures self.old) }
        // The writer takes the same bytes, where it tells what it holds.
        ensures contents { WriteAppends (T.contents (counted_inner self.old))
            (T.contents (counted_inner self.new)) result bytes.now }
    {
        match self.inner.write(bytes) {
            Ok(count) if count > 0 || bytes.is_empty() => {
                self.taken.extend(&bytes[..count]);
                Ok(count)
            }
            _ => Err(self.fail()),
        }
    }

    fn failures(&self) -> u64 {
        self.failures
    }
}
