//! What bytes are read from and written to, and all of some bytes, written.

ghost use Rattle.std.specs.Prelude.{◌≡◌, ℕ, ◌<◌, List, None, OnErr, OnOk, Option, Result, Some, codes, length, IfOk};
ghost use Rattle.std.specs.Io.{ReadsAtMost, WritesAtMost};
ghost use Rattle.std.specs.Io.KnownBytes.{Appends, ReadConsumes, WriteAppends};
ghost use Rattle.plane.specs.Device.{AppendsBeginning, FindsEnd, ReadGives, TellsFailure, failures_after};
ghost use Rattle.plane.specs.declared.device.traits.Failed.{Failed};

use crate::refusal::Refusal;
use std::error::Error;
use std::fmt;

/// A call of a device failed. What the device holds is as it was.
#[derive(Clone, Copy, Debug, PartialEq, Eq)]
pub struct Failed;

impl fmt::Display for Failed {
    ghost output = { λ _. Some (codes "the device failed") };

    fn fmt<W: fmt::Write>(&self, f: &mut fmt::Formatter<W>) -> fmt::Result {
        f.write_str("the device failed")
    }
}

impl Error for Failed {}

/// What bytes are read from.
pub trait Source {
    // The bytes that are still to come, where the device tells them.
    ghost remaining: { Self → Option (List ℕ) };

    // The bytes that were given so far, where the device tells them.
    ghost given: { Self → Option (List ℕ) } = { λ _. None };

    // The last read that did not fail found the end, where the device tells that.
    ghost has_ended: { Self → Type 0 } = { λ _. Unit {0} };

    // How many calls have failed, or 2^64 - 1 for any more.
    ghost failure_count: { Self → ℕ };

    // What a call may do, where the device tells that: the device and the buffer before it, its
    // answer, and both after it.
    ghost reads: { Self → List ℕ → Result ℕ Failed → Self → List ℕ → Type 0 } = { λ _ _ _ _ _. Unit {0} };

    /// Reads some bytes into the front of the buffer, and answers how many: none only at the
    /// end, or where the buffer is empty. A call that fails takes none from the device; what the
    /// buffer holds then is not said.
    fn read_some(&mut self, buffer: &mut [u8]) -> Result<usize, Failed>
        ensures bound { ReadsAtMost result buffer.new }
        ensures bytes { ReadConsumes (remaining self.old) (remaining self.new) result buffer.new }
        ensures given { ReadGives (given self.old) (given self.new) result buffer.new }
        ensures end { FindsEnd result buffer.new → has_ended self.new }
        ensures failures { failure_count self.new
            ≡ failures_after result (failure_count self.old) }
        ensures does { reads self.old buffer.old result self.new buffer.new };

    /// How many calls have failed, or 2^64 - 1 for any more.
    fn failures(&self) -> u64
        ensures { result ≡ failure_count self.now };
}

/// What bytes are written to.
pub trait Sink {
    // The bytes that were taken so far, where the device tells them.
    ghost taken: { Self → Option (List ℕ) };

    // How many calls have failed, or 2^64 - 1 for any more.
    ghost failure_count: { Self → ℕ };

    // What a call may do, where the device tells that: the device before it, the bytes that it is
    // given, its answer, and the device after it.
    ghost writes: { Self → List ℕ → Result ℕ Failed → Self → Type 0 } = { λ _ _ _ _. Unit {0} };

    /// Takes the first bytes, at least one unless there are none, and answers how many it took. A
    /// call that fails takes none.
    fn write_some(&mut self, bytes: &[u8]) -> Result<usize, Failed>
        ensures bound { WritesAtMost result bytes.now }
        ensures progress { 0 < length bytes.now → IfOk result (λ count. 0 < count) }
        ensures bytes { WriteAppends (taken self.old) (taken self.new) result bytes.now }
        ensures failures { failure_count self.new
            ≡ failures_after result (failure_count self.old) }
        ensures does { writes self.old bytes.now result self.new };

    /// How many calls have failed, or 2^64 - 1 for any more.
    fn failures(&self) -> u64
        ensures { result ≡ failure_count self.now };
}

/// Writes all of the bytes. `WriteFailed` where the sink failed in this call; it took the first of
/// them then, or none, and never all.
pub fn write_all<W: Sink>(sink: &mut W, bytes: &[u8]) -> Result<(), Refusal>
    ensures written { OnOk result (Appends (W.taken sink.old) (W.taken sink.new) bytes.now) }
    ensures beginning { OnErr result
        (AppendsBeginning (W.taken sink.old) (W.taken sink.new) bytes.now) }
    ensures failure { TellsFailure (W.failure_count sink.old) (W.failure_count sink.new) result }
{
    let mut written = 0;
    while written < bytes.len() {
        let Ok(count) = sink.write_some(&bytes[written..]) else {
            return Err(Refusal::WriteFailed);
        };
        written += count;
    }
    Ok(())
}
