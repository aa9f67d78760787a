//! A device that fails at one of its calls.

ghost use Rattle.std.specs.Prelude.{◌≡◌, ◌≢◌, ◌-◌, ◌<◌, ◌↔◌, length, IfOk, IsErr, IsTrue};
ghost use Rattle.std.specs.Io.{ReadsAtMost, WritesAtMost};
ghost use Rattle.std.specs.Io.KnownBytes.{ReadConsumes, WriteAppends};
ghost use Rattle.plane.specs.Device.{FindsEnd, ReadGives, failures_after};
ghost use Rattle.plane.specs.DeviceParts.{PassesOn, calls_until_failure, fail_at_failures, fail_at_inner};

use super::{Failed, Sink, Source};

/// A device that fails at one of its calls, and passes all others on.
#[derive(Drop)]
pub struct FailAt<T> {
    inner: T,
    calls_until_failure: u64,
    failures: u64,
}

impl<T> FailAt<T> {
    /// The device that fails at this call, counted from 1, or at none for 0.
    pub fn new(inner: T, call: u64) -> Self
        ensures inner { fail_at_inner result ≡ inner }
        ensures call { calls_until_failure result ≡ call }
        ensures failures { fail_at_failures result ≡ 0 }
    {
        FailAt {
            inner,
            calls_until_failure: call,
            failures: 0,
        }
    }

    /// What it passes calls on to.
    pub fn inner(&self) -> &T
        ensures { result.now ≡ fail_at_inner self.now }
    {
        &self.inner
    }

    // Counts a call, and says whether it is the one that fails.
    fn is_failing_call(&mut self) -> bool
        ensures inner { fail_at_inner self.new ≡ fail_at_inner self.old }
        ensures failures { fail_at_failures self.new ≡ fail_at_failures self.old }
        ensures calls { calls_until_failure self.new ≡ calls_until_failure self.old - 1 }
        ensures due { IsTrue result ↔ (calls_until_failure self.old ≡ 1) }
    {
        let due = self.calls_until_failure == 1;
        self.calls_until_failure = self.calls_until_failure.saturating_sub(1);
        due
    }

    // Counts a failure, if the call failed.
    fn counted<R>(&mut self, outcome: Result<R, Failed>) -> Result<R, Failed>
        ensures inner { fail_at_inner self.new ≡ fail_at_inner self.old }
        ensures failures { fail_at_failures self.new
            ≡ failures_after result (fail_at_failures self.old) }
        ensures calls { calls_until_failure self.new ≡ calls_until_failure self.old }
        ensures outcome { result ≡ outcome }
    {
        if outcome.is_err() {
            self.failures = self.failures.saturating_add(1);
        }
        outcome
    }
}

impl<T: Source> Source for FailAt<T> {
    ghost remaining = { λ device. T.remaining device.inner };

    ghost given = { λ device. T.given device.inner };

    ghost has_ended = { λ device. T.has_ended device.inner };

    ghost failure_count = { λ device. device.failures };

    ghost reads = { λ old before answer new after.
        PassesOn (λ one told next. T.reads one before told next after) old new answer };

    fn read_some(&mut self, buffer: &mut [u8]) -> Result<usize, Failed>
        ensures bound { ReadsAtMost result buffer.new }
        ensures bytes { ReadConsumes (T.remaining (fail_at_inner self.old))
            (T.remaining (fail_at_inner self.new)) result buffer.new }
        ensures given { ReadGives (T.given (fail_at_inner self.old))
            (T.given (fail_at_inner self.new)) result buffer.new }
        ensures end { FindsEnd result buffer.new → T.has_ended (fail_at_inner self.new) }
        ensures failures { fail_at_failures self.new
            ≡ failures_after result (fail_at_failures self.old) }
        // It fails at its one call, and there passes nothing on.
        ensures call { calls_until_failure self.new ≡ calls_until_failure self.old - 1 }
        ensures due { calls_until_failure self.old ≡ 1 →
            IsErr result × (fail_at_inner self.new ≡ fail_at_inner self.old) }
        // At any other call it fails exactly where the inner device does.
        ensures passes { calls_until_failure self.old ≢ 1 →
            T.failure_count (fail_at_inner self.new)
            ≡ failures_after result (T.failure_count (fail_at_inner self.old)) }
        // What the inner device does there, and its answer, are those of the call.
        ensures does { PassesOn
            (λ old answer new. T.reads old buffer.old answer new buffer.new)
            self.old self.new result }
    {
        let outcome = if self.is_failing_call() {
            Err(Failed)
        } else {
            self.inner.read_some(buffer)
        };
        self.counted(outcome)
    }

    fn failures(&self) -> u64 {
        self.failures
    }
}

impl<T: Sink> Sink for FailAt<T> {
    ghost taken = { λ device. T.taken device.inner };

    ghost failure_count = { λ device. device.failures };

    ghost writes = { λ old bytes answer new.
        PassesOn (λ one told next. T.writes one bytes told next) old new answer };

    fn write_some(&mut self, bytes: &[u8]) -> Result<usize, Failed>
        ensures bound { WritesAtMost result bytes.now }
        ensures progress { 0 < length bytes.now → IfOk result (λ count. 0 < count) }
        ensures bytes { WriteAppends (T.taken (fail_at_inner self.old))
            (T.taken (fail_at_inner self.new)) result bytes.now }
        ensures failures { fail_at_failures self.new
            ≡ failures_after result (fail_at_failures self.old) }
        // It fails at its one call, and there passes nothing on.
        ensures call { calls_until_failure self.new ≡ calls_until_failure self.old - 1 }
        ensures due { calls_until_failure self.old ≡ 1 →
            IsErr result × (fail_at_inner self.new ≡ fail_at_inner self.old) }
        // At any other call it fails exactly where the inner device does.
        ensures passes { calls_until_failure self.old ≢ 1 →
            T.failure_count (fail_at_inner self.new)
            ≡ failures_after result (T.failure_count (fail_at_inner self.old)) }
        // What the inner device does there, and its answer, are those of the call.
        ensures does { PassesOn (λ old answer new. T.writes old bytes.now answer new)
            self.old self.new result }
    {
        let outcome = if self.is_failing_call() {
            Err(Failed)
        } else {
            self.inner.write_some(bytes)
        };
        self.counted(outcome)
    }

    fn failures(&self) -> u64 {
        self.failures
    }
}
