//! The output file, created at its first byte.

ghost use Rattle.std.specs.Prelude.{◌≡◌, ◌<◌, Some, [], Ok, length, true, IfOk};
ghost use Rattle.std.specs.Io.{WritesAtMost};
ghost use Rattle.std.specs.Io.KnownBytes.{WriteAppends};
ghost use Rattle.std.specs.Option.{option_copied};
ghost use Rattle.plane.specs.Device.{failures_after};
ghost use Rattle.program_parts.specs.Files.{IsFresh, IsUnwritten};

use plane::{Counted, Failed, Sink};
use std::fs;
use std::marker::Model;
use std::rt::Files;

/// A file that is created, or emptied, when its first byte is written. Without a name each write of
/// some bytes fails.
#[derive(Drop)]
pub struct OutputFile<'a, R: Files> {
    runtime: &'a R,
    path: Option<&'a str>,
    file: Option<Counted<R::File>>,
    failures: u64,
}

impl<'a, R: Files> Model for OutputFile<'a, R> {
    ghost use Rattle.std.specs.Option.{is_some, option_copied};
    ghost use Rattle.program_parts.specs.Files.{OutputState, failures_of, taken_by};

    ghost Value = { OutputState };

    ghost view = { λ output. record {
      path = option_copied output.path;
      is_created = is_some output.file;
      taken = taken_by output.file;
      failures = output.failures;
      file_failures = failures_of output.file 0;
    } };
}

impl<'a, R: Files> OutputFile<'a, R> {
    /// The file of this name.
    pub fn new(runtime: &'a R, path: Option<&'a str>) -> Self
        ensures { IsUnwritten (option_copied path.entry) result }
    {
        OutputFile {
            runtime,
            path,
            file: None,
            failures: 0,
        }
    }

    // Passes the bytes on to the file, which is created if it was not yet.
    fn pass_on(&mut self, bytes: &[u8]) -> Result<usize, Failed>
        ensures bound { WritesAtMost result bytes.now }
        ensures progress { 0 < length bytes.now → IfOk result (λ count. 0 < count) }
        ensures bytes { WriteAppends (Some self.old.taken) (Some self.new.taken) result bytes.now }
        ensures failures { self.new.failures ≡ self.old.failures }
        // A write of no bytes does not create it.
        ensures empty { bytes.now ≡ [] → (result ≡ Ok 0) × (self.new ≡ self.old) }
        // Once it is created, only its own writes fail.
        ensures passes { self.new.is_created ≡ true →
            self.new.file_failures ≡ failures_after result self.old.file_failures }
        ensures created { self.old.is_created ≡ true → self.new.is_created ≡ true }
        ensures named { self.new.path ≡ self.old.path }
    {
        if bytes.is_empty() {
            return Ok(0);
        }
        if self.file.is_none() {
            self.file = Some(self.create()?);
        }
        match &mut self.file {
            Some(file) => file.write_some(bytes),
            None => Err(Failed),
        }
    }

    // The file, created or emptied.
    fn create(&self) -> Result<Counted<R::File>, Failed>
        ensures { IfOk result IsFresh }
    {
        let path = self.path.ok_or(Failed)?;
        match fs::create(self.runtime, path) {
            Ok(file) => Ok(Counted::new(file)),
            Err(_) => Err(Failed),
        }
    }
}

impl<'a, R: Files> Sink for OutputFile<'a, R> {
    // What the file took from the writes of this value.
    ghost taken = { λ output. Some output.taken };

    ghost failure_count = { λ output. output.failures };

    fn write_some(&mut self, bytes: &[u8]) -> Result<usize, Failed>
        ensures bound { WritesAtMost result bytes.now }
        ensures progress { 0 < length bytes.now → IfOk result (λ count. 0 < count) }
        ensures bytes { WriteAppends (Some self.old.taken) (Some self.new.taken) result bytes.now }
        ensures failures { self.new.failures ≡ failures_after result self.old.failures }
        // A write of no bytes does not create it.
        ensures empty { bytes.now ≡ [] → (result ≡ Ok 0) × (self.new ≡ self.old) }
        // Once it is created, only its own writes fail.
        ensures passes { self.new.is_created ≡ true →
            self.new.file_failures ≡ failures_after result self.old.file_failures }
        ensures created { self.old.is_created ≡ true → self.new.is_created ≡ true }
        ensures named { self.new.path ≡ self.old.path }
    {
        let outcome = self.pass_on(bytes);
        if outcome.is_err() {
            self.failures = self.failures.saturating_add(1);
        }
        outcome
    }

    fn failures(&self) -> u64 {
        self.failures
    }
}
