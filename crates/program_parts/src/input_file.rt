//! The file that is read.

ghost use Rattle.std.specs.Prelude.{◌≡◌, ◌↔◌, None, Some, IfOk, IfSome, IsErr, IsTrue, OnErr, false};
ghost use Rattle.std.specs.Io.{ReadsAtMost};
ghost use Rattle.std.specs.Io.KnownBytes.{ReadConsumes};
ghost use Rattle.plane.specs.Device.{FindsEnd, ReadGives, failures_after};
ghost use Rattle.program_parts.specs.Files.{IsFresh, IsUnread};

use either::Either;
use plane::{Counted, Failed, Source};
use std::fs;
use std::marker::Model;
use std::rt::Files;

// The name of standard input. It is read as such, so also where its device may not be opened.
const STANDARD_INPUT: &str = "/dev/stdin";

/// The file of a name, or standard input for `/dev/stdin`, to be read. If it could not be opened,
/// each read fails.
#[derive(Drop)]
pub struct InputFile<'a, R: Files + Input> {
    path: &'a str,
    file: Option<Counted<Either<R::Reader, R::File>>>,
    // How many reads failed since there is no file.
    failures_without: u64,
}

impl<'a, R: Files + Input> Model for InputFile<'a, R> {
    ghost use Rattle.std.specs.Option.{is_some};
    ghost use Rattle.program_parts.specs.Files.{InputState, failures_of, given_by, has_found_end};

    ghost Value = { InputState };

    ghost view = { λ input. record {
      path = input.path.now;
      is_open = is_some input.file;
      given = given_by input.file;
      has_ended = has_found_end input.file;
      failures = failures_of input.file input.failures_without;
    } };
}

impl<'a, R: Files + Input> InputFile<'a, R> {
    /// Opens the file of this name.
    pub fn open(runtime: &R, path: &'a str) -> Self
        ensures { IsUnread path.entry.now result }
    {
        InputFile {
            path,
            file: open_reader(runtime, path),
            failures_without: 0,
        }
    }
}

// The file of this name, or standard input, if it could be opened.
fn open_reader<R: Files + Input>(
    runtime: &R,
    path: &str,
) -> Option<Counted<Either<R::Reader, R::File>>>
    ensures { IfSome result IsFresh }
{
    if path == STANDARD_INPUT {
        return Some(Counted::new(Either::Left(runtime.reader())));
    }
    match fs::open(runtime, path) {
        Ok(file) => Some(Counted::new(Either::Right(file))),
        Err(_) => None,
    }
}

impl<'a, R: Files + Input> Source for InputFile<'a, R> {
    ghost remaining = { λ _. None };

    ghost given = { λ input. Some input.given };

    ghost has_ended = { λ input. IsTrue input.has_ended };

    ghost failure_count = { λ input. input.failures };

    fn read_some(&mut self, buffer: &mut [u8]) -> Result<usize, Failed>
        ensures bound { ReadsAtMost result buffer.new }
        ensures bytes { ReadConsumes None None result buffer.new }
        ensures given { ReadGives (Some self.old.given) (Some self.new.given) result buffer.new }
        ensures end { FindsEnd result buffer.new → IsTrue self.new.has_ended }
        ensures failures { self.new.failures ≡ failures_after result self.old.failures }
        // It finds an end nowhere else.
        ensures ended { IfOk result (λ count.
            IsTrue self.new.has_ended ↔ FindsEnd result buffer.new) }
        // A call that fails leaves that as it was.
        ensures still { OnErr result (self.new.has_ended ≡ self.old.has_ended) }
        // A file that could not be opened fails at each call.
        ensures closed { self.old.is_open ≡ false → IsErr result }
        ensures open { self.new.is_open ≡ self.old.is_open }
        ensures named { self.new.path ≡ self.old.path }
    {
        match &mut self.file {
            Some(file) => file.read_some(buffer),
            None => {
                self.failures_without = self.failures_without.saturating_add(1);
                Err(Failed)
            }
        }
    }

    fn failures(&self) -> u64 {
        match &self.file {
            Some(file) => file.failures(),
            None => self.failures_without,
        }
    }
}
