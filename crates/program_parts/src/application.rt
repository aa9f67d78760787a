//! What makes a program: its command line, and what it does by it.

ghost use Rattle.std.specs.Option.{option_copied};
ghost use Rattle.std.specs.Prelude.{◌≡◌, ◌≤◌, ◌⊎◌, ℕ, List, length, true, Err, IfErr, IfOk};
ghost use Rattle.std.specs.Thread.{IsSync};
ghost use Rattle.clap.specs.Words.{Text, app_of, is_simple_and_free};
ghost use Rattle.plane.specs.Fault.{placeless};
ghost use Rattle.plane.specs.SinkChange.{change_of};
ghost use Rattle.plane.specs.SourceChange.{reading_of};
ghost use Rattle.program_parts.specs.Asking.{IsReasonOf};
ghost use Rattle.program_parts.specs.Behaviour.{Behaviour};
ghost use Rattle.program_parts.specs.Texts.{AreMatchesIn};

use crate::reason::WordsReason;
use clap::{ArgMatches, Command};
use plane::{Fault, Refusal, Sink, Source};
use std::alloc::{AllocError, Global};
use std::thread::Threads;

/// A program that runs patterns: its command line, and what it does where words ask for something.
pub trait Application {
    /// What words can ask for.
    type Asked: Drop;

    // How it is called.
    ghost name: { List ℕ };
    // What words ask for, and how doing that ends.
    ghost behaviour: { Behaviour Self.Asked };

    /// The name of the program, which begins its messages.
    fn name() -> &'static str
        ensures is { result.now ≡ name }
        ensures short { length name ≤ 32 };

    /// The form of the words.
    fn command<'a>(alloc: Global) -> Result<Command<'a>, AllocError>
        ensures { IfOk result (λ command. app_of command ≡ behaviour.line.form) };

    /// What words ask for, by the matches that clap has found in them.
    fn asked_by(alloc: Global, matches: &ArgMatches<'_>) -> Result<Self::Asked, WordsReason>
        ensures asks { (words : List Text) → AreMatchesIn behaviour.line.form words matches.now →
            IfOk result (behaviour.AsksFor words) }
        ensures faults { (words : List Text) → AreMatchesIn behaviour.line.form words matches.now →
            IfErr result (IsReasonOf behaviour.line words) };

    /// The name of the file that is read.
    fn input(asked: &Self::Asked) -> &str
        ensures { result.now ≡ behaviour.input asked.now };

    /// The name of the file that is written, if one is.
    fn output(asked: &Self::Asked) -> Option<&str>
        ensures { option_copied result ≡ behaviour.output asked.now };

    /// Does what some words ask for: reads `source`, says to `out` what there is to say, and writes
    /// `file`, if there is something to write. It has no other device.
    fn perform<R: Threads + Sync, S: Source, O: Sink, V: Sink>(
        rt: &R,
        alloc: Global,
        asked: &Self::Asked,
        source: &mut S,
        out: &mut O,
        file: &mut V,
    ) -> Result<(), Fault>
        requires sync { IsSync R.row }
        requires asked { (words : List Text) × behaviour.AsksFor words asked.now }
        ensures does { behaviour.Does asked.now
            (reading_of S.remaining S.given S.has_ended S.failure_count source.old source.new)
            (change_of O.taken O.failure_count out.old out.new)
            (change_of V.taken V.failure_count file.old file.new) result }
        ensures unfailed { (result ≡ Err (placeless Refusal.WriteFailed))
            ⊎ (O.failure_count out.new ≡ O.failure_count out.old) };

    // No argument of the form has a rule on another.
    ghost form_is_free: { is_simple_and_free behaviour.line.form ≡ true };
}
