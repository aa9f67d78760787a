//! What holds of every run.

ghost use Rattle.std.specs.Prelude.{◌≡◌, ℕ, IfSome, List, Ok, Result};
ghost use Rattle.rule_text.specs.CountRule.{IsRule};
ghost use Rattle.plane.specs.declared.fault.Fault.{Fault};
ghost use Rattle.engine.specs.CutRuns.{AreParts, CanBeRead, GoesOn};
ghost use Rattle.engine.specs.Judgement.{Start, Judges};
ghost use Rattle.engine.specs.Run.{Finishes};
ghost use Rattle.engine.specs.RunOptions.{run_of, with_workers};
ghost use Rattle.engine.specs.declared.running.Summary.{Summary};
ghost use Rattle.engine.specs.declared.options.Options.{Options};
ghost use Rattle.run_options.specs.declared.options.RunOptions.{RunOptions};

/// A run has one judgement: it is accepted or refused, and never both.
pub fn one_judgement()
    ensures { (bytes : List ℕ) (run : RunOptions) (a b : Result Start Fault) →
        Judges bytes run a → Judges bytes run b → a ≡ b }
{}

/// An accepted run has one answer, one report and one file.
pub fn one_ending()
    ensures { (start : Start) (options : Options) (a b : Summary)
        (said others written other : List ℕ) →
        Finishes start options a said written → Finishes start options b others other →
        (a ≡ b) × (said ≡ others) × (written ≡ other) }
{}

/// With every number of workers, and in tables of every size, a run has the same judgement, and an
/// accepted one the same answer, the same report and the same file.
pub fn every_number_of_workers()
    ensures judged { (bytes : List ℕ) (options : Options) (workers pairs : ℕ)
        (a b : Result Start Fault) →
        Judges bytes (run_of options) a →
        Judges bytes (run_of (with_workers workers pairs options)) b → a ≡ b }
    ensures ended { (start : Start) (options : Options) (workers pairs : ℕ) (a b : Summary)
        (said others written other : List ℕ) →
        Finishes start options a said written →
        Finishes start (with_workers workers pairs options) b others other →
        (a ≡ b) × (said ≡ others) × (written ≡ other) }
{}

/// A run that was cut goes on. What its first part wrote is accepted as the file of the rest, and
/// the rest ends with the answer of the whole run, and with its file, if no kept comment ends with a
/// CR. The rest is given no rule: the file names it. The first part may write either format, within
/// the limits of the format's reader.
pub fn a_cut_run_goes_on()
    ensures { (bytes : List ℕ) (start : Start) (first rest whole : Options)
        (answer end : Summary) (said written whole_said file : List ℕ) →
        AreParts first rest whole → IfSome whole.rule IsRule →
        Judges bytes (run_of whole) (Ok start) →
        (cut : Finishes start first answer said written) → CanBeRead first.format cut.cells →
        Finishes start whole end whole_said file →
        GoesOn written rest start.meaning.comments end file }
{}
