//! What the words of a command line ask for.

ghost use Rattle.std.specs.Prelude.{◌≡◌, ℕ, List, Option, codes, IfOk, IfErr};
ghost use Rattle.std.specs.Borrow.{Bor};
ghost use Rattle.std.specs.Option.{option_copied};
ghost use Rattle.clap.specs.Words.{Text, found_of, one_text};
ghost use Rattle.engine.specs.declared.options.Format.{Format};
ghost use Rattle.program_parts.specs.Asking.{IsReasonOf};
ghost use Rattle.program_parts.specs.Texts.{AreMatchesIn, HasText};
ghost use Rattle.batch_program.specs.CommandLine.{AskForOptions, IsFlag, IsFormat, command_form, command_line};

use crate::window_option::{narrow_numbers, window_asked};
use clap::ArgMatches;
use engine::{Format, Options};
use program_parts::{Misfit, WordsReason, number_for, rule_asked, run_numbers};

/// What the words of a command line ask for.
#[derive(Drop)]
pub struct Asked {
    /// What the run is to do.
    pub options: Options,
    /// The file that is read.
    pub file: String,
    /// The file that is written, if one is.
    pub output: Option<String>,
}

/// What a run is to do by the words, of which one names a file.
pub(crate) fn options_by(matches: &ArgMatches<'_>) -> Result<Options, WordsReason>
    ensures asks { (words : List Text) → AreMatchesIn command_form words matches.now →
        IfOk result (AskForOptions words) }
    ensures faults { (words : List Text) → AreMatchesIn command_form words matches.now →
        HasText command_form (codes "file") words → IfErr result (IsReasonOf command_line words) }
{
    let run = run_numbers(matches)?;
    let step = number_for(matches, "stepsize")?;
    let format = format_of(matches.get_str("output"))?;
    let numbers = narrow_numbers(matches.get_str("window"))?;
    let rule = rule_asked(matches.get_str("rule"))?;
    let window = window_asked(numbers)?;
    Ok(Options {
        gens: run.gens,
        step,
        rule,
        window,
        format,
        pairs: run.pairs,
        workers: run.workers,
        quiet: is_set(matches, "quiet"),
    })
}

// Whether a flag is set; `get_one` serves for any text, the contract of `get_flag` for two.
fn is_set(matches: &ArgMatches<'_>, name: &str) -> bool
    ensures { IsFlag (one_text (found_of matches.now) name.now) result }
{
    matches.get_one::<bool>(name).unwrap_or(false)
}

// The format of the file that is written, by the ending of its name.
fn format_of(output: Option<&str>) -> Result<Option<Format>, WordsReason>
    ensures ok { IfOk result (IsFormat (option_copied output.entry)) }
    ensures err { IfErr result (λ fault. (endings : Bor (List ℕ))
        × (fault ≡ WordsReason.Unfit (Misfit.Ending endings))
        × ((format : Option Format) → ¬ IsFormat (option_copied output.entry) format)) }
{
    let Some(name) = output else {
        return Ok(None);
    };
    if name.as_bytes().ends_with(b".rle") {
        return Ok(Some(Format::Rle));
    }
    if name.as_bytes().ends_with(b".mc") {
        return Ok(Some(Format::Macrocell));
    }
    Err(WordsReason::Unfit(Misfit::Ending(".rle or .mc")))
}
