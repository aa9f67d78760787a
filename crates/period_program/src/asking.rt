//! What the words of a command line ask for.

ghost use Rattle.std.specs.Prelude.{List, codes, IfErr, IfOk};
ghost use Rattle.std.specs.Option.{option_copied};
ghost use Rattle.clap.specs.Words.{Text};
ghost use Rattle.program_parts.specs.Asking.{IsReasonOf};
ghost use Rattle.program_parts.specs.Texts.{AreMatchesIn, HasText};
ghost use Rattle.period_program.specs.CandidateTexts.{IsAskedCandidates, IsCount, IsUnfitCandidates, IsUnfitCount};
ghost use Rattle.period_program.specs.CommandLine.{AskForSearch, command_form, command_line};

use clap::ArgMatches;
use engine::RunOptions;
use period_search::Candidates;
use plane::GENERATION_LIMIT;
use program_parts::{Misfit, WordsReason, rule_asked, run_numbers};

/// The most generations that are tried where words do not say it.
pub const DEFAULT_MOST: u64 = 1000;

/// The most that `--most` may give.
pub const LARGEST_MOST: u64 = 1 << 32;

/// The most that `--multiple` may give.
pub const LARGEST_MULTIPLE: u64 = GENERATION_LIMIT;

/// What is looked for: the least period of the last generation of a run.
#[derive(Clone, Copy, Debug, PartialEq, Eq)]
pub struct Search {
    /// The run whose last generation it is.
    pub run: RunOptions,
    /// The numbers of generations that are tried.
    pub candidates: Candidates,
}

/// What the words of a command line ask for.
#[derive(Drop)]
pub struct Asked {
    /// What is looked for.
    pub search: Search,
    /// The file that is read.
    pub file: String,
}

/// What is looked for by the words, of which one names a file.
pub(crate) fn search_by(matches: &ArgMatches<'_>) -> Result<Search, WordsReason>
    ensures asks { (words : List Text) → AreMatchesIn command_form words matches.now →
        IfOk result (AskForSearch words) }
    ensures faults { (words : List Text) → AreMatchesIn command_form words matches.now →
        HasText command_form (codes "file") words → IfErr result (IsReasonOf command_line words) }
{
    let run = run_numbers(matches)?;
    let candidates = candidates_asked(matches.get_str("most"), matches.get_str("multiple"))?;
    let rule = rule_asked(matches.get_str("rule"))?;
    Ok(Search {
        run: RunOptions { rule, ..run },
        candidates,
    })
}

// The numbers of generations that are tried. `Unfit` with `Together` where both texts are given,
// and with `Other` where one is no number that may be given.
fn candidates_asked(most: Option<&str>, multiple: Option<&str>) -> Result<Candidates, WordsReason>
    ensures ok { IfOk result
        (IsAskedCandidates (option_copied most.entry) (option_copied multiple.entry)) }
    ensures err { IfErr result
        (IsUnfitCandidates (option_copied most.entry) (option_copied multiple.entry)) }
{
    match (most, multiple) {
        (None, None) => Ok(Candidates::UpTo(DEFAULT_MOST)),
        (Some(text), None) => Ok(Candidates::UpTo(count_in(text, LARGEST_MOST)?)),
        (None, Some(text)) => Ok(Candidates::DivisorsOf(count_in(text, LARGEST_MULTIPLE)?)),
        (Some(_), Some(_)) => Err(WordsReason::Unfit(Misfit::Together("--most and --multiple"))),
    }
}

// The number of a text, from 1 to a limit.
fn count_in(text: &str, limit: u64) -> Result<u64, WordsReason>
    ensures ok { IfOk result (IsCount limit text.now) }
    ensures err { IfErr result (IsUnfitCount limit text.now) }
{
    match text.parse::<u64>() {
        Ok(number) if 1 <= number && number <= limit => Ok(number),
        _ => Err(WordsReason::Unfit(Misfit::Other)),
    }
}
