//! The values of options that several programs have.

ghost use Rattle.std.specs.Prelude.{◌≡◌, List, codes, string_bytes, IfOk, IfErr};
ghost use Rattle.std.specs.Option.{option_copied, option_map};
ghost use Rattle.clap.specs.Words.{App, Text, found_of, one_text};
ghost use Rattle.program_parts.specs.RunWords.{GiveLimits, GiveNumbers, IsUnfitLimit, IsUnfitNumber};
ghost use Rattle.program_parts.specs.Texts.{AreMatchesIn};
ghost use Rattle.program_parts.specs.Values.{IsAskedRule, IsNumber, IsPairNumber, IsRefusedRule, IsUnfit, IsWorkerNumber};

use crate::reason::{Misfit, WordsReason};
use clap::ArgMatches;
use plane::{Refusal, rule_refusal};
use rule_text::Rule;
use run_options::{MOST_WORKERS, RunOptions};
use std::alloc::{AllocError, Global};
use table_core::Shape;

/// The number that is read for an option. `Unfit` with `Other` if there is none.
pub fn number_for(matches: &ArgMatches<'_>, name: &str) -> Result<u64, WordsReason>
    ensures ok { IfOk result (IsNumber (one_text (found_of matches.now) name.now)) }
    ensures err { IfErr result (IsUnfit Misfit.Other
        (IsNumber (one_text (found_of matches.now) name.now))) }
{
    matches
        .get_one::<u64>(name)
        .ok_or(WordsReason::Unfit(Misfit::Other))
}

// The most pair slots that the tables may have. `Unfit` with `Nodes` if the number is not a power
// of two from 2^10 to 2^28.
fn pairs_asked(matches: &ArgMatches<'_>) -> Result<u32, WordsReason>
    ensures ok { IfOk result (IsPairNumber (one_text (found_of matches.now) (codes "nodes"))) }
    ensures err { IfErr result (IsUnfit Misfit.Nodes
        (IsPairNumber (one_text (found_of matches.now) (codes "nodes")))) }
{
    let Some(number) = matches.get_one::<u64>("nodes") else {
        return Err(WordsReason::Unfit(Misfit::Nodes));
    };
    match u32::try_from(number) {
        Ok(pairs) if Shape::is_pair_count(pairs) => Ok(pairs),
        _ => Err(WordsReason::Unfit(Misfit::Nodes)),
    }
}

// How many workers run. `Unfit` with `Workers` if the number is not from 1 to 64.
fn workers_asked(matches: &ArgMatches<'_>) -> Result<usize, WordsReason>
    ensures ok { IfOk result (IsWorkerNumber (one_text (found_of matches.now) (codes "workers"))) }
    ensures err { IfErr result (IsUnfit Misfit.Workers
        (IsWorkerNumber (one_text (found_of matches.now) (codes "workers")))) }
{
    let Some(number) = matches.get_one::<u64>("workers") else {
        return Err(WordsReason::Unfit(Misfit::Workers));
    };
    if number == 0 || number > MOST_WORKERS as u64 {
        return Err(WordsReason::Unfit(Misfit::Workers));
    }
    Ok(number as usize)
}

/// The rule that is given, if one is. `BadRule` or `BirthOnZero` for a text that is none.
pub fn rule_asked(text: Option<&str>) -> Result<Option<Rule>, Refusal>
    ensures ok { IfOk result (IsAskedRule (option_copied text.entry)) }
    ensures err { IfErr result (IsRefusedRule (option_copied text.entry)) }
{
    let Some(text) = text else {
        return Ok(None);
    };
    match Rule::read(text.as_bytes()) {
        Ok(rule) => Ok(Some(rule)),
        Err(fault) => Err(rule_refusal(fault)),
    }
}

/// A copy of a text, if there is one.
pub fn copied(alloc: Global, text: Option<&str>) -> Result<Option<String>, AllocError>
    ensures { IfOk result (λ copy. option_map string_bytes copy ≡ option_copied text.entry) }
{
    match text {
        Some(text) => Ok(Some(String::from_str(alloc, text)?)),
        None => Ok(None),
    }
}

/// How large the tables of a program may be, and how many workers take its steps.
#[derive(Clone, Copy, Debug, PartialEq, Eq)]
pub struct Limits {
    /// The most pair slots that all tables of squares may have together: a power of two, from 2^10
    /// to 2^28.
    pub pairs: u32,
    /// How many workers take the steps, from 1 to 64.
    pub workers: usize,
}

/// The slots and the workers that words ask for. `Unfit` with `Nodes` or `Workers` if one of the
/// numbers is not fit.
pub fn limits_asked(matches: &ArgMatches<'_>) -> Result<Limits, WordsReason>
    ensures ok { (form : App) (words : List Text) → AreMatchesIn form words matches.now →
        IfOk result (GiveLimits form words) }
    ensures err { (form : App) (words : List Text) → AreMatchesIn form words matches.now →
        IfErr result (IsUnfitLimit form words) }
{
    let pairs = pairs_asked(matches)?;
    let workers = workers_asked(matches)?;
    Ok(Limits { pairs, workers })
}

/// The generations, the slots and the workers of the run that words ask for; it has no rule yet.
/// `Unfit` with `Nodes`, `Workers` or `Other` if one of the numbers is not fit.
pub fn run_numbers(matches: &ArgMatches<'_>) -> Result<RunOptions, WordsReason>
    ensures ok { (form : App) (words : List Text) → AreMatchesIn form words matches.now →
        IfOk result (GiveNumbers form words) }
    ensures err { (form : App) (words : List Text) → AreMatchesIn form words matches.now →
        IfErr result (IsUnfitNumber form words) }
{
    let gens = number_for(matches, "generation")?;
    let pairs = pairs_asked(matches)?;
    let workers = workers_asked(matches)?;
    Ok(RunOptions {
        gens,
        rule: None,
        pairs,
        workers,
    })
}
