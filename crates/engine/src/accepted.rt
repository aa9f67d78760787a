//! Sessions that are opened, and runs up to their judgement.

ghost use Rattle.std.specs.Prelude.{◌≡◌, ◌⊎◌, Some, Ok, Err, IfOk, IfErr, IsOkUnless};
ghost use Rattle.std.specs.List.{AllByRecursion};
ghost use Rattle.pattern_writers.specs.Reading.{IsComment};
ghost use Rattle.rule_text.specs.CountRule.{IsRule};
ghost use Rattle.rule_text.specs.declared.fault.RuleFault.{RuleFault};
ghost use Rattle.engine.specs.Accepted.{HasCellsInRange};
ghost use Rattle.plane.specs.Refusal.{rule_refusal};
ghost use Rattle.engine.specs.Judgement.{ReadsRule};
ghost use Rattle.engine.specs.Refused.{IsRefused};
ghost use Rattle.engine.specs.KeptComments.{comments_in};
ghost use Rattle.pattern_files.specs.Meaning.{meaning_of};
ghost use Rattle.table_core.specs.Sizes.{IsPairCount};
ghost use Rattle.universe.specs.Cells.{limit_of, live_cells, rule_of};
ghost use Rattle.universe.specs.Outcomes.{LacksMemoryOrRoom};
ghost use Rattle.universe.specs.Ranges.{LeavesRange};
ghost use Rattle.universe.specs.Tables.{HasFullTable};

use crate::kept_comments::KeptComments;
use crate::session::Session;
use crate::state::State;
use pattern_files::PatternFile;
use plane::{Fault, Refusal, rule_refusal};
use rule_text::Rule;
use run_options::RunOptions;
use std::alloc::Global;
use universe::{BYTES_A_PAIR_SLOT, Universe};

// The rule of a file that names none.
const LIFE: &[u8] = b"B3/S23";

impl Session {
    ghost use Rattle.engine.specs.Sessions.{IsOpenedFor, opening};

    /// Opens the pattern in a file's bytes, by the given rule or else the file's, in tables that
    /// have together at most so many pair slots: a power of two, from 2^10 to 2^28.
    ///
    /// It refuses a text that is not a pattern file, by its first fault, and the file's rule
    /// (`BadRule`, `BirthOnZero`), at the byte offset of the header, unless another is given; then
    /// `NoMemory`, and `NodesFull` if the largest table was full while the cells were built.
    pub fn open(
        alloc: Global,
        bytes: &[u8],
        rule: Option<Rule>,
        pairs: u32,
    ) -> Result<Session, Fault>
        requires { IsPairCount pairs }
        ensures ok { IfOk result (IsOpenedFor bytes.now (opening rule pairs)) }
        ensures refused { IfErr result (IsRefused bytes.now (opening rule pairs)) }
    {
        let run = RunOptions {
            gens: 0,
            rule,
            pairs,
            workers: 1,
        };
        Session::open_for(alloc, bytes, &run)
    }

    /// Opens the pattern in a file's bytes for a run: it judges the file's text, then the rule, then
    /// the range. `NoMemory` or `NodesFull` if there is no room for the cells.
    pub(crate) fn open_for(alloc: Global, bytes: &[u8], run: &RunOptions) -> Result<Session, Fault>
        requires { IsPairCount run.now.pairs }
        ensures ok { IfOk result (IsOpenedFor bytes.now run.now) }
        ensures refused { IfErr result (IsRefused bytes.now run.now) }
    {
        let text = PatternFile::open(alloc, bytes)?;
        let rule = given_or_named(&text, run.rule)?;
        let expected = bytes.len() as u64 / BYTES_A_PAIR_SLOT;
        let universe = universe_of(alloc, &rule, &text, expected, run.gens, run.pairs)?;
        Ok(Session {
            comments: kept_comments(alloc, &text)?,
            rule,
            generation: text.generation(),
            state: State::AtWork(universe),
        })
    }
}

// The kept comments of a file, owned.
fn kept_comments(alloc: Global, text: &PatternFile<'_>) -> Result<KeptComments, Refusal>
    requires { AllByRecursion IsComment (meaning_of text.now).comments }
    ensures ok { IfOk result (λ kept. comments_in kept ≡ (meaning_of text.now).comments) }
    ensures memory { IsOkUnless result Refusal.NoMemory }
{
    Ok(KeptComments::of(alloc, text.comments())?)
}

// The cells that a file makes live, in tables of at most `limit` pair slots, of which the first has
// about as many as are `expected`. It refuses `TooFar` where so many generations leave the range,
// `NodesFull` and `NoMemory`.
fn universe_of(
    alloc: Global,
    rule: &Rule,
    text: &PatternFile<'_>,
    expected: u64,
    generations: u64,
    limit: u32,
) -> Result<Universe, Refusal>
    requires { IsPairCount limit }
    ensures ok { IfOk result (λ universe.
        HasCellsInRange (meaning_of text.now) generations (live_cells universe)) }
    ensures rule { IfOk result (λ universe. rule_of universe ≡ rule.now) }
    ensures limit { IfOk result (λ universe. limit_of universe ≡ limit) }
    ensures refused { IfErr result (λ refusal. LacksMemoryOrRoom refusal
        ⊎ ((refusal ≡ Refusal.TooFar) × LeavesRange (meaning_of text.now).live
        (meaning_of text.now).generation generations)) }
    ensures full { IfErr result
        (λ refusal. refusal ≡ Refusal.NodesFull → HasFullTable rule.now limit) }
{
    let mut universe = Universe::of(alloc, rule, text, expected, limit)?;
    universe.judge_range(alloc, text.generation(), generations)?;
    Ok(universe)
}

// The rule that is given, or else the one that the file names, or that of a file that names none.
fn given_or_named(text: &PatternFile<'_>, given: Option<Rule>) -> Result<Rule, Fault>
    ensures ok { IfOk result
        (λ rule. ReadsRule given (meaning_of text.now) (Ok rule) × IsRule rule) }
    ensures err { IfErr result (λ fault. (rule_fault : RuleFault)
        × ReadsRule given (meaning_of text.now) (Err rule_fault)
        × (fault ≡ record {
          refusal = rule_refusal rule_fault;
          place = Some (meaning_of text.now).rule_place;
        })) }
{
    if let Some(rule) = given {
        return Ok(rule);
    }
    match Rule::read(text.rule_slice().unwrap_or(LIFE)) {
        Ok(rule) => Ok(rule),
        Err(fault) => Err(Fault {
            refusal: rule_refusal(fault),
            place: Some(text.rule_place()),
        }),
    }
}
