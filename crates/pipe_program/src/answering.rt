//! Requests that are answered.

ghost use Rattle.std.specs.Prelude.{◌≡◌, ℕ, List, Some};
ghost use Rattle.engine.specs.RunOptions.{IsPairCount};
ghost use Rattle.engine.specs.Sessions.{IsSameSession};
ghost use Rattle.period_search.specs.Candidates.{AreSome};
ghost use Rattle.pipe_program.specs.Answers.{Answers, AnswersOpened, CanBeAsked, IsForPattern, IsLook, Opens, Searches, reply_by};
ghost use Rattle.pipe_program.specs.States.{HasLimit, IsWithin, opened_of, state_of};

use crate::looking::{displacement_of, pattern_text, picture_text, window_of, window_text};
use crate::run_bytes::run_bytes;
use engine::{Gate, Session, Team};
use period_search::{Candidates, Period, least_period};
use pipe_requests::{Bad, Request};
use plane::{Bounds, Fault, rule_refusal};
use rule_text::{Rule, RuleFault};
use std::thread::Threads;

/// What a reply says where a request was neither refused nor bad.
#[derive(Drop)]
pub(crate) enum Answer {
    /// Nothing more.
    Done,
    /// The number of a generation.
    Generation(u64),
    /// A rule.
    Rule(Rule),
    /// How many cells are live.
    Population(u128),
    /// The box of the live cells, if there are any.
    Bounds(Option<Bounds>),
    /// A period, if there is one.
    Period(Option<Period>),
    /// How far cells were moved, if they were.
    Moved(Option<(i64, i64)>),
    /// A block.
    Bytes(Vec<u8>),
}

/// Why a request is not answered.
#[derive(Clone, Copy)]
pub(crate) enum Failure {
    Refused(Fault),
    Bad(Bad),
}

impl From<Fault> for Failure {
    ghost use Rattle.pipe_program.specs.declared.answering.Failure.TheVariants.{Refused};

    ghost from_gives = { λ fault failure. failure ≡ Refused fault };

    fn from(fault: Fault) -> Failure {
        Failure::Refused(fault)
    }
}

/// Does what a request asks for, with the bytes of its block.
pub(crate) fn answer_request<R: Threads + Sync, G: Gate>(
    team: &Team<'_, R, G>,
    pairs: u32,
    pattern: &mut Option<Session>,
    request: &Request,
    block: &[u8],
) -> Result<Answer, Failure>
    requires pairs { IsPairCount pairs }
    requires within { IsWithin pairs pattern.old }
    requires asked { CanBeAsked request.now }
    ensures answers { Answers pairs (state_of pattern.old) request.now block.now result
        (state_of pattern.new) }
    ensures within { IsWithin pairs pattern.new }
{
    match request {
        Request::Open { rule, .. } => Ok(open_file(team, pairs, pattern, *rule, block)?),
        _ => match pattern {
            Some(session) => match request {
                Request::Close => {
                    *pattern = None;
                    Ok(Answer::Done)
                }
                _ => Ok(ask(team, pairs, session, request, block)?),
            },
            None => Err(Failure::Bad(Bad::Closed)),
        },
    }
}

// Opens a pattern file, in place of the pattern that is open.
fn open_file<R: Threads + Sync, G: Gate>(
    team: &Team<'_, R, G>,
    pairs: u32,
    pattern: &mut Option<Session>,
    rule: Option<Result<Rule, RuleFault>>,
    file: &[u8],
) -> Result<Answer, Fault>
    requires { IsPairCount pairs }
    ensures opens { Opens pairs rule file.now (reply_by result) (state_of pattern.new) }
    ensures within { IsWithin pairs pattern.new }
{
    *pattern = None;
    let rule = match rule {
        Some(Ok(rule)) => Some(rule),
        Some(Err(fault)) => return Err(Fault::from(rule_refusal(fault))),
        None => None,
    };
    let session = Session::open(team.alloc, file, rule, pairs)?;
    let generation = session.generation();
    *pattern = Some(session);
    Ok(Answer::Generation(generation))
}

// Asks the pattern that is open.
fn ask<R: Threads + Sync, G: Gate>(
    team: &Team<'_, R, G>,
    pairs: u32,
    session: &mut Session,
    request: &Request,
    block: &[u8],
) -> Result<Answer, Fault>
    requires pairs { IsPairCount pairs }
    requires limit { HasLimit pairs session.old }
    requires pattern { IsForPattern request.now }
    requires asked { CanBeAsked request.now }
    ensures answers { AnswersOpened pairs (opened_of session.old) request.now block.now
        (reply_by result) (Some (opened_of session.new)) }
    ensures limit { HasLimit pairs session.new }
{
    match request {
        Request::Advance { generations } => {
            session.advance(team, *generations)?;
            Ok(Answer::Generation(session.generation()))
        }
        Request::Period { most } => search(team, session, Candidates::UpTo(*most)),
        Request::Multiple { whole } => search(team, session, Candidates::DivisorsOf(*whole)),
        Request::Same { .. } => Ok(Answer::Moved(displacement_of(team, session, block, pairs)?)),
        _ => look(team, session, request),
    }
}

fn search<R: Threads + Sync, G: Gate>(
    team: &Team<'_, R, G>,
    session: &mut Session,
    candidates: Candidates,
) -> Result<Answer, Fault>
    requires { AreSome candidates }
    ensures searches { (pairs : ℕ) → HasLimit pairs session.old →
        Searches pairs candidates (opened_of session.old) (reply_by result)
        (opened_of session.new) }
    ensures limit { (pairs : ℕ) → HasLimit pairs session.old → HasLimit pairs session.new }
{
    Ok(Answer::Period(least_period(team, session, candidates)?))
}

// Looks at the pattern that is open.
fn look<R: Threads + Sync, G: Gate>(
    team: &Team<'_, R, G>,
    session: &mut Session,
    request: &Request,
) -> Result<Answer, Fault>
    requires look { IsLook request.now }
    requires asked { CanBeAsked request.now }
    ensures answers { (pairs : ℕ) (block : List ℕ) → AnswersOpened pairs (opened_of session.old)
        request.now block (reply_by result) (Some (opened_of session.new)) }
    ensures same { IsSameSession session.old session.new }
{
    let alloc = team.alloc;
    match request {
        Request::Generation => Ok(Answer::Generation(session.generation())),
        Request::Rule => Ok(Answer::Rule(session.rule())),
        Request::Population => Ok(Answer::Population(session.population(alloc)?)),
        Request::Bounds => Ok(Answer::Bounds(session.bounds(alloc)?)),
        Request::Runs => Ok(Answer::Bytes(run_bytes(alloc, session)?)),
        Request::Window {
            x,
            y,
            width,
            height,
        } => {
            let window = window_of(*x, *y, *width, *height)?;
            Ok(Answer::Bytes(window_text(alloc, session, window)?))
        }
        Request::Write { format } => Ok(Answer::Bytes(pattern_text(
            team.runtime,
            alloc,
            session,
            *format,
        )?)),
        Request::Picture {
            left,
            top,
            right,
            bottom,
            size,
        } => {
            let shown = Bounds {
                left: *left,
                top: *top,
                right: *right,
                bottom: *bottom,
            };
            Ok(Answer::Bytes(picture_text(alloc, session, shown, *size)?))
        }
        _ => Ok(Answer::Done),
    }
}
