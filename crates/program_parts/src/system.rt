//! A whole program, on the words and the streams that the system gives.

ghost use Rattle.std.specs.Process.{exit_status};
ghost use Rattle.plane.specs.SinkChange.{change_of};
ghost use Rattle.program_parts.specs.Behaviour.{StartsAtStreams, StartsProgram};

use crate::application::Application;
use crate::entry::program;
use crate::messages::tell_no_words;
use plane::{Counted, Sink};
use std::alloc::{AllocError, Global};
use std::io::{Stderr, Stdout};
use std::process::ExitCode;
use std::rt::{Env, Files};
use std::thread::Threads;
use std::{env, io};

/// Runs a program on the words that the system gives it, with this standard output and standard
/// error, and answers its exit status.
pub fn start<A: Application, R: Env + Files + Input + AllocGlobal + Threads + Sync>(
    rt: &R,
    out: Stdout,
    err: Stderr,
) -> ExitCode
    ensures { StartsAtStreams A.behaviour A.name (exit_status result) }
{
    let mut out = Counted::new(out);
    let mut err = Counted::new(err);
    ExitCode::from(start_with::<A, R, _, _>(rt, &mut out, &mut err))
}

// Runs a program on the words that the system gives it (no clause says that they are these: the
// kit's `Env` says nothing of them), and answers its exit status: that of `program`, or that of
// `tell_no_words` where there are none, since one is not UTF-8 or memory ran out.
fn start_with<
    A: Application,
    R: Env + Files + Input + AllocGlobal + Threads + Sync,
    O: Sink,
    E: Sink,
>(rt: &R, out: &mut O, err: &mut E) -> u8
    ensures { StartsProgram A.behaviour A.name
        (change_of O.taken O.failure_count out.old out.new)
        (change_of E.taken E.failure_count err.old err.new) result }
{
    let owned = match system_words(rt) {
        Ok(words) => words,
        Err(error) => return tell_no_words(err, A::name(), &error),
    };
    match texts(rt.alloc(), owned.as_slice()) {
        Ok(words) => program::<A, R, O, E>(rt, rt.alloc(), words.as_slice(), out, err),
        Err(error) => tell_no_words(err, A::name(), &io::Error::from(error)),
    }
}

// The words that the system gives.
fn system_words<R: Env + AllocGlobal>(rt: &R) -> io::Result<Vec<String>> {
    Ok(env::args(rt)?.collect(rt.alloc())?)
}

// The words as texts.
fn texts<'a>(alloc: Global, words: &'a [String]) -> Result<Vec<&'a str>, AllocError> {
    words.iter().map(|word| word.as_str()).collect(alloc)
}
