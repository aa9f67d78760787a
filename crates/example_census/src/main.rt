//! A census of a pattern: how many cells live, and where their bounding box lies, after 1, 2, 4, 8,
//! .. generations. An example of a program that stands on the library `engine`.
#![tactic(auto)]

ghost use Rattle.std.specs.Prelude.{◌≡◌};
ghost use Rattle.plane.specs.SinkChange.{change_of};
ghost use Rattle.plane.specs.SourceChange.{IsDoneWithAll, reading_of};
ghost use Rattle.example_census.specs.Census.{IsCensusRun};

mod census;

use census::census;
use engine::load;
use plane::{Counted, Fault, Sink, Source};
use std::process::ExitCode;
use std::thread::Threads;

// Up to 2^11 generations.
const LINES: u8 = 12;

fn main(rt: HostRuntime) -> ExitCode {
    let mut input = Counted::new(rt.reader());
    match census_of_input(&rt, &mut input, &mut Counted::new(rt.stdout())) {
        Ok(()) => ExitCode::SUCCESS,
        Err(fault) => {
            let _ = eprintln!(rt; "example_census: {fault}");
            ExitCode::FAILURE
        }
    }
}

// Reads all bytes of a source, and writes the census of the pattern in them.
fn census_of_input<R: AllocGlobal + Threads + Sync, S: Source, W: Sink>(
    rt: &R,
    input: &mut S,
    out: &mut W,
) -> Result<(), Fault>
    ensures { IsDoneWithAll
        (reading_of S.remaining S.given S.has_ended S.failure_count input.old input.new)
        (λ bytes. IsCensusRun bytes LINES
        (change_of W.taken W.failure_count out.old out.new) result)
        result (out.new ≡ out.old) }
{
    let alloc = rt.alloc();
    let bytes = load(alloc, input)?;
    census(rt, alloc, bytes.as_slice(), LINES, out)
}
