//! The program `lifepipe`: [`program_parts::start`] runs it.
#![tactic(auto)]

use pipe_program::Lifepipe;
use program_parts::start;
use std::process::ExitCode;

fn main(rt: HostRuntime) -> ExitCode {
    start::<Lifepipe, _>(&rt, rt.stdout(), rt.stderr())
}
