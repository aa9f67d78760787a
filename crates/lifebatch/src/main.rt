//! The program `lifebatch`: [`program_parts::start`] runs it.
#![tactic(auto)]

use batch_program::Lifebatch;
use program_parts::start;
use std::process::ExitCode;

fn main(rt: HostRuntime) -> ExitCode {
    start::<Lifebatch, _>(&rt, rt.stdout(), rt.stderr())
}
