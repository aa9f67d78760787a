//! The program `lifeview`: [`program_parts::start`] runs it.
#![tactic(auto)]

use program_parts::start;
use std::process::ExitCode;
use view_program::Lifeview;

fn main(rt: HostRuntime) -> ExitCode {
    start::<Lifeview, _>(&rt, rt.stdout(), rt.stderr())
}
