//! The program `lifeperiod`: [`program_parts::start`] runs it.
#![tactic(auto)]

use period_program::Lifeperiod;
use program_parts::start;
use std::process::ExitCode;

fn main(rt: HostRuntime) -> ExitCode {
    start::<Lifeperiod, _>(&rt, rt.stdout(), rt.stderr())
}
