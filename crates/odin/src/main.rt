//! The program.
#![tactic(auto)]

use odin_start::program;
use std::process::ExitCode;

fn main(rt: HostRuntime) -> ExitCode {
    ExitCode::from(program(&rt))
}
