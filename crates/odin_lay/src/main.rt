//! Lays the parts of a call out by their labels, and runs the script of a label.
#![tactic(auto)]

use call_layout::run::run;
use odin_real::ClosedStreams;
use std::process::ExitCode;

fn main(rt: HostRuntime) -> ExitCode {
    let closed = ClosedStreams::hold(&rt);
    let status = run(&rt);
    drop(closed);
    ExitCode::from(status)
}
