//! Reads the replies of a session from standard input, and writes the object that the last ask was given.
#![tactic(auto)]

use build_files::get::{Fault, run};
use odin_real::ClosedStreams;
use std::process::ExitCode;

fn main(rt: HostRuntime) -> ExitCode {
    let closed = ClosedStreams::hold(&rt);
    let status = match run(&rt) {
        Ok(status) => status,
        Err(fault) => {
            let _ = rt.eprintln(&fault);
            fault.status()
        }
    };
    drop(closed);
    ExitCode::from(status)
}
