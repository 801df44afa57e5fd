//! Prints the commands that take the files below some folders.
#![tactic(auto)]

use build_files::takes::run;
use std::process::ExitCode;

fn main(rt: HostRuntime) -> ExitCode {
    match run(&rt) {
        Ok(status) => ExitCode::from(status),
        Err(fault) => {
            let _ = rt.eprintln(&fault);
            ExitCode::from(fault.status())
        }
    }
}
