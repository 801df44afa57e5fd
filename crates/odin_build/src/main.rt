//! Builds the targets of a project from exactly the files that its `odin.toml` lists.
#![tactic(auto)]

mod drawn;
mod faults;
mod found;
mod hints;
mod identity;
mod kept;
mod kits;
mod looks;
mod made;
mod noted;
mod options;
mod passed;
mod quoted;
mod reading;
mod refusing;
mod replies;
mod run;
mod screen;
mod simple;
mod standing;
mod state;
mod told;
mod whole;
mod why;
mod written;

use odin_real::ClosedStreams;
use std::process::ExitCode;

fn main(rt: HostRuntime) -> ExitCode {
    let closed = ClosedStreams::hold(&rt);
    let status = run::run(&rt);
    drop(closed);
    ExitCode::from(status)
}
