//! A build of a project: its sources become exactly the listed files, its targets are asked for, and what is replied goes to their files.
#![tactic(auto)]

mod fault;
mod graph;
pub mod laws;
mod object;
mod outputs;
mod project;
mod status;
mod targets;

pub use fault::{BuildFault, GraphRefused, TargetFault};
pub use outputs::{OutputFault, Outputs};
pub use project::{Plan, build_project};
pub use status::status_of;
