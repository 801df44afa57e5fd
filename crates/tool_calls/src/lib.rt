//! The job of a call, and the outcome of what the job left.
#![tactic(auto)]

mod call_file;
mod endings;
mod file_names;
mod jobs;
mod left;
mod outcomes;
mod outputs;
mod warnings;

pub use jobs::job_of;
pub use object_values::{Call, CallPart, Outcome, OwnLine};
pub use outcomes::outcome_of;
