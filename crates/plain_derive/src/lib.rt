//! Derivation with nothing kept, one tool at a time.
#![tactic(auto)]

mod derivation;
pub mod laws;
mod running;

pub use derivation::derive_plain;
pub use derive_walk::Found;
pub use job_runner::JobFault as PlainFault;
pub use running::run_call;
