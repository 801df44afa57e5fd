//! What calls of tools mean: the job of a call, and the outcome of what a job left. There is no code here that runs.
#![tactic(auto)]

pub mod examples;
pub mod laws;
