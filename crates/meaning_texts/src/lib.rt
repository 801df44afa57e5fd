//! What the texts of the object manager mean: definitions, and laws over them. There is no code here that runs.
#![tactic(auto)]

pub mod examples;
pub mod laws;
