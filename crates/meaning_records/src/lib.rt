//! What the bytes of a store file mean, and its records: the items of a batch with their types, what each is spelled, and what they make of what is
//! kept. There is no code here that runs.
#![tactic(auto)]

pub mod examples;
pub mod file_laws;
pub mod laws;
