//! What is derived from the sources: results by height, chains, the calls that are made; what holds of that over checked graphs; and what a text is
//! answered with. There is no code here that runs.
#![tactic(auto)]

pub mod answer_examples;
pub mod answer_laws;
pub mod checked_laws;
pub mod examples;
pub mod laws;
pub mod settled;
