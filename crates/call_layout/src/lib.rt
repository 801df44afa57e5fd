//! The parts of a call laid out by their labels, and the script of a label run.
#![tactic(auto)]

mod faults;
mod labels;
pub mod laws;
mod laying;
pub mod layout;
mod place;
pub mod run;
pub mod told;
mod words;
