//! What a person sees of a build: its tools while they run, its messages in colours, why they run, and afterwards when each tool ran, in a trace and on a page.
#![tactic(auto)]

pub mod boxes;
pub mod colours;
pub mod escaped;
pub mod examples;
pub mod labels;
mod levels;
pub mod pages;
pub mod places;
pub mod progress;
pub mod reasons;
pub mod runs;
pub mod traces;
pub mod watched;
