//! The file of a project, `odin.toml`: the graph, the files that are its sources, and the targets.
#![tactic(auto)]

pub mod document;
pub mod patterns;
mod places;
pub mod project;
pub mod reading;
mod rows;
pub mod targets;
pub mod texts;
