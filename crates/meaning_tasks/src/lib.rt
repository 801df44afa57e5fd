//! What nodes mean, their types, labels, texts and values; and what a node asks for: its task, its needs, its call, and how it is settled from its needs.
//! There is no code here that runs.
#![tactic(auto)]

pub mod examples;
pub mod laws;
pub mod node_examples;
pub mod node_laws;
