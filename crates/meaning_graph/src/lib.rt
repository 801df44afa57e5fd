//! What a derivation graph means: numbered types and makers, the order of types, the chosen path from type to type; and the graph files: their grammar,
//! their faults and their canonical spelling. There is no code here that runs.
#![tactic(auto)]

pub mod examples;
pub mod laws;
pub mod text_examples;
pub mod text_laws;
