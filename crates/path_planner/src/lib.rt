//! The chosen path of makers from one type to another.
#![tactic(auto)]

mod direct;
mod distances;
mod planned;
mod plans;
mod route;
mod sources;
mod takers;

pub use planned::PlannedGraph;
pub use plans::Plans;
