//! Records of nodes in memory, each found by its node.
#![tactic(auto)]

pub mod laws;
mod sought;
mod table;

pub use table::RecordTable;
