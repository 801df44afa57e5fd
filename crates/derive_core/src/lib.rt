//! The derivation of an object over the tables of what is kept: the walk, which looks up calls, records of nodes and contents in
//! the tables.
#![tactic(auto)]

mod kept;
mod walk;

pub use derive_walk::Found;
pub use walk::Core;
