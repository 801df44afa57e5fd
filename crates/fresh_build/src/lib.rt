//! A build of exactly the listed files: the sources become just these, whatever the store had, and an object is asked for.
#![tactic(auto)]

mod built;
mod edits;
mod fault;
pub mod laws;
mod listed;
mod set;

pub use built::build;
pub use fault::ListFault;
pub use listed::read_listed;
pub use odin_engine::StoreFault;
pub use set::set_sources;
