//! The engine: a graph with its paths, over a store of sources, kept calls and records of nodes.
#![tactic(auto)]

mod ask;
mod asked;
mod engine;
mod fault;
pub mod laws;

pub use engine::Engine;
pub use fault::AskFault;
pub use odin_store::StoreFault;
