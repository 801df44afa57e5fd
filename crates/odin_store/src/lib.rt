//! The store: sources, kept calls and records of nodes in one file, which reopens after any crash to what was acknowledged.
#![tactic(auto)]

mod compacting;
mod fitting;
pub mod laws;
mod loading;
mod store;

pub use odin_journal::JournalFault as StoreFault;
pub use store::Store;
