//! The session of a load: sources of many units are put, their program is asked for, a header is edited and edited back, and the program is asked for
//! again each time. It is served over a disk and tools in memory.
#![tactic(auto)]

mod asked;
mod disk;
mod graph;
mod load;
mod loaded;
mod puts;
mod session;
mod texts;

pub use load::serve_load;
pub use loaded::Loaded;
pub use odin_engine::StoreFault;
