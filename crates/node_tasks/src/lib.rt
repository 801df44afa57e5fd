//! What a node needs, which tool it runs, and what it settles to: for every graph.
#![tactic(auto)]

mod ahead;
mod base;
mod calling;
mod each;
mod gathering;
mod led;
mod names;
mod needed;
mod needing;
mod outcome;
mod outs;
mod own;
mod pack;
mod picking;
mod reading;
mod settling;
mod stepping;
mod task;
mod tool;

pub use ahead::{Ahead, VisitedNodes};
pub use calling::{call_for, call_in};
pub use needed::{Needed, needs};
pub use settling::{Settled, settle, settle_in, settle_whole};
pub use task_needs::Results;
