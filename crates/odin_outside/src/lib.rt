//! The outside: what the program reads, writes, keeps and starts. Each object has its meaning and a count of its faults, which
//! never falls; a call fails only where the count rose.
#![tactic(auto)]

mod disk;
mod events;
mod failed;
mod laws;
mod sink;
mod source;
mod spawner;
mod steps;
mod tree;

pub use disk::Disk;
pub use events::{Running, ToolEvent};
pub use failed::Failed;
pub use laws::{cuts_by_step, syncs_leave_one, writes_by_step};
pub use object_values::{End, FileBody, Job, Raw};
pub use sink::Sink;
pub use source::Source;
pub use spawner::{FinishFault, Spawner, StartFault};
pub use steps::Steps;
pub use tree::{Tree, TreeFault};
