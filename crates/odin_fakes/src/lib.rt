//! Objects of the outside in memory, for tests: inputs, outputs and trees, and objects whose calls fail by plan. What they give and take is stated exactly.
#![tactic(auto)]

mod fail_disk;
mod fail_sink;
mod fail_source;
mod fail_tools;
mod fail_tree;
mod plan;
mod sink;
mod source;
mod tree;

pub use fail_disk::FailDisk;
pub use fail_sink::FailSink;
pub use fail_source::FailSource;
pub use fail_tools::FailTools;
pub use fail_tree::FailTree;
pub use odin_memory::{Answers, CrashDisk, JobRaw, MemDisk, Running, TableTools, ToolEvent};
pub use plan::{FailPlan, Failing};
pub use sink::MemSink;
pub use source::MemSource;
pub use tree::MemTree;
