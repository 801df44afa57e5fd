//! What a load session stands on: a disk in memory, and tools in memory whose answers are a function of their jobs, the toy tools `scan`, `cc` and `ld`
//! among them. What they give and take is stated exactly.
#![tactic(auto)]

mod answers;
mod choice;
mod compile;
mod directives;
mod disk;
mod inputs;
mod link;
mod raws;
mod replay;
mod scan;
mod tear;
mod text;
mod tools;
mod toys;

pub use answers::{Answers, JobRaw};
pub use disk::{CrashDisk, MemDisk};
pub use odin_outside::{Running, ToolEvent};
pub use tools::TableTools;
pub use toys::toy;
