//! What each command does and replies: texts that ask for objects and for the steps to them, and the commands on sources.
#![tactic(auto)]

mod answer;
mod edits;
pub mod laws;
mod plan;
mod shown;

pub use answer::{answer_ask, answer_plan};
pub use edits::{TEXT_LIMIT, list, put, refuse_name, remove, take};
pub use object_values::{Reply, ShownBody};
pub use plan::Planned;
