//! Both ways of one grammar: commands are read from their lines and replies are written, by docs/user/reference.md, and replies are read back from their texts.
#![tactic(auto)]

mod command;
mod items;
pub mod laws;
mod lines;
mod objects;
mod read;
mod replies;
mod said;
mod shown;
mod sizes;
mod verbs;
mod write;

pub use command::{body_size, ends_run};
pub use object_values::{Reply, ShownBody};
pub use objects::write_each_message;
pub use odin_bytes::Command;
pub use read::read_command;
pub use replies::{read_replies, read_reply};
pub use write::{text_of, write_reply};
