//! What stands between `odin` and a build: the object that the last ask among replies was given, with its files, and the commands that take the files below
//! some folders; and the runs of the two programs that write them.
#![tactic(auto)]

mod answers;
pub mod causes;
pub mod files;
pub mod get;
pub mod laws;
pub mod listed;
pub mod messages;
pub mod paths;
pub mod takes;
pub mod walk;
pub mod whole;
mod words;
