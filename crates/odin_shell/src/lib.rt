//! A session of the object manager: from the words, the input and the outside to the replies and the status.
#![tactic(auto)]

mod command;
mod cutter;
mod ending;
mod entry;
mod graph;
mod holding;
mod input;
pub mod laws;
mod lines;
mod load;
mod pending;
mod serve;
mod session;
pub mod session_laws;
mod stop;
mod whole;
mod write;

pub use ending::Ending;
pub use entry::run;
