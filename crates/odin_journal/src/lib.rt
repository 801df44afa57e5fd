//! The journal: records on a disk, each of which is there whole or not at all, whenever the disk crashes; and what a crash may leave of changes that are
//! kept one after another, whatever a change is.
#![tactic(auto)]

mod examples;
mod fault;
mod front;
mod journal;
pub mod laws;
mod pieces;
mod reads;
mod rewrite;
mod start;
mod writes;

pub use examples::{bytes_of_copies, bytes_of_rewrites, places_of_copies};
pub use fault::JournalFault;
pub use journal::Journal;
