//! The program without its `main`: what it takes its words to be, what it serves them over, and what it says of its exit status.
#![tactic(auto)]

mod faults;
mod serving;
mod store;
mod words;

pub use faults::{Fault, MEMORY, cause_of, fault_of};
pub use serving::{program, serve};
pub use store::store_of;
pub use words::{words_among, words_of};
