//! Contents, each once and by number, whatever keys they are found by, and the marks by which
//! numbered things are found.
#![tactic(auto)]

mod contents;
mod hasher;
mod keying;
pub mod laws;
mod marks;
mod sought;

pub use contents::Contents;
pub use hasher::ShaHasher;
pub use keying::{Keying, OneKey, ShaKeys};
pub use marks::{Mark, Marks, Sought};
