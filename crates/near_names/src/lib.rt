//! The name that a word was most likely meant to be, for a hint.
#![tactic(auto)]

mod near;

pub use near::nearest;
