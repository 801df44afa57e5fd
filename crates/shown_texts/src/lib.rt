//! A text as a person is shown it: letters of UTF-8 stay, and all else is spelled with a backslash.
#![tactic(auto)]

mod examples;
pub mod laws;
pub mod shown;
