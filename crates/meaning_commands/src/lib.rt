//! The commands of a session and the replies to them: their types, what each is spelled; and what a run over a stream of commands means: its items, its
//! transcript, and what is read, written and kept where it ends. There is no code here that runs.
#![tactic(auto)]

pub mod examples;
pub mod laws;
