//! Records of nodes by the numbers of contents: which of those that a file has may be noted, what they are in memory, and what they say.
#![tactic(auto)]

mod facts;
mod loading;
mod numbering;
mod tests;

pub use facts::fact_of;
pub use loading::loaded_record;
pub use numbering::{noted_record, number_record, number_records};
pub use tests::may_note;
