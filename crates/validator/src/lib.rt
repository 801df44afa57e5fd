//! The check of a node's record: whether the needs of now are those that it was settled by, and what it comes to then; and whether a record that was
//! read fits a graph.
#![tactic(auto)]

mod check;
mod comparing;
pub mod examples;
mod fitting;
pub mod laws;
mod renewing;
mod verdict;

pub use check::check_record;
pub use fitting::{fits_record, value_fits};
pub use verdict::{Now, Verdict};
