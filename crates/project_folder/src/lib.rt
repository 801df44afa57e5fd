//! What a build of a project is to do: what its words ask for, the files that are its sources, and the targets that are asked for.
#![tactic(auto)]

mod listing;
mod places;
mod processors;
mod targets;
pub mod words;
mod written;

pub use listing::{NoSources, is_unasked, list_among, list_sources, tidy_outputs, tidy_patterns};
pub use places::{is_reserved, leads_below};
pub use processors::{MOST_JOBS, jobs_by};
pub use targets::{NoTarget, targets_among};
pub use written::{Extra, Taken, begins_as, double_among, named_alone, taken_by};
