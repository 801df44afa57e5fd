//! What is made of the needs of a node once they are found: their list, whether all have values,
//! what is taken over from them, and the inputs of a call; and what tools read beside their inputs:
//! the scan nodes of names, and the names in them.
#![tactic(auto)]

mod counted;
mod inputs;
mod known;
mod led;
mod lines;
mod listing;
mod messages;
mod results;
mod scans;
mod sources;
mod taken;

pub use counted::Counted;
pub use inputs::call_parts;
pub use led::Led;
pub use lines::told_lines;
pub use listing::{listed, put_copy};
pub use messages::{abort_message, too_many};
pub use results::{Results, elements_of, value_of};
pub use scans::{put_reached_scan, put_scan, scan_node};
pub use sources::{is_present, source_node};
pub use taken::Taken;
