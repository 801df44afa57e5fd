//! What tells a node its inputs while it is derived: the names in a scan output, and the names to which lines lead from a root.
#![tactic(auto)]

mod closure;
pub mod laws;
mod names;
mod scan;
mod sorting;

pub use closure::Closure;
pub use names::Names;
pub use scan::read_scan;
