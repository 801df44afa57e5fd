//! The walk: it derives a node as far as the outcomes of calls are known, for every order in which
//! they come; and its tables: the nodes with results, the heights of the others, the calls that are
//! wanted or were given outcomes, and what is found of needs.
#![tactic(auto)]

mod chains;
mod checked;
mod closing;
mod deep;
mod done;
mod found;
mod given;
mod heights;
mod known;
pub mod laws;
mod lists;
mod looked;
mod looking;
mod noting;
mod renewing;
mod rounds;
mod setting;
mod settling;
mod survey;
mod trial;
mod visiting;
mod walk;
mod walker;
mod wanted;

pub use chains::chain_to;
pub use done::{Done, Table};
pub use found::Found;
pub use given::Given;
pub use heights::Heights;
pub use known::{Known, NothingKept};
pub use looking::{at_height, has_node, height_of};
pub use survey::Survey;
pub use walker::Walker;
pub use wanted::Wanted;
