//! What tests and measures stand on: results in a table and what a node comes to over them, what a store holds and how it is changed, sample graphs, and
//! words, trees, inputs and outputs in memory.
#![tactic(auto)]

mod body;
mod calling;
mod changes;
mod fault;
mod graphs;
mod memory;
mod notable;
mod notes;
mod noting;
mod opening;
mod reading;
mod seeing;
mod settling;
mod table;
mod views;

pub use body::body_of;
pub use calling::{Called, call_node};
pub use changes::{drop_named, keep, put_named};
pub use fault::Fault;
pub use graphs::{C_UNITS, CC_ONLY, KITS, graph_text};
pub use memory::{only, owned, sink, source, tree_of};
pub use notable::are_notable;
pub use notes::{contents, noted, record_bytes};
pub use noting::{note, renew};
pub use opening::open_store;
pub use reading::{graph_of, node_in};
pub use seeing::all_seen;
pub use settling::settle_after;
pub use table::Table;
pub use views::held;
