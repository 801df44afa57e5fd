//! Nodes: how they are made of expressions and led on, the types to which their steps lead, how they are written, with their labels, by which
//! messages and calls name them, and their whole texts; and what a node takes from its needs, the worst status and the messages.
#![tactic(auto)]

mod classes;
mod fault;
mod inherited;
mod leading;
mod making;
mod names;
mod picking;
mod picks;
mod statuses;
mod types;

pub use fault::NodeFault;
pub use inherited::{Inherited, inherit};
pub use leading::{onward, onward_from};
pub use making::{node_from, node_of};
pub use names::{label_of, node_text};
pub use picking::{Picked, pick};
pub use picks::kind_named;
pub use statuses::worst;
pub use types::type_of;
