//! The checked derivation graph: its declarations, and tables that answer what a name means and which type serves as which.
#![tactic(auto)]

mod context;
mod doubles;
mod fault;
mod faults;
mod graph;
mod kinds;
mod known;
mod loops;
mod names;
mod rows;
mod spaces;
mod tables;
mod walk;

pub use fault::CheckFault;
pub use graph::Graph;
pub use object_values::{
    Decl, Extra, GraphFault, Kind, Make, MakerDecl, PartDecl, SuffixDecl, ToolDecl, TypeDecl,
};
