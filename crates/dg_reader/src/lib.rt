//! Graph files: their tokens, read from slices without copies; the checked graphs that are read from them; and files written from graphs.
#![tactic(auto)]

mod cursor;
mod decls;
mod fault;
mod kinds;
pub mod laws;
mod lexer;
mod lists;
mod makers;
mod places;
mod read;
mod write;
mod writer;

pub use fault::ReadFault;
pub use lexer::{Token, past_gap, token_at};
pub use places::{column_behind, line_behind};
pub use read::{GraphFile, read_graph, read_graph_file};
pub use write::write_graph;
