//! Expressions, read and written, and lists of references.
#![tactic(auto)]

mod bytes;
mod cursor;
mod fault;
mod items;
mod kept;
mod lines;
mod merged;
mod read;
mod write;

pub use fault::ExpressionFault;
pub use lines::read_lines;
pub use merged::merge_params;
pub use object_values::{ExprStep, Expression, Line, Lines};
pub use read::read_expression;
pub use write::write_expression;
