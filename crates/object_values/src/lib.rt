//! The values that the object manager works on: nodes and objects, declarations, calls and jobs, records of nodes, and the sources by name.
#![tactic(auto)]

mod block;
pub mod calls;
mod exact;
pub mod expressions;
pub mod facts;
pub mod graph;
pub mod items;
pub mod jobs;
mod limits;
pub mod messages;
pub mod nodes;
mod places;
pub mod records;
pub mod replies;
mod sources;
mod text;
pub mod views;

pub use calls::{Call, CallPart, Outcome, OwnLine};
pub use expressions::{ExprStep, Expression, Line, Lines};
pub use facts::{Fact, FactDep, Fresh, RenewedNode};
pub use graph::{
    Decl, Extra, GraphFault, Kind, Make, MakerDecl, PartDecl, SuffixDecl, ToolDecl, TypeDecl,
};
pub use items::{
    Item, StoredCall, StoredDep, StoredOutcome, StoredOutput, StoredPart, StoredRecord,
};
pub use jobs::{End, FileBody, Job, Raw};
pub use limits::{
    BODY_LIMIT, COMMAND_LIMIT, DECLARATION_LIMIT, ELEMENT_BOUND, EXPRESSION_LIMIT, GRAPH_LIMIT,
    HEIGHT_LIMIT, INPUT_LIMIT, MESSAGE_LENGTH, MESSAGE_LIMIT, REFERENCE_LIMIT, STORE_LIMIT,
    UNIT_LIMIT, WORD_LIMIT,
};
pub use messages::{Message, Status};
pub use nodes::{Node, ParamValue, Step};
pub use records::{Dep, NodeRecord, Renewed, Role, Seen};
pub use replies::{Reply, ShownBody};
pub use sequences::{
    Bytes, Copied, Exact, Memory, Seq, SharedSeq, ShortSeq, copy_five, copy_two, same, when_done,
};
pub use sources::Sources;
pub use text::Text;
pub use views::{Part, Value, View};
