// What a record says, with the values themselves.
use crate::messages::{Message, Status};
use crate::nodes::Node;
use crate::records::{Renewed, Role};
use crate::views::Value;
use sequences::{Seq, SharedSeq};

/// A need in its role, with the value that was seen of it, none at `Abort`.
#[derive(Drop)]
pub struct FactDep {
    pub node: Node,
    pub role: Role,
    pub value: Option<Value>,
}

/// What a node was settled by, and what it gave itself.
#[derive(Drop)]
pub struct Fact {
    pub node: Node,
    pub deps: Seq<FactDep>,
    pub value: Option<Value>,
    pub own_status: Status,
    pub own_messages: SharedSeq<Message>,
}

/// A fact that is to be noted, with what it comes to at present.
#[derive(Drop)]
pub struct Fresh {
    pub fact: Fact,
    pub present: Renewed,
}

/// A node whose record holds, with what it comes to at present.
#[derive(Drop)]
pub struct RenewedNode {
    pub node: Node,
    pub present: Renewed,
}
