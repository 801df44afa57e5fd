// The record of a node as it is kept, with contents by number: so that the node need not be settled again while its needs are as they were seen.
use crate::messages::{Message, Status};
use crate::nodes::Node;
use sequences::{Copied, Memory, Seq, SharedSeq};
use std::alloc::Global;

/// What a need adds: its status and messages, or neither, as a reached source.
#[derive(Clone, Copy, PartialEq, Eq, Drop)]
pub enum Role {
    Needed,
    Reached,
}

/// What is seen of a need: no value, the content of a number, or a value that is no content.
#[derive(Clone, Copy, PartialEq, Eq, Drop)]
pub enum Seen {
    Nothing,
    Kept(u64),
    New,
}

/// A need in its role, with what was seen of it.
#[derive(Drop)]
pub struct Dep {
    pub node: Node,
    pub role: Role,
    pub seen: Seen,
}

/// What is settled again at each check.
#[derive(Drop)]
pub struct Renewed {
    pub status: Status,
    pub messages: SharedSeq<Message>,
    /// From 1 to 64.
    pub height: u32,
    /// The place, from 0, of the first dep that is just one lower. `None` at height 1. No file has it.
    pub tight: Option<u32>,
}

/// The record of a node with steps.
#[derive(Drop)]
pub struct NodeRecord {
    pub node: Node,
    pub deps: Seq<Dep>,
    /// The number of the content that is the node's value. `None` at `Abort`.
    pub value: Option<u64>,
    pub own_status: Status,
    pub own_messages: SharedSeq<Message>,
    pub present: Renewed,
    /// The epoch at which `present` was settled. No file has it.
    pub checked: Option<u64>,
}

impl Copied for Dep {
    fn copy(&self, alloc: Global) -> Result<Self, Memory> {
        Ok(Dep {
            node: self.node.copy(alloc)?,
            role: self.role,
            seen: self.seen,
        })
    }
}

impl Copied for Renewed {
    fn copy(&self, alloc: Global) -> Result<Self, Memory> {
        Ok(Renewed {
            status: self.status,
            messages: self.messages.copy(alloc)?,
            height: self.height,
            tight: self.tight,
        })
    }
}
