// The items of batches, as a store file has them: texts stand in contents of their own, and a call has their numbers.
use crate::calls::OwnLine;
use crate::messages::{Message, Status};
use crate::nodes::{Node, ParamValue};
use crate::views::Value;
use sequences::{Bytes, Seq};

/// An input of a call: its slot, its label, and the number of its content where it is not absent.
#[derive(Drop)]
pub struct StoredPart {
    pub slot: u32,
    pub label: Bytes,
    pub content: Option<u32>,
}

/// A call whose inputs stand in contents.
#[derive(Drop)]
pub struct StoredCall {
    pub tool: Bytes,
    pub version: Bytes,
    pub words: Seq<Bytes>,
    pub params: Seq<ParamValue>,
    pub parts: Seq<StoredPart>,
    pub outs: Seq<Bytes>,
}

/// An output: its name, and the number of its content.
#[derive(Drop)]
pub struct StoredOutput {
    pub name: Bytes,
    pub content: u32,
}

/// What came of a call, whose outputs stand in contents.
#[derive(Drop)]
pub struct StoredOutcome {
    pub status: Status,
    pub lines: Seq<OwnLine>,
    pub outputs: Seq<StoredOutput>,
}

/// A need of a node, and the number of the content that was seen of it: none where it had no value.
#[derive(Drop)]
pub struct StoredDep {
    pub node: Node,
    pub content: Option<u32>,
}

/// The record of a node whose values stand in contents. The last `reached` of its deps are reached sources.
#[derive(Drop)]
pub struct StoredRecord {
    pub node: Node,
    pub deps: Seq<StoredDep>,
    pub reached: u32,
    pub value: Option<u32>,
    pub own_status: Status,
    pub own_messages: Seq<Message>,
    pub status: Status,
    pub messages: Seq<Message>,
    pub height: u32,
}

/// An item of a batch: one variant a row of the table of items in docs/engineer/store-format.md.
#[derive(Drop)]
pub enum Item {
    /// The text of the graph that the store was opened with.
    Graph(Bytes),
    /// The next content, numbered from 0 in the file.
    Content(Value),
    /// The source has the text of this content.
    Put(Bytes, u32),
    /// The source is gone.
    Dropped(Bytes),
    /// The call is kept with this outcome.
    Kept(StoredCall, StoredOutcome),
    /// The node has this record from now on.
    Node(StoredRecord),
}
