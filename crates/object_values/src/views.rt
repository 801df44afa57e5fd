// Objects: their values, and what is seen of them.
use crate::messages::{Message, Status};
use crate::nodes::Node;
use crate::text::Text;
use sequences::{Bytes, Copied, Memory, Seq, SharedSeq};
use std::alloc::Global;

/// A named part of a compound.
#[derive(PartialEq, Eq, Drop)]
pub struct Part {
    pub name: Bytes,
    pub body: Text,
}

/// What an object is: bytes, references to nodes in order, or named parts in order.
#[derive(PartialEq, Eq, Drop)]
pub enum Value {
    Simple(Text),
    List(Seq<Node>),
    Compound(Seq<Part>),
}

/// An object as it is shown. It has a value exactly where its status is not `Abort`. A copy shares the messages.
#[derive(PartialEq, Eq, Drop)]
pub struct View {
    pub value: Option<Value>,
    pub status: Status,
    pub messages: SharedSeq<Message>,
}

impl Copied for Part {
    fn copy(&self, alloc: Global) -> Result<Self, Memory> {
        Ok(Part {
            name: self.name.copy(alloc)?,
            body: self.body.copy(alloc)?,
        })
    }
}

impl Copied for Value {
    fn copy(&self, alloc: Global) -> Result<Self, Memory> {
        match self {
            Value::Simple(text) => Ok(Value::Simple(text.copy(alloc)?)),
            Value::List(items) => Ok(Value::List(items.copy(alloc)?)),
            Value::Compound(items) => Ok(Value::Compound(items.copy(alloc)?)),
        }
    }
}

impl Copied for View {
    fn copy(&self, alloc: Global) -> Result<Self, Memory> {
        Ok(View {
            value: self.value.copy(alloc)?,
            status: self.status,
            messages: self.messages.copy(alloc)?,
        })
    }
}
