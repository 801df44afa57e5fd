// Statuses and messages.
use crate::text::Text;
use sequences::{Copied, Memory};
use std::alloc::Global;

/// How an object is, from the best to the worst. An object at `Abort` has no value.
#[derive(Clone, Copy, PartialEq, Eq, PartialOrd, Ord, Hash)]
pub enum Status {
    Ok,
    Warning,
    Error,
    Abort,
}

/// A message of an object: the label of the node that it comes from, its level and its text. A copy shares both.
#[derive(PartialEq, Eq, Hash)]
pub struct Message {
    pub label: Text,
    pub level: Status,
    pub text: Text,
}

// By hand: a drop is one call, where a derived one is opened field by field at each early return.
impl Drop for Message {
    fn drop(self) {
        let Message {
            label,
            level: _,
            text,
        } = self;
        drop(label);
        drop(text);
    }
}

impl Copied for Status {
    fn copy(&self, _alloc: Global) -> Result<Self, Memory> {
        Ok(*self)
    }
}

impl Copied for Message {
    fn copy(&self, alloc: Global) -> Result<Self, Memory> {
        Ok(Message {
            label: self.label.copy(alloc)?,
            level: self.level,
            text: self.text.copy(alloc)?,
        })
    }
}
