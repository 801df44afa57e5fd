// Calls of tools, and their outcomes.
use crate::messages::Status;
use crate::nodes::ParamValue;
use crate::text::Text;
use crate::views::Part;
use sequences::{Bytes, Copied, Memory, Seq};
use std::alloc::Global;

/// An input of a call: its slot, its label, and its bytes where it is not absent.
#[derive(PartialEq, Eq, Hash, Drop)]
pub struct CallPart {
    pub slot: u32,
    pub label: Bytes,
    pub body: Option<Text>,
}

/// A call: the tool, the used parameters, the inputs and the names of the outputs.
#[derive(PartialEq, Eq, Hash, Drop)]
pub struct Call {
    pub tool: Bytes,
    pub version: Bytes,
    pub words: Seq<Bytes>,
    pub params: Seq<ParamValue>,
    pub parts: Seq<CallPart>,
    pub outs: Seq<Bytes>,
}

/// A message of a call, which gets the label of the node that it is made for. Its text is shared with each message that is made of it.
#[derive(PartialEq, Eq, Drop)]
pub struct OwnLine {
    pub level: Status,
    pub text: Text,
}

/// What came of a call. At `Abort` there are no outputs.
#[derive(PartialEq, Eq, Drop)]
pub struct Outcome {
    pub status: Status,
    pub lines: Seq<OwnLine>,
    pub outputs: Seq<Part>,
}

impl Copied for CallPart {
    fn copy(&self, alloc: Global) -> Result<Self, Memory> {
        Ok(CallPart {
            slot: self.slot,
            label: self.label.copy(alloc)?,
            body: self.body.copy(alloc)?,
        })
    }
}

impl Copied for Call {
    fn copy(&self, alloc: Global) -> Result<Self, Memory> {
        Ok(Call {
            tool: self.tool.copy(alloc)?,
            version: self.version.copy(alloc)?,
            words: self.words.copy(alloc)?,
            params: self.params.copy(alloc)?,
            parts: self.parts.copy(alloc)?,
            outs: self.outs.copy(alloc)?,
        })
    }
}

impl Copied for OwnLine {
    fn copy(&self, alloc: Global) -> Result<Self, Memory> {
        Ok(OwnLine {
            level: self.level,
            text: self.text.copy(alloc)?,
        })
    }
}

impl Copied for Outcome {
    fn copy(&self, alloc: Global) -> Result<Self, Memory> {
        Ok(Outcome {
            status: self.status,
            lines: self.lines.copy(alloc)?,
            outputs: self.outputs.copy(alloc)?,
        })
    }
}
