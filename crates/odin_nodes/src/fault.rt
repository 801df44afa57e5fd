// Why an expression has no node.
use object_values::{Bytes, Memory};

/// Why an expression has no node: an unknown parameter, or else the first step that can't be made.
#[derive(Drop)]
pub enum NodeFault {
    /// The first parameter, in their order, that the graph doesn't declare.
    UnknownParam(Bytes),
    /// The type that the step names, which the graph doesn't declare.
    UnknownType(Bytes),
    /// The number of the step, from 1, to which no path leads, or that picks what isn't there.
    NoPath(u32),
    Memory,
}

impl From<Memory> for NodeFault {
    ghost use Rattle.std.specs.Prelude.{◌≡◌};
    ghost use Rattle.odin_nodes.specs.declared.fault.NodeFault.{NodeFault};

    ghost from_gives = { λ _ fault. fault ≡ NodeFault.Memory };

    fn from(_: Memory) -> Self {
        NodeFault::Memory
    }
}
