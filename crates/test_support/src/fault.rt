// Why a text stands for nothing.
use object_values::Memory;

/// Why a text is none of a graph, or none of a node of it.
#[derive(Clone, Copy, Debug, PartialEq, Eq)]
pub enum Fault {
    Graph,
    Node,
    Memory,
}

impl From<Memory> for Fault {
    fn from(_: Memory) -> Self {
        Fault::Memory
    }
}
