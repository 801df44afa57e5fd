// Why declarations make no graph.
use object_values::{Copied, GraphFault, Memory};
use std::alloc::Global;

/// Why declarations make no graph. `Graph` names the declaration by its number, from 1, and its fault.
#[derive(Clone, Copy, PartialEq, Eq)]
pub enum CheckFault {
    Graph(u32, GraphFault),
    Memory,
}

impl From<Memory> for CheckFault {
    ghost use Rattle.type_graph.specs.declared.fault.CheckFault.{CheckFault};
    ghost use Rattle.std.specs.Prelude.{◌≡◌};

    ghost from_gives = { λ _ fault. fault ≡ CheckFault.Memory };

    fn from(_: Memory) -> Self {
        CheckFault::Memory
    }
}

impl Copied for CheckFault {
    fn copy(&self, _alloc: Global) -> Result<Self, Memory> {
        Ok(*self)
    }
}
