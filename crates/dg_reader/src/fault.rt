// Why a graph file was not read.
use object_values::{GraphFault, Memory};

/// Why a graph file was not read, tested in this order.
#[derive(Clone, Copy, PartialEq, Eq)]
pub enum ReadFault {
    /// More than 1,048,576 bytes.
    TooLong,
    /// The line and the column, both from 1, of the first token that can't go on to a graph. Columns are bytes.
    Syntax(u32, u32),
    /// The line where the declaration with the first fault begins.
    Check(u32, GraphFault),
    Memory,
}

impl From<Memory> for ReadFault {
    ghost use Rattle.dg_reader.specs.declared.fault.ReadFault.{ReadFault};
    ghost use Rattle.std.specs.Prelude.{◌≡◌};

    ghost from_gives = { λ _ fault. fault ≡ ReadFault.Memory };

    fn from(_: Memory) -> Self {
        ReadFault::Memory
    }
}
