// Why an ask has no answer.
use object_values::{Bytes, Memory, Node, Seq};

/// Why an ask, or a plan, has no answer.
#[derive(Drop)]
pub enum AskFault {
    /// The first place of the text, from 1, whose byte can't go on; the length and one more where the text ends too early.
    Expression(u32),
    /// The type that a step names, which the graph doesn't declare.
    UnknownType(Bytes),
    /// The first parameter, in their order, that the graph doesn't declare.
    UnknownParam(Bytes),
    /// The number of the step, from 1, to which no path leads, or that picks what isn't there.
    Path(u32),
    /// A chain of nodes from the one that is asked for, each a need of the one before it, whose last node stands in it twice.
    Circular(Seq<Node>),
    /// A chain of 65 nodes, each a need of the one before it.
    Deep(Seq<Node>),
    /// A tool was not started, or its end was lost.
    Spawn,
    /// The disk failed. The store is used no more.
    Disk,
    /// What was to be kept doesn't fit into the file: the end of its records, and the length of the next one.
    Full(u64, u64),
    Memory,
}

impl From<Memory> for AskFault {
    ghost use Rattle.std.specs.Prelude.{◌≡◌};
    ghost use Rattle.odin_engine.specs.declared.fault.AskFault.TheVariants as fault;

    ghost from_gives = { λ _ given. given ≡ fault.Memory };

    fn from(_: Memory) -> Self {
        AskFault::Memory
    }
}
