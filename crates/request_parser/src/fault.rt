// Why a text is no expression.
use object_values::Memory;

/// Why a text is no expression.
#[derive(Clone, Copy, PartialEq, Eq)]
pub enum ExpressionFault {
    /// The first place, from 1, whose byte can't go on; the length and one more where the text ends too early.
    BadAt(u32),
    Memory,
}

impl From<Memory> for ExpressionFault {
    ghost use Rattle.std.specs.Prelude.{◌≡◌};
    ghost use Rattle.request_parser.specs.declared.fault.ExpressionFault.{ExpressionFault};

    ghost from_gives = { λ _ given. given ≡ ExpressionFault.Memory };

    fn from(_: Memory) -> Self {
        ExpressionFault::Memory
    }
}
