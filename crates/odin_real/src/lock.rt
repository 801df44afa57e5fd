// Why a file isn't held.
use std::io;

/// Why the system doesn't give a file: another program has its lock, or the call failed.
#[derive(Clone, Copy, PartialEq, Eq)]
pub enum LockFault {
    InUse,
    Failed,
}

impl From<io::Error> for LockFault {
    ghost use Rattle.odin_real.specs.declared.lock.LockFault.{LockFault};
    ghost use Rattle.std.specs.Prelude.{◌≡◌};

    ghost from_gives = { λ _ fault. fault ≡ LockFault.Failed };

    fn from(_: io::Error) -> Self {
        LockFault::Failed
    }
}
