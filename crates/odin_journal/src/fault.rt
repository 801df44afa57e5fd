// Why a journal refuses.
use object_values::{Copied, Memory};
use odin_outside::Failed;
use std::alloc::{AllocError, Global};

/// Why a journal refuses: the disk failed; the file isn't a store, and breaks at this offset; a record of this length doesn't fit
/// after this end; or want of memory.
#[derive(Clone, Copy, Debug, PartialEq, Eq)]
pub enum JournalFault {
    Disk,
    NotOurs(u64),
    Full(u64, u64),
    Memory,
}

impl From<Memory> for JournalFault {
    ghost use Rattle.std.specs.Prelude.{◌≡◌};
    ghost use Rattle.odin_journal.specs.declared.fault.JournalFault.TheVariants as fault;

    ghost from_gives = { λ _ given. given ≡ fault.Memory };

    fn from(_: Memory) -> Self {
        JournalFault::Memory
    }
}

impl From<Failed> for JournalFault {
    ghost use Rattle.std.specs.Prelude.{◌≡◌};
    ghost use Rattle.odin_journal.specs.declared.fault.JournalFault.TheVariants as fault;

    ghost from_gives = { λ _ given. given ≡ fault.Disk };

    fn from(_: Failed) -> Self {
        JournalFault::Disk
    }
}

impl From<AllocError> for JournalFault {
    ghost use Rattle.std.specs.Prelude.{◌≡◌};
    ghost use Rattle.odin_journal.specs.declared.fault.JournalFault.TheVariants as fault;

    ghost from_gives = { λ _ given. given ≡ fault.Memory };

    fn from(_: AllocError) -> Self {
        JournalFault::Memory
    }
}

impl Copied for JournalFault {
    fn copy(&self, _alloc: Global) -> Result<Self, Memory> {
        Ok(*self)
    }
}
