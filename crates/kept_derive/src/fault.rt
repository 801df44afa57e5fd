// Why a node was not derived.
ghost use Rattle.std.specs.Prelude.{◌≡◌};
ghost use Rattle.odin_journal.specs.Faults.{FileIsOurs};
ghost use Rattle.kept_derive.specs.Faults.{of_store};

use object_values::Memory;
use odin_store::StoreFault;

/// Why a node was not derived. `Spawn`: a child program was not started, or its end was lost. `Disk`: the store is spent. `Full`: a record of
/// this length doesn't fit after this end of the store.
#[derive(Clone, Copy, Debug, PartialEq, Eq)]
pub enum KeptFault {
    Spawn,
    Disk,
    Full(u64, u64),
    Memory,
}

impl From<Memory> for KeptFault {
    ghost use Rattle.kept_derive.specs.declared.fault.KeptFault.{KeptFault};
    ghost use Rattle.std.specs.Prelude.{◌≡◌};

    ghost from_gives = { λ _ fault. fault ≡ KeptFault.Memory };

    fn from(_: Memory) -> Self {
        KeptFault::Memory
    }
}

impl KeptFault {
    // The fault of a change.
    pub(crate) fn of_change(fault: StoreFault) -> Self
        requires { FileIsOurs fault }
        ensures { result ≡ of_store fault }
    {
        match fault {
            StoreFault::Disk => KeptFault::Disk,
            // Only an opening finds a file that isn't a store's.
            StoreFault::NotOurs(_) => unreachable!(),
            StoreFault::Full(end, count) => KeptFault::Full(end, count),
            StoreFault::Memory => KeptFault::Memory,
        }
    }
}
