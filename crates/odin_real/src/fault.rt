// Why the system did not do what it was asked to.
use object_values::Memory;
use std::alloc::AllocError;
use std::io;

/// Why the system did not do what it was asked to. Want of memory is no fault of the system.
#[derive(Clone, Copy, PartialEq, Eq)]
pub enum SystemFault {
    Failed,
    Memory,
}

impl From<io::Error> for SystemFault {
    ghost use Rattle.std.specs.declared.io.ErrorKind.{ErrorKind};
    ghost use Rattle.std.specs.declared.io.ErrorKind.TheVariants.{OutOfMemory};
    ghost use Rattle.std.specs.IoError.{error_kind};
    ghost use Rattle.odin_real.specs.declared.fault.SystemFault.{SystemFault};
    ghost use Rattle.std.specs.Prelude.{◌≡◌, ◌↔◌};

    ghost from_gives = { λ error fault.
        (fault ≡ SystemFault.Memory) ↔ (error_kind error ≡ OutOfMemory) };

    fn from(error: io::Error) -> Self {
        if error.kind() == io::ErrorKind::OutOfMemory {
            SystemFault::Memory
        } else {
            SystemFault::Failed
        }
    }
}

impl From<Memory> for SystemFault {
    ghost use Rattle.odin_real.specs.declared.fault.SystemFault.{SystemFault};
    ghost use Rattle.std.specs.Prelude.{◌≡◌};

    ghost from_gives = { λ _ fault. fault ≡ SystemFault.Memory };

    fn from(_: Memory) -> Self {
        SystemFault::Memory
    }
}

impl From<AllocError> for SystemFault {
    ghost use Rattle.odin_real.specs.declared.fault.SystemFault.{SystemFault};
    ghost use Rattle.std.specs.Prelude.{◌≡◌};

    ghost from_gives = { λ _ fault. fault ≡ SystemFault.Memory };

    fn from(_: AllocError) -> Self {
        SystemFault::Memory
    }
}
