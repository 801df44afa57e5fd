// The files that a build writes.
ghost use Rattle.std.specs.Prelude.{◌≡◌, ℕ, Option, OnOk, OnErr};
ghost use Rattle.odin_outside.specs.Causes.{HasCauseBut};
ghost use Rattle.odin_outside.specs.Files.{Files};
ghost use Rattle.project_build.specs.Writes.{HasWritten, MayHaveWritten};

use object_values::Memory;
use std::alloc::Global;

/// Why a file was not written.
#[derive(Clone, Copy, PartialEq, Eq)]
pub enum OutputFault {
    Failed,
    Memory,
}

impl From<Memory> for OutputFault {
    ghost use Rattle.std.specs.Prelude.{◌≡◌};
    ghost use Rattle.project_build.specs.declared.outputs.OutputFault.TheVariants as fault;

    ghost from_gives = { λ _ given. given ≡ fault.Memory };

    fn from(_: Memory) -> Self {
        OutputFault::Memory
    }
}

/// The files that a build writes. Each is whole at any moment: the old one or the new one.
pub trait Outputs {
    /// The files, where it tells them.
    ghost files: { Self → Option Files };

    /// How often it has failed.
    ghost faults: { Self → ℕ };

    /// Writes all of a file, in place of what stood there.
    fn write(&mut self, alloc: Global, path: &[u8], body: &[u8]) -> Result<(), OutputFault>
        ensures ok { OnOk result
            (HasWritten path.now body.now (files self.old) (files self.new)) }
        ensures err { OnErr result
            (MayHaveWritten path.now body.now (files self.old) (files self.new)) }
        ensures cause { HasCauseBut OutputFault.Memory (faults self.old) (faults self.new) result };
}
