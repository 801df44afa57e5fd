// The files that the graph and texts of sources are taken from.
ghost use Rattle.std.specs.Prelude.{◌≡◌, ℕ, Option, IfOk};
ghost use Rattle.odin_outside.specs.Causes.{HasCauseBut, once_more};
ghost use Rattle.odin_outside.specs.Files.{Files, IsGiven};

use object_values::{Bytes, Copied, Memory};
use std::alloc::Global;

/// Why a file was not given.
#[derive(Clone, Copy, PartialEq, Eq)]
pub enum TreeFault {
    Failed,
    Memory,
}

impl From<Memory> for TreeFault {
    ghost use Rattle.odin_outside.specs.declared.tree.TreeFault.{TreeFault};
    ghost use Rattle.std.specs.Prelude.{◌≡◌};

    ghost from_gives = { λ _ fault. fault ≡ TreeFault.Memory };

    fn from(_: Memory) -> Self {
        TreeFault::Memory
    }
}

impl Copied for TreeFault {
    fn copy(&self, _alloc: Global) -> Result<Self, Memory> {
        Ok(*self)
    }
}

/// The files that the graph and texts of sources are taken from.
pub trait Tree {
    /// The files, where the tree tells them.
    ghost files: { Self → Option Files };

    /// How often it has failed.
    ghost faults: { Self → ℕ };

    /// How often it was asked for a file.
    ghost reads: { Self → ℕ };

    /// The first 16,777,217 bytes of a file, or all where it is shorter. `None` is said of a file that is not there.
    fn read(&mut self, alloc: Global, name: &[u8]) -> Result<Option<Bytes>, TreeFault>
        ensures ok { IfOk result (IsGiven (files self.old) name.now) }
        ensures kept { files self.new ≡ files self.old }
        ensures counted { reads self.new ≡ once_more (reads self.old) }
        ensures cause { HasCauseBut TreeFault.Memory (faults self.old) (faults self.new) result };
}
