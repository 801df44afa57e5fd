// Why the sources are not made of the listed files.
use object_values::{Bytes, Memory};
use odin_outside::TreeFault;

/// Why the listed files make no sources.
#[derive(Drop)]
pub enum ListFault {
    /// There is no such file.
    Missing(Bytes),
    /// The file has more than 16,777,216 bytes.
    TooLong(Bytes),
    /// The tree failed.
    Tree,
    Memory,
}

impl From<Memory> for ListFault {
    ghost use Rattle.std.specs.Prelude.{◌≡◌};
    ghost use Rattle.fresh_build.specs.declared.fault.ListFault.TheVariants as fault;

    ghost from_gives = { λ _ given. given ≡ fault.Memory };

    fn from(_: Memory) -> Self {
        ListFault::Memory
    }
}
