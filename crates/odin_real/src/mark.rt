// Which folder or file of the disk one is.
ghost use Rattle.std.specs.Prelude.{◌≡◌};

use std::fs::Metadata;
use std::os::unix::fs::MetadataExt;

/// Which folder or file of the disk one is: its device and its number there. One that was put in the place of another has another mark.
#[derive(Clone, Copy, PartialEq, Eq)]
pub struct FolderMark {
    device: u64,
    number: u64,
}

/// The mark of what this tells of.
pub fn mark_of(found: &Metadata) -> FolderMark {
    FolderMark {
        device: found.dev(),
        number: found.ino(),
    }
}
