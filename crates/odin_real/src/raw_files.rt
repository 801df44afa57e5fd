// What the system does with files that are only read.
ghost use Rattle.std.specs.Prelude.{◌≡◌, ℕ, Option, IfOk, IfErr};
ghost use Rattle.odin_outside.specs.Files.{Files};
ghost use Rattle.odin_real.specs.Opens.{HasOpened, IsOpened, IsStanding, IsAbsentIn};

use std::io::{self, Read};

/// Files that the system gives by their paths.
pub trait RawFiles {
    type Opened: Read + Drop;

    /// The bodies by paths, where they are told.
    ghost bodies: { Self → Option Files };

    /// How many files were opened, where it is told.
    ghost opened: { Self → Option ℕ };

    /// Whether a file stands at the path: no folder and no device.
    fn is_file(&mut self, path: &str) -> io::Result<bool>
        ensures ok { IfOk result (IsStanding (bodies self.old) path.now) }
        ensures absent { IfErr result (IsAbsentIn (bodies self.old) path.now) }
        ensures kept { bodies self.new ≡ bodies self.old }
        ensures counted { opened self.new ≡ opened self.old };

    /// Opens what stands there, and gives its size with it. `None` is said where that is no file.
    fn open(&mut self, path: &str) -> io::Result<Option<(Self::Opened, u64)>>
        ensures ok { IfOk result (IsOpened Self.Opened.remaining (bodies self.old) path.now) }
        ensures absent { IfErr result (IsAbsentIn (bodies self.old) path.now) }
        ensures kept { bodies self.new ≡ bodies self.old }
        ensures counted { HasOpened (opened self.old) (opened self.new) };
}
