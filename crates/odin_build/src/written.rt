// The files of a project that a build writes.
use build_files::whole::write_whole;
use project_build::{OutputFault, Outputs};
use std::alloc::Global;
use std::io::{self, ErrorKind};
use std::{fs, str};

/// The files of the project's folder, as a build writes them: each is whole at any moment, left untouched where it has its bytes already, and keeps its
/// permissions. What they hold is told by no clause, since the system doesn't tell it.
#[derive(Drop)]
pub(crate) struct WrittenFiles<'a> {
    rt: &'a HostRuntime,
    faults: u64,
    cause: Option<io::Error>,
}

impl<'a> WrittenFiles<'a> {
    pub(crate) fn new(rt: &'a HostRuntime) -> Self {
        WrittenFiles {
            rt,
            faults: 0,
            cause: None,
        }
    }

    /// Why the last file that failed did.
    pub(crate) fn into_cause(self) -> Option<io::Error> {
        let WrittenFiles {
            rt: _,
            faults: _,
            cause,
        } = self;
        cause
    }
}

/// Writes a file, in folders that are made where they aren't there.
fn write_at(rt: &HostRuntime, path: &[u8], body: &[u8]) -> io::Result<()> {
    let Ok(path) = str::from_utf8(path) else {
        return Err(io::Error::from(ErrorKind::InvalidFilename));
    };
    if let Some((folder, _)) = path.rsplit_once('/') {
        fs::create_dir_all(rt, folder)?;
    }
    write_whole(rt, path, body)
}

impl Outputs for WrittenFiles<'_> {
    ghost use Rattle.std.specs.Prelude.{None};

    ghost files = { λ _. None };

    ghost faults = { λ w. w.faults };

    fn write(&mut self, _alloc: Global, path: &[u8], body: &[u8]) -> Result<(), OutputFault> {
        match write_at(self.rt, path, body) {
            Ok(()) => Ok(()),
            Err(error) => {
                if error.kind() == ErrorKind::OutOfMemory {
                    return Err(OutputFault::Memory);
                }
                self.faults = self.faults.saturating_add(1);
                self.cause = Some(error);
                Err(OutputFault::Failed)
            }
        }
    }
}
