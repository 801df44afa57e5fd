// Whether files that a build took changed while it ran. What the system tells of files is no clause.
use crate::faults::Fault;
use crate::told::{Line, say};
use indexmap::IndexSet;
use object_values::{Bytes, Copied, FileBody, Memory};
use std::alloc::Global;
use std::os::unix::fs::MetadataExt;
use std::{fs, str};

/// What the system tells of a file, of which something changes where its text does.
#[derive(Clone, Copy, PartialEq, Eq)]
struct Look {
    device: u64,
    number: u64,
    size: u64,
    written: (i64, i64),
    changed: (i64, i64),
}

/// A file that a build takes, as it was when it was looked at first.
#[derive(Drop)]
struct Seen {
    path: Bytes,
    look: Option<Look>,
}

/// The files that a build takes.
#[derive(Drop)]
pub(crate) struct Looks {
    files: Vec<Seen>,
}

/// What stands at a path, with links followed.
fn look_at(rt: &HostRuntime, path: &[u8]) -> Option<Look> {
    let path = str::from_utf8(path).ok()?;
    let found = fs::metadata(rt, path).ok()?;
    Some(Look {
        device: found.dev(),
        number: found.ino(),
        size: found.len(),
        written: (found.mtime(), found.mtime_nsec()),
        changed: (found.ctime(), found.ctime_nsec()),
    })
}

fn changed_line(alloc: Global, path: &[u8]) -> Result<Bytes, Memory> {
    Line::new(alloc)?
        .shown(path)?
        .text(" changed while it was built")?
        .end()
}

impl Looks {
    pub(crate) fn new(alloc: Global) -> Self {
        Looks {
            files: Vec::new(alloc),
        }
    }

    /// Looks at a file, which is to be done before its text is read.
    pub(crate) fn take(&mut self, rt: &HostRuntime, path: &[u8]) -> Result<(), Memory> {
        let look = look_at(rt, path);
        let path = Bytes::from_slice(rt.alloc(), path)?;
        self.files.push(Seen { path, look }).map_err(|_| Memory)
    }

    /// Looks at the sources that aren't made for the project.
    pub(crate) fn take_all(
        &mut self,
        rt: &HostRuntime,
        paths: &[Bytes],
        made: &[FileBody],
    ) -> Result<(), Memory> {
        let mut names = IndexSet::new(rt.alloc());
        for file in made {
            names.insert(file.name.copy(rt.alloc())?)?;
        }
        for path in paths {
            if !names.contains(path) {
                self.take(rt, path.as_slice())?;
            }
        }
        Ok(())
    }

    /// Tells each file that is another one than at the first look, and gives whether there was one.
    pub(crate) fn tell_changed(&self, rt: &HostRuntime) -> Result<bool, Fault> {
        let mut found = false;
        for file in &self.files {
            if look_at(rt, file.path.as_slice()) != file.look {
                let line = changed_line(rt.alloc(), file.path.as_slice())?;
                say(rt, line.as_slice());
                found = true;
            }
        }
        Ok(found)
    }
}
