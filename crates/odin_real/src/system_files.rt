// The files of the system, opened for reading. They tell nothing.
use crate::mark::mark_of;
use crate::raw_files::RawFiles;
use std::fs::{self, OpenFile, OpenOptions};
use std::io::{self, ErrorKind};
use std::rt::Files;

// What is open, where it is a file, with its size.
fn regular<F: OpenFile + Drop>(file: F) -> io::Result<Option<(F, u64)>> {
    let about = file.metadata()?;
    Ok(if about.is_file() {
        Some((file, about.len()))
    } else {
        None
    })
}

/// The files of the current folder.
impl<R: Files> RawFiles for R {
    ghost use Rattle.std.specs.Prelude.{None};

    type Opened = R::File;

    ghost bodies = { λ _. None };

    ghost opened = { λ _. None };

    fn is_file(&mut self, path: &str) -> io::Result<bool> {
        Ok(fs::metadata(self, path)?.is_file())
    }

    fn open(&mut self, path: &str) -> io::Result<Option<(R::File, u64)>> {
        regular(fs::open(self, path)?)
    }
}

/// The same of files that tools leave, whose programs may still run. A link is no file here, wherever it leads. One that is put in the place of a file before that
/// is opened shows, since another file is open then than stood there; and a pipe that is put there can't make the opening wait, since one that is opened for
/// reading and writing doesn't.
#[derive(Drop)]
pub struct Outputs<'a, R: Files> {
    rt: &'a R,
}

impl<'a, R: Files> Outputs<'a, R> {
    pub fn new(rt: &'a R) -> Self {
        Outputs { rt }
    }
}

// Whether such an error says that the file may be read and not written.
fn is_read_only(kind: ErrorKind) -> bool {
    kind == ErrorKind::PermissionDenied
        || kind == ErrorKind::ReadOnlyFilesystem
        || kind == ErrorKind::ExecutableFileBusy
}

// Opens for reading and writing, or for reading where only that is allowed.
fn open_at_once<R: Files>(rt: &R, path: &str) -> io::Result<R::File> {
    match OpenOptions::new().read(true).write(true).open(rt, path) {
        Err(error) if is_read_only(error.kind()) => fs::open(rt, path),
        opened => opened,
    }
}

// The plain file that stands at a path itself, with its size.
fn open_plain<R: Files>(rt: &R, path: &str) -> io::Result<Option<(R::File, u64)>> {
    let there = fs::symlink_metadata(rt, path)?;
    if !there.is_file() {
        return Ok(None);
    }
    let file = open_at_once(rt, path)?;
    if mark_of(&file.metadata()?) == mark_of(&there) {
        regular(file)
    } else {
        Ok(None)
    }
}

impl<'a, R: Files> RawFiles for Outputs<'a, R> {
    ghost use Rattle.std.specs.Prelude.{None};

    type Opened = R::File;

    ghost bodies = { λ _. None };

    ghost opened = { λ _. None };

    fn is_file(&mut self, path: &str) -> io::Result<bool> {
        Ok(fs::symlink_metadata(self.rt, path)?.is_file())
    }

    fn open(&mut self, path: &str) -> io::Result<Option<(R::File, u64)>> {
        open_plain(self.rt, path)
    }
}
