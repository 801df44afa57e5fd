// A file of the system by its path.
ghost use Rattle.std.specs.Prelude.{◌≡◌, ◌↔◌, IfSome, Ok, None, true, false};
ghost use Rattle.std.specs.Fs.{IsFile, asks_create, asks_read, asks_truncate, asks_write, file_type, metadata_len};
ghost use Rattle.odin_real.specs.Names.{found_of, synced_of};

use crate::lock::LockFault;
use crate::raw::RawFile;
use std::fs::{self, File, Metadata, OpenOptions, TryLockError};
use std::io::{self, Error, ErrorKind};
use std::os::unix::fs::{FileExt, MetadataExt};
use std::rt::Files;

/// A file of the system by its path. It tells nothing.
#[derive(Drop)]
pub struct NamedFile<'a, R: Files<File = File> + Alloc + Drop> {
    rt: R,
    path: &'a str,
    file: Option<File>,
}

// How a file is opened: it is read and written, and what it holds stays.
fn read_and_write(create: bool) -> OpenOptions
    ensures read { asks_read result ≡ true }
    ensures write { asks_write result ≡ true }
    ensures create { asks_create result ≡ create }
    ensures kept { asks_truncate result ≡ false }
{
    let mut options = OpenOptions::new();
    options.read(true).write(true).create(create);
    options
}

/// What was opened or found, where something stands there.
pub fn found<T>(opened: io::Result<T>) -> io::Result<Option<T>>
    ensures { result ≡ found_of opened }
{
    match opened {
        Ok(file) => Ok(Some(file)),
        Err(error) if error.kind() == ErrorKind::NotFound => Ok(None),
        Err(error) => Err(error),
    }
}

// The size of a plain file, where its path leads to it.
fn size_at_path(file: &Metadata, there: &Metadata) -> Option<u64>
    ensures { IfSome result (λ size. (size ≡ metadata_len file.now) × IsFile (file_type file.now)) }
{
    if file.is_file() && file.dev() == there.dev() && file.ino() == there.ino() {
        Some(file.len())
    } else {
        None
    }
}

// The path of the folder that holds a file.
fn folder_of(path: &str) -> &str {
    match path.rsplit_once('/') {
        Some(("", _)) => "/",
        Some((folder, _)) => folder,
        None => ".",
    }
}

// Some systems have no sync of a folder, or no leave to open it.
fn tolerated(synced: io::Result<()>) -> io::Result<()>
    ensures { result ≡ synced_of synced }
{
    match synced {
        Err(error) if error.kind() == ErrorKind::InvalidInput => Ok(()),
        Err(error) if error.kind() == ErrorKind::PermissionDenied => Ok(()),
        synced => synced,
    }
}

fn sync_folder<R: Files<File = File> + Alloc>(rt: &R, folder: &str) -> io::Result<()> {
    tolerated(fs::open(rt, folder).and_then(|folder| folder.sync_all()))
}

impl<'a, R: Files<File = File> + Alloc + Drop> NamedFile<'a, R> {
    /// The file of a path. Nothing is opened yet.
    pub fn new(rt: R, path: &'a str) -> Self
        ensures path { result.path.now ≡ path.now }
        ensures closed { result.file ≡ None }
    {
        NamedFile {
            rt,
            path,
            file: None,
        }
    }

    fn opened(&self) -> io::Result<&File> {
        match &self.file {
            Some(file) => Ok(file),
            None => Err(Error::from(ErrorKind::NotFound)),
        }
    }
}

impl<'a, R: Files<File = File> + Alloc + Drop> RawFile for NamedFile<'a, R> {
    ghost use Rattle.std.specs.Prelude.{◌≡◌, None};
    ghost use Rattle.std.proofs.lemmas.Bool.{false≢true};
    ghost use Rattle.odin_real.specs.Silent.{silent};

    ghost told = { λ _. silent };

    ghost hold = { λ _. None };

    ghost reads_image = { λ f follows. absurd (false≢true follows) };

    ghost counts_now = { λ f t c follows le left. absurd (false≢true follows) };

    ghost only_now = { λ f c follows left. absurd (false≢true follows) };

    fn find(&mut self) -> io::Result<bool> {
        self.file = None;
        self.file = found(read_and_write(false).open(&self.rt, self.path))?;
        Ok(self.file.is_some())
    }

    fn make(&mut self) -> io::Result<()> {
        self.file = Some(read_and_write(true).open(&self.rt, self.path)?);
        Ok(())
    }

    fn lock(&mut self) -> Result<(), LockFault> {
        match self.opened()?.try_lock() {
            Ok(()) => Ok(()),
            Err(TryLockError::WouldBlock) => Err(LockFault::InUse),
            Err(TryLockError::Error(_)) => Err(LockFault::Failed),
        }
    }

    fn look(&mut self) -> io::Result<Option<u64>> {
        let there = fs::metadata(&self.rt, self.path)?;
        Ok(size_at_path(&self.opened()?.metadata()?, &there))
    }

    fn read_at(&mut self, at: u64, into: &mut [u8]) -> io::Result<()> {
        self.opened()?.read_exact_at(into, at)
    }

    fn write_at(&mut self, at: u64, bytes: &[u8]) -> io::Result<()> {
        self.opened()?.write_all_at(bytes, at)
    }

    fn cut(&mut self, size: u64) -> io::Result<()> {
        self.opened()?.set_len(size)
    }

    fn sync(&mut self) -> io::Result<()> {
        self.opened()?.sync_all()
    }

    // The name of what a link leads to stands in another folder. For any other file no path is made: that takes memory, and want of it would be told as a
    // fault of the disk.
    fn sync_name(&mut self) -> io::Result<()> {
        if fs::symlink_metadata(&self.rt, self.path)?.is_symlink() {
            let path = fs::canonicalize(&self.rt, self.path)?;
            return sync_folder(&self.rt, folder_of(path.as_str()));
        }
        sync_folder(&self.rt, folder_of(self.path))
    }
}
