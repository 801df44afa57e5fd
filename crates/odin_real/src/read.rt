// The front of a file.
ghost use Rattle.std.specs.Prelude.{◌≡◌, take, length, Err, IfOk, IfErr, IsOk, IfSome};
ghost use Rattle.std.specs.Str.{IsUtf8};
ghost use Rattle.odin_outside.specs.Files.{IsGiven, given_file_limit};
ghost use Rattle.odin_real.specs.Opens.{HasOpened, IsAbsentIn, IsOpened, most_read, says_absent};
ghost use Rattle.odin_real.specs.Answers.{answer_of_error};

use crate::fault::SystemFault;
use crate::raw_files::RawFiles;
use crate::system_files::Outputs;
use object_values::{BODY_LIMIT, Bytes};
use std::alloc::Global;
use std::io::{self, ErrorKind, Read};
use std::rt::Files;

/// How many bytes of a file are read at most: one more than a text may have, so that a longer one shows.
const LIMIT: u64 = BODY_LIMIT as u64 + 1;

/// The bytes as a text. The system's paths and words are texts here, so that other bytes name nothing.
pub fn text_of(bytes: &[u8]) -> Result<&str, SystemFault>
    ensures ok { IfOk result (λ text. text.now ≡ bytes.now) }
    ensures text { IsUtf8 bytes.now → IsOk result }
    ensures other { ¬ IsUtf8 bytes.now → result ≡ Err SystemFault.Failed }
{
    match std::str::from_utf8(bytes) {
        Ok(text) => Ok(text),
        Err(_) => Err(SystemFault::Failed),
    }
}

/// The first 16,777,217 bytes of what a reader of this size has left, or all where that is shorter. No byte after them is read, and none after the size:
/// so a file's end is known without a read that finds nothing. Files of the system that tell no size, as those of its processes, are read to their end.
pub fn read_front<R: Read + Drop>(alloc: Global, reader: R, size: u64) -> Result<Bytes, SystemFault>
    ensures { IfOk result (λ front. IfSome (R.remaining reader)
        (λ left. size ≡ length left → front ≡ take given_file_limit left)) }
{
    let mut front = Vec::new(alloc);
    // A byte more, so that the buffer doesn't grow once it is full.
    front.reserve(LIMIT.min(size) as usize + 1)?;
    match reader.take(most_read(size)).read_to_end(&mut front) {
        Ok(_) => Ok(Bytes::from_vec(front)),
        Err(error) => Err(error.into()),
    }
}

// How many bytes are read of a reader of this size at most.
fn most_read(size: u64) -> u64
    ensures { result ≡ most_read size }
{
    if size == 0 { LIMIT } else { LIMIT.min(size) }
}

// Whether such an error says that no file is at the path.
fn is_absent(kind: ErrorKind) -> bool
    ensures { result ≡ says_absent kind }
{
    kind == ErrorKind::NotFound
        || kind == ErrorKind::NotADirectory
        || kind == ErrorKind::FilesystemLoop
        || kind == ErrorKind::InvalidFilename
}

// What is answered at an error.
fn answer_at(error: io::Error) -> Result<Option<Bytes>, SystemFault>
    ensures { result ≡ answer_of_error error }
{
    if is_absent(error.kind()) {
        Ok(None)
    } else {
        Err(error.into())
    }
}

// Opens the file at a path, where one stands there. What stands there is asked first, since opening a device may do something.
fn open_file<R: RawFiles>(files: &mut R, path: &str) -> io::Result<Option<(R::Opened, u64)>>
    ensures ok { IfOk result (IsOpened R.Opened.remaining (R.bodies files.old) path.now) }
    ensures absent { IfErr result (IsAbsentIn (R.bodies files.old) path.now) }
    ensures kept { R.bodies files.new ≡ R.bodies files.old }
    ensures counted { HasOpened (R.opened files.old) (R.opened files.new) }
{
    if files.is_file(path)? {
        files.open(path)
    } else {
        Ok(None)
    }
}

/// The first 16,777,217 bytes of a file. `None` is said where no file is: nothing, a folder, a device, or a link that leads to none.
pub fn read_raw<R: RawFiles>(
    files: &mut R,
    alloc: Global,
    path: &str,
) -> Result<Option<Bytes>, SystemFault>
    ensures ok { IfOk result (IsGiven (R.bodies files.old) path.now) }
    ensures kept { R.bodies files.new ≡ R.bodies files.old }
    ensures counted { HasOpened (R.opened files.old) (R.opened files.new) }
{
    match open_file(files, path) {
        Ok(Some((file, size))) => Ok(Some(read_front(alloc, file, size)?)),
        Ok(None) => Ok(None),
        Err(error) => answer_at(error),
    }
}

/// What `read_raw` gives of the system's file, opened for reading.
pub fn read_file<R: Files>(
    rt: &R,
    alloc: Global,
    path: &str,
) -> Result<Option<Bytes>, SystemFault> {
    let mut files = rt;
    read_raw(&mut files, alloc, path)
}

/// What `read_raw` gives of a file that a tool left, whatever stands there once it is opened: nothing makes this wait, and a link isn't followed.
pub fn read_output<R: Files>(
    rt: &R,
    alloc: Global,
    path: &str,
) -> Result<Option<Bytes>, SystemFault> {
    read_raw(&mut Outputs::new(rt), alloc, path)
}
