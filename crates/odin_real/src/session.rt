// The folder of a session and its lock, which tells that the session lives: another one clears away what nobody has locked.
use crate::mark::mark_of;
use crate::named::found;
use std::fs::{self, File, TryLockError};
use std::io::{self, Error, ErrorKind};
use std::rt::Files;
use std::thread;
use std::time::{Clock, Duration};

/// How often the folder is made and locked, since another session may take it away between the two, or have its lock while it looks.
const TRIES: u32 = 200;

const PAUSE_MILLIS: u64 = 5;

// Makes the folder, where it isn't there from the last try.
fn make_once<R: Files>(rt: &R, home: &str) -> io::Result<()> {
    match fs::create_dir(rt, home) {
        Err(error) if error.kind() == ErrorKind::AlreadyExists => Ok(()),
        made => made,
    }
}

// Whether a folder that is open is the one at a path.
fn is_at<R: Files<File = File>>(rt: &R, folder: &File, path: &str) -> io::Result<bool> {
    match found(fs::symlink_metadata(rt, path))? {
        Some(there) => Ok(mark_of(&there) == mark_of(&folder.metadata()?)),
        None => Ok(false),
    }
}

// The folder with its lock, where no other session was faster.
fn try_hold<R: Files<File = File>>(rt: &R, home: &str) -> io::Result<Option<File>> {
    make_once(rt, home)?;
    let Some(folder) = found(fs::open(rt, home))? else {
        return Ok(None);
    };
    match folder.try_lock() {
        Ok(()) => Ok(is_at(rt, &folder, home)?.then_some(folder)),
        Err(TryLockError::WouldBlock) => Ok(None),
        Err(TryLockError::Error(error)) => Err(error),
    }
}

/// Makes the folder of a session and takes its lock, for as long as what this gives is open.
pub fn hold_home<R: Files<File = File> + Clock>(rt: &R, home: &str) -> io::Result<File> {
    for _ in 0..TRIES {
        if let Some(folder) = try_hold(rt, home)? {
            return Ok(folder);
        }
        thread::sleep(rt, Duration::from_millis(PAUSE_MILLIS));
    }
    Err(Error::from(ErrorKind::WouldBlock))
}

/// Whether a session lives in a folder: it has the lock then.
pub fn is_alive(folder: &File) -> bool {
    match folder.try_lock() {
        Err(TryLockError::WouldBlock) => true,
        Ok(()) | Err(TryLockError::Error(_)) => false,
    }
}
