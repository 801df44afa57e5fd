// The system of the process.
ghost use Rattle.std.specs.Prelude.{◌≡◌, true};
ghost use Rattle.std.specs.Fs.{asks_create_new};

use crate::fault::SystemFault;
use crate::mark::{FolderMark, mark_of};
use crate::read::read_output;
use crate::session::hold_home;
use crate::sweep::{clear_others, discard, make_moved, remove_home};
use crate::system::System;
use object_values::Bytes;
use std::alloc::{AllocError, Global};
use std::fs::{self, File, OpenFile, OpenOptions, Permissions};
use std::io::{self, Error, ErrorKind, Stderr, Write};
use std::os::unix::fs::PermissionsExt;
use std::process::{Child, Command, ExitStatus, Processes, Stdio};
use std::random::RandomSource;
use std::rt::Files;
use std::thread;
use std::time::{Clock, Duration};

/// The name of the file that is written where a program has ended: no output has it, since it begins with a dot.
const ROOM: &str = ".room";

/// How much is written there: as much as a disk gives at once.
const ROOM_BYTES: [u8; 4096] = [0; 4096];

/// The system of the process, with the open folder of the session, whose lock is held as long as it is open: no child program gets it. It tells
/// neither what stands at a path nor what it did.
#[derive(Drop)]
pub struct HostSystem<R: Files<File = File> + Alloc + Clone + Drop> {
    rt: R,
    held: Option<File>,
    moved: u64,
}

impl<R: Files<File = File> + Alloc + Clone + Drop> HostSystem<R> {
    /// Nothing was moved out of the way yet.
    pub fn new(rt: R) -> Self
        ensures { result.moved ≡ 0 }
    {
        HostSystem {
            rt,
            held: None,
            moved: 0,
        }
    }
}

// The path of a file right in a folder.
fn path_in(alloc: Global, folder: &str, name: &str) -> Result<String, AllocError> {
    format!(in alloc; "{folder}/{name}")
}

// How a file is opened that is to be made: nothing of its name may be there, so that no link is followed.
fn new_file() -> OpenOptions
    ensures { asks_create_new result ≡ true }
{
    let mut options = OpenOptions::new();
    options.write(true).create_new(true);
    options
}

// Makes the folder of sessions where nothing is. A link isn't followed, so that nothing is done at its other end.
fn make_work<R: Files>(rt: &R, work: &str) -> io::Result<()> {
    match fs::symlink_metadata(rt, work) {
        Ok(found) => {
            if found.is_dir() {
                Ok(())
            } else {
                Err(Error::from(ErrorKind::NotADirectory))
            }
        }
        Err(error) => {
            if error.kind() == ErrorKind::NotFound {
                fs::create_dir(rt, work)
            } else {
                Err(error)
            }
        }
    }
}

// Whether anything is at a path. A link is something, wherever it leads.
fn is_there<R: Files>(rt: &R, path: &str) -> io::Result<bool> {
    match fs::symlink_metadata(rt, path) {
        Ok(_) => Ok(true),
        Err(error) => {
            if error.kind() == ErrorKind::NotFound || error.kind() == ErrorKind::NotADirectory {
                Ok(false)
            } else {
                Err(error)
            }
        }
    }
}

// Writes a small file in a folder. What a program left under its name is removed before. It isn't synced: an output is read as it was written, whether
// the disk has it or not, so what counts is whether a write is taken, and a sync for each run would cost more than most tools.
fn write_room<R: Files>(rt: &R, path: &str) -> io::Result<()> {
    let _ = fs::remove_file(rt, path);
    let mut file = new_file().open(rt, path)?;
    file.write_all(&ROOM_BYTES)
}

// The same in a folder in which a program may have left no right to write.
fn find_room<R: Files>(rt: &R, folder: &str, path: &str) -> io::Result<()> {
    match write_room(rt, path) {
        Err(error) if error.kind() == ErrorKind::PermissionDenied => {
            fs::set_permissions(rt, folder, Permissions::from_mode(0o700))?;
            write_room(rt, path)
        }
        written => written,
    }
}

// Which folder is at a path. A link is none.
fn mark_at<R: Files>(rt: &R, path: &str) -> io::Result<FolderMark> {
    let found = fs::symlink_metadata(rt, path)?;
    if found.is_dir() {
        Ok(mark_of(&found))
    } else {
        Err(Error::from(ErrorKind::NotADirectory))
    }
}

impl<R: Files<File = File> + Processes + RandomSource + Clock + Alloc + Clone + Drop> System
    for HostSystem<R> {
    ghost use Rattle.std.specs.Prelude.{None};

    type Started = R::Started;

    ghost held = { λ _ _. None };

    ghost log = { λ _. None };

    fn draw(&mut self) -> Result<u64, SystemFault> {
        let mut bytes = [0; 8];
        self.rt.fill_bytes(&mut bytes)?;
        Ok(u64::from_be_bytes(bytes))
    }

    fn open(&mut self, alloc: Global, work: &str, home: &str) -> Result<(), SystemFault> {
        make_work(&self.rt, work)?;
        self.held = Some(hold_home(&self.rt, home)?);
        make_moved(&self.rt, alloc, home)?;
        clear_others(&self.rt, alloc, work, home, &mut self.moved);
        Ok(())
    }

    fn close(&mut self, alloc: Global, home: &str) {
        remove_home(&self.rt, alloc, home, &mut self.moved);
        self.held = None;
    }

    fn discard(&mut self, alloc: Global, path: &str) {
        discard(&self.rt, alloc, path, &mut self.moved);
    }

    fn make(&mut self, path: &str) -> Result<FolderMark, SystemFault> {
        fs::create_dir(&self.rt, path)?;
        Ok(mark_at(&self.rt, path)?)
    }

    fn add(
        &mut self,
        alloc: Global,
        folder: &str,
        name: &str,
        body: &[u8],
    ) -> Result<(), SystemFault> {
        let path = path_in(alloc, folder, name)?;
        let mut file = new_file().open(&self.rt, path.as_str())?;
        file.write_all(body)?;
        Ok(())
    }

    fn read(
        &mut self,
        alloc: Global,
        folder: &str,
        name: &str,
    ) -> Result<Option<Bytes>, SystemFault> {
        read_output(&self.rt, alloc, path_in(alloc, folder, name)?.as_str())
    }

    fn has(&mut self, alloc: Global, folder: &str, name: &str) -> Result<bool, SystemFault> {
        Ok(is_there(&self.rt, path_in(alloc, folder, name)?.as_str())?)
    }

    fn spawn(
        &mut self,
        mut command: Command,
        _folder: &str,
        errors: Stderr,
    ) -> Result<Child<R::Started>, SystemFault> {
        command.stdin(Stdio::null());
        command.stdout(errors);
        command.stderr(errors);
        Ok(command.spawn(&self.rt)?)
    }

    #[tactic(auto, using(crate::proofs::AskedLemmas::told_on))]
    fn wait(
        &mut self,
        child: &mut Child<R::Started>,
        _folder: &str,
    ) -> Result<ExitStatus, SystemFault> {
        match child.wait() {
            Ok(status) => Ok(status),
            Err(_) => Err(SystemFault::Failed),
        }
    }

    fn settle(&mut self, alloc: Global, folder: &str, mark: FolderMark) -> Result<(), SystemFault> {
        if mark_at(&self.rt, folder)? != mark {
            return Err(SystemFault::Failed);
        }
        find_room(&self.rt, folder, path_in(alloc, folder, ROOM)?.as_str())?;
        Ok(())
    }

    fn pause(&self, time: Duration) {
        thread::sleep(&self.rt, time);
    }
}
