// The folder in which a tool is started.
ghost use Rattle.std.specs.Prelude.{◌≡◌, ◌↔◌, Option, List, ℕ, IsTrue, IfOk, OnOk, IfSome, option_map};
ghost use Rattle.call_layout.specs.Places.{Files, with_file};

use std::rt::Files;
use std::{fs, io};

/// What is done with the files of the folder in which a tool is started.
pub trait Place {
    /// The bytes of the file at each path, where they are told.
    ghost files: { Self → Option Files };

    /// Puts the file of a part at a path. The folders above the path are made. Where something stands at the path this fails.
    fn put(&mut self, part: &str, path: &str) -> io::Result<()>
        ensures { OnOk result
            (files self.new ≡ option_map (with_file part.now path.now) (files self.old)) };

    /// Whether the files of two parts have the same bytes.
    fn are_same(&mut self, part: &str, other: &str) -> io::Result<bool>
        ensures same { IfOk result (λ same. IfSome (files self.old) (λ held.
            IsTrue same ↔ (held part.now ≡ held other.now))) }
        ensures kept { files self.new ≡ files self.old };
}

/// The current folder of the process. It tells nothing of its files.
#[derive(Drop)]
pub struct Here<'a, R: Files + AllocGlobal> {
    rt: &'a R,
}

impl<'a, R: Files + AllocGlobal> Here<'a, R> {
    pub fn new(rt: &'a R) -> Self {
        Here { rt }
    }
}

/// Makes the folders above a path.
fn make_above<R: Files>(rt: &R, path: &str) -> io::Result<()> {
    match path.rsplit_once('/') {
        Some((folder, _)) => fs::create_dir_all(rt, folder),
        None => Ok(()),
    }
}

/// Copies a file.
fn copy_file<R: Files>(rt: &R, part: &str, path: &str) -> io::Result<()> {
    match fs::copy(rt, part, path) {
        Ok(_) => Ok(()),
        Err(error) => Err(error),
    }
}

impl<'a, R: Files + AllocGlobal> Place for Here<'a, R> {
    ghost use Rattle.std.specs.Prelude.{None};

    ghost files = { λ _. None };

    /// The same file gets a second name, which takes no bytes; where a file system has no such names, a copy is made. A copy would be written into what
    /// stands there, or to where a link leads, so none is made then.
    fn put(&mut self, part: &str, path: &str) -> io::Result<()> {
        make_above(self.rt, path)?;
        match fs::hard_link(self.rt, part, path) {
            Ok(()) => Ok(()),
            Err(error) => {
                if fs::symlink_metadata(self.rt, path).is_ok() {
                    return Err(error);
                }
                copy_file(self.rt, part, path)
            }
        }
    }

    fn are_same(&mut self, part: &str, other: &str) -> io::Result<bool> {
        let body = fs::read(self.rt, part)?;
        let others = fs::read(self.rt, other)?;
        Ok(body.as_slice() == others.as_slice())
    }
}
