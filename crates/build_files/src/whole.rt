//! Files that are whole or the old ones. What a file has is no clause, since the system doesn't tell it.
ghost use Rattle.std.specs.Prelude.{◌≡◌};
ghost use Rattle.build_files.specs.Modes as meaning;

use std::fs::{Metadata, OpenFile, OpenOptions};
use std::io::{Error, ErrorKind, Write};
use std::os::unix::fs::OpenOptionsExt;
use std::{fs, io};

/// How many names are tried for a new file: those that killed runs left are passed over.
const NAME_COUNT: u32 = 1_000;

/// Whether a file has these bytes already.
fn has_bytes(rt: &HostRuntime, path: &str, body: &[u8]) -> bool {
    let Ok(found) = fs::metadata(rt, path) else {
        return false;
    };
    if !found.is_file() || found.len() != body.len() as u64 {
        return false;
    }
    match fs::read(rt, path) {
        Ok(held) => held.as_slice() == body,
        Err(_) => false,
    }
}

/// A name in the same folder, which begins with a dot and ends with a number.
fn name_beside(rt: &HostRuntime, path: &str, number: u32) -> io::Result<String> {
    let alloc = rt.alloc();
    let name = match path.rsplit_once('/') {
        Some((folder, name)) => format!(in alloc; "{folder}/.{name}.{number}")?,
        None => format!(in alloc; ".{path}.{number}")?,
    };
    Ok(name)
}

/// Whether a text is a program by its first bytes: the system runs what begins so.
fn is_program(body: &[u8]) -> bool
    ensures { result ≡ meaning.is_program body.now }
{
    body.starts_with(b"\x7fELF") || body.starts_with(b"#!")
}

/// The permissions that a new file asks for, of which the umask takes some away. A program may be run as it stands.
fn new_mode(body: &[u8]) -> u32
    ensures { result ≡ meaning.new_mode body.now }
{
    if is_program(body) { 0o777 } else { 0o666 }
}

/// Writes all of a file, with the permissions of the one that it is to stand for, and syncs it.
fn fill_file<F: Write + OpenFile>(
    file: &mut F,
    body: &[u8],
    old: Option<&Metadata>,
) -> io::Result<()> {
    file.write_all(body)?;
    if let Some(old) = old {
        file.set_permissions(old.permissions())?;
    }
    file.sync_all()
}

/// Writes a file that isn't there yet. Where that fails there is none.
fn write_new(rt: &HostRuntime, path: &str, body: &[u8], old: Option<&Metadata>) -> io::Result<()> {
    let mut options = OpenOptions::new();
    options.write(true).create_new(true).mode(new_mode(body));
    let mut file = options.open(rt, path)?;
    let filled = fill_file(&mut file, body, old);
    if filled.is_err() {
        let _ = fs::remove_file(rt, path);
    }
    filled
}

/// Puts a new file in the place of another. Where that fails the new one is gone, and the other as it was.
fn move_over(rt: &HostRuntime, new: &str, path: &str) -> io::Result<()> {
    let moved = fs::rename(rt, new, path);
    if moved.is_err() {
        let _ = fs::remove_file(rt, new);
    }
    moved
}

/// Writes a new file, under the first name that is free, and puts it in the place of the other.
fn write_beside(
    rt: &HostRuntime,
    path: &str,
    body: &[u8],
    old: Option<&Metadata>,
) -> io::Result<()> {
    for number in 0..NAME_COUNT {
        let name = name_beside(rt, path, number)?;
        match write_new(rt, name.as_str(), body, old) {
            Ok(()) => return move_over(rt, name.as_str(), path),
            Err(error) => {
                if error.kind() != ErrorKind::AlreadyExists {
                    return Err(error);
                }
            }
        }
    }
    Err(Error::from(ErrorKind::AlreadyExists))
}

/// Writes to what a path leads to, as it is. Where nothing is there a new file is made.
fn write_through(rt: &HostRuntime, path: &str, body: &[u8]) -> io::Result<()> {
    let mut options = OpenOptions::new();
    options
        .write(true)
        .create(true)
        .truncate(true)
        .mode(new_mode(body));
    let mut file = options.open(rt, path)?;
    file.write_all(body)
}

/// Replaces what a path leads to, where that is a file or nothing. A device or a pipe is written as it is.
fn replace_file(rt: &HostRuntime, path: &str, body: &[u8]) -> io::Result<()> {
    match fs::metadata(rt, path) {
        Ok(found) => {
            if found.is_file() {
                write_beside(rt, path, body, Some(&found))
            } else {
                write_through(rt, path, body)
            }
        }
        Err(_) => write_beside(rt, path, body, None),
    }
}

fn is_link(rt: &HostRuntime, path: &str) -> bool {
    match fs::symlink_metadata(rt, path) {
        Ok(found) => found.is_symlink(),
        Err(_) => false,
    }
}

/// Writes a file, so that at each moment all of the old one is there or all of this one. One that has these bytes is left
/// untouched, and one that stands keeps its permissions; a new one that is a program may be run. A link stays one: what it leads to is written.
pub fn write_whole(rt: &HostRuntime, path: &str, body: &[u8]) -> io::Result<()> {
    if has_bytes(rt, path, body) {
        return Ok(());
    }
    if is_link(rt, path) {
        return match fs::canonicalize(rt, path) {
            Ok(target) => replace_file(rt, target.as_str(), body),
            Err(_) => write_through(rt, path, body),
        };
    }
    replace_file(rt, path, body)
}
