// The files below the project's folder.
use crate::faults::Fault;
use build_files::causes::Cause;
use build_files::paths::add_step;
use object_values::{Bytes, Copied, Memory};
use project_folder::is_reserved;
use std::alloc::Global;
use std::{fs, io, str};

/// The fault of a look at a place.
pub(crate) fn input_fault(alloc: Global, place: &str, error: &io::Error) -> Fault {
    match Cause::at(alloc, place, error) {
        Ok(cause) => Fault::Input(cause),
        Err(Memory) => Fault::Memory,
    }
}

/// A path as the system takes it: the project's folder is `.`.
fn place_of(path: &[u8]) -> &str {
    match str::from_utf8(path) {
        Ok("") | Err(_) => ".",
        Ok(text) => text,
    }
}

/// Whether a path leads to a file at last, and not to a folder or a device.
fn leads_to_file(rt: &HostRuntime, path: &str) -> bool {
    match fs::metadata(rt, path) {
        Ok(found) => found.is_file(),
        Err(_) => false,
    }
}

/// Takes what stands at a path: a folder is left for later.
fn take_entry(
    rt: &HostRuntime,
    path: Bytes,
    kind: fs::FileType,
    folders: &mut Vec<Bytes>,
    found: &mut Vec<Bytes>,
) -> Result<(), Fault> {
    if kind.is_dir() {
        return folders.push(path).map_err(|_| Fault::Memory);
    }
    if kind.is_file() || (kind.is_symlink() && leads_to_file(rt, place_of(path.as_slice()))) {
        return found.push(path).map_err(|_| Fault::Memory);
    }
    Ok(())
}

/// The files below a folder, and the folders in which names stand that aren't UTF-8: which these are the system's library doesn't tell.
#[derive(Drop)]
pub(crate) struct Found {
    pub(crate) files: Vec<Bytes>,
    pub(crate) odd: Vec<Bytes>,
}

/// Takes an entry that can't be told: a name that isn't UTF-8 is passed over, since no source has one.
fn take_untold(
    alloc: Global,
    folder: &Bytes,
    error: &io::Error,
    found: &mut Found,
) -> Result<(), Fault> {
    if error.kind() != io::ErrorKind::InvalidFilename || error.raw_os_error().is_some() {
        return Err(input_fault(alloc, place_of(folder.as_slice()), error));
    }
    let folder = folder.copy(alloc)?;
    found.odd.push(folder).map_err(|_| Fault::Memory)
}

/// Takes what stands in a folder, but for what the build itself has there and what git has.
fn take_folder(
    rt: &HostRuntime,
    folder: &Bytes,
    folders: &mut Vec<Bytes>,
    found: &mut Found,
) -> Result<(), Fault> {
    let place = place_of(folder.as_slice());
    let entries = match fs::read_dir(rt, place) {
        Ok(entries) => entries,
        Err(error) => return Err(input_fault(rt.alloc(), place, &error)),
    };
    for entry in entries {
        let entry = match entry {
            Ok(entry) => entry,
            Err(error) => {
                take_untold(rt.alloc(), folder, &error, found)?;
                continue;
            }
        };
        let mut path = folder.copy(rt.alloc())?;
        add_step(&mut path, entry.file_name().as_bytes())?;
        if !is_reserved(path.as_slice()) {
            let kind = match entry.file_type() {
                Ok(kind) => kind,
                Err(error) => return Err(input_fault(rt.alloc(), place, &error)),
            };
            take_entry(rt, path, kind, folders, &mut found.files)?;
        }
    }
    Ok(())
}

/// The files below the project's folder, by their paths. Which they are is no clause, since the system doesn't tell what stands in a folder.
pub(crate) fn files_below(rt: &HostRuntime) -> Result<Found, Fault> {
    let mut found = Found {
        files: Vec::new(rt.alloc()),
        odd: Vec::new(rt.alloc()),
    };
    let mut folders = Vec::new(rt.alloc());
    folders
        .push(Bytes::new(rt.alloc()))
        .map_err(|_| Fault::Memory)?;
    // Bounded, since the system doesn't say that a folder has an end: others may add to it meanwhile.
    for _ in 0..u64::MAX {
        let Some(next) = folders.pop() else {
            break;
        };
        take_folder(rt, &next, &mut folders, &mut found)?;
    }
    Ok(found)
}
