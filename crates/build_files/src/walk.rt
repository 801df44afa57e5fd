// The files below a folder, as the system tells them.
ghost use Rattle.std.specs.Prelude.{◌≡◌};
ghost use Rattle.build_files.specs.Found.{FindsMore};

use crate::paths::{add_step, leads};
use crate::takes::{Fault, input_fault};
use object_values::{Bytes, Copied, Memory};
use odin_bytes::{Name, read_name};
use std::alloc::Global;
use std::{fs, io};

/// What was found below the folders.
pub struct Found {
    /// The names of files, in any order, one as often as it was found.
    pub names: Vec<Name>,
    /// A file's name was none.
    pub odd: bool,
    /// A folder wasn't there.
    pub missing: bool,
}

// By hand: a drop is one call, where a derived one is opened field by field at each early return.
impl Drop for Found {
    fn drop(self) {
        let Found {
            names,
            odd: _,
            missing: _,
        } = self;
        drop(names);
    }
}

impl Found {
    /// The names alone.
    pub fn into_names(self) -> Vec<Name>
        ensures { result.items ≡ self.names.items }
    {
        let Found {
            names,
            odd: _,
            missing: _,
        } = self;
        names
    }
}

/// The path as the system takes it: the current folder is `.`. Of words and names that are texts all paths are texts.
fn text_of(alloc: Global, path: &[u8]) -> Result<&str, Fault> {
    if path.is_empty() {
        return Ok(".");
    }
    match std::str::from_utf8(path) {
        Ok(text) => Ok(text),
        Err(_) => {
            let error = io::Error::from(io::ErrorKind::InvalidFilename);
            Err(input_fault(alloc, "a path", &error))
        }
    }
}

/// Tells on standard error what is passed over. Where that is closed nobody reads it, and the names are found all the same.
fn tell(rt: &HostRuntime, what: &str, place: &str) {
    let _ = eprintln!(rt; "odin_takes: {what}{place}");
}

/// Whether a path leads to a file at last, and not to a folder or a device.
fn leads_to_file(rt: &HostRuntime, path: &str) -> bool {
    match fs::metadata(rt, path) {
        Ok(found) => found.is_file(),
        Err(_) => false,
    }
}

fn take_file(rt: &HostRuntime, path: &[u8], found: &mut Found) -> Result<(), Fault>
    ensures { FindsMore found.old found.new }
{
    match read_name(rt.alloc(), path)? {
        Some(name) => found.names.push(name).map_err(|_| Fault::Memory),
        None => {
            found.odd = true;
            let text = text_of(rt.alloc(), path)?;
            tell(rt, "no name: ", text);
            Ok(())
        }
    }
}

/// Takes what stands at a path: a folder is left for later.
fn take_entry(
    rt: &HostRuntime,
    path: Bytes,
    kind: fs::FileType,
    folders: &mut Vec<Bytes>,
    found: &mut Found,
) -> Result<(), Fault>
    ensures { FindsMore found.old found.new }
{
    if kind.is_dir() {
        return folders.push(path).map_err(|_| Fault::Memory);
    }
    let is_file = kind.is_file()
        || (kind.is_symlink() && leads_to_file(rt, text_of(rt.alloc(), path.as_slice())?));
    if is_file {
        take_file(rt, path.as_slice(), found)?;
    }
    Ok(())
}

/// Takes what stands in a folder.
#[tactic(auto, using(crate::proofs::FoundLemmas::grows_none, crate::proofs::FoundLemmas::grows_then))]
fn take_folder(
    rt: &HostRuntime,
    folder: &Bytes,
    folders: &mut Vec<Bytes>,
    found: &mut Found,
) -> Result<(), Fault>
    ensures { FindsMore found.old found.new }
{
    let place = text_of(rt.alloc(), folder.as_slice())?;
    let entries = match fs::read_dir(rt, place) {
        Ok(entries) => entries,
        Err(error) => return Err(input_fault(rt.alloc(), place, &error)),
    };
    for entry in entries {
        let entry = match entry {
            Ok(entry) => entry,
            Err(error) => {
                if error.kind() == io::ErrorKind::InvalidFilename {
                    found.odd = true;
                    tell(rt, "a name that is no text", "");
                    continue;
                }
                return Err(input_fault(rt.alloc(), place, &error));
            }
        };
        let name = entry.file_name().as_bytes();
        if leads(name) {
            let mut path = folder.copy(rt.alloc())?;
            add_step(&mut path, name)?;
            let kind = match entry.file_type() {
                Ok(kind) => kind,
                Err(error) => return Err(input_fault(rt.alloc(), place, &error)),
            };
            take_entry(rt, path, kind, folders, found)?;
        }
    }
    Ok(())
}

/// Takes the files below a folder. Which they are is no clause, since the system doesn't tell what stands in a folder.
#[tactic(auto, using(crate::proofs::FoundLemmas::grows_none, crate::proofs::FoundLemmas::grows_then))]
pub fn take_below(rt: &HostRuntime, folder: Bytes, found: &mut Found) -> Result<(), Fault>
    ensures { FindsMore found.old found.new }
{
    let place = text_of(rt.alloc(), folder.as_slice())?;
    if !is_folder(rt, place) {
        found.missing = true;
        tell(rt, "no folder: ", place);
        return Ok(());
    }
    let mut folders = Vec::new(rt.alloc());
    folders.push(folder).map_err(|_| Fault::Memory)?;
    // Bounded, since the system doesn't say that a folder has an end: others may add to it meanwhile.
    for _ in 0..u64::MAX {
        let Some(next) = folders.pop() else {
            break;
        };
        take_folder(rt, &next, &mut folders, found)?;
    }
    Ok(())
}

fn is_folder(rt: &HostRuntime, path: &str) -> bool {
    match fs::metadata(rt, path) {
        Ok(found) => found.is_dir(),
        Err(_) => false,
    }
}
