// What stands at the paths that a build is to write, with links followed. What the system tells of them is no clause; which paths are taken is
// `project_folder::taken_by`'s.
use crate::faults::Fault;
use crate::found::input_fault;
use object_values::Memory;
use project_folder::leads_below;
use std::fs;

/// How many links are followed one after another, as the system follows them.
const LINKS: u32 = 40;

/// A place where a file may be written: its path with no link in it, and the part of it that is below the project's folder.
#[derive(Drop)]
pub(crate) struct Place {
    pub(crate) path: String,
    below: Option<usize>,
}

impl Place {
    /// The path below the project's folder, where the place is there.
    pub(crate) fn below(&self) -> Option<&[u8]> {
        let below = self.path.as_bytes().get(self.below?..)?;
        if leads_below(below) {
            Some(below)
        } else {
            None
        }
    }
}

/// The folder of a path, and the name there.
fn cut_last(path: &str) -> (&str, &str) {
    match path.rsplit_once('/') {
        Some(("", name)) => ("/", name),
        Some((folder, name)) => (folder, name),
        None => (".", path),
    }
}

/// Where a link leads to, where one stands at a path.
fn led_to(rt: &HostRuntime, path: &str) -> Result<Option<String>, Memory> {
    let Ok(target) = fs::read_link(rt, path) else {
        return Ok(None);
    };
    let (alloc, target) = (rt.alloc(), target.as_str());
    if target.starts_with('/') {
        return Ok(Some(String::from_str(alloc, target).map_err(|_| Memory)?));
    }
    let (folder, _) = cut_last(path);
    let path = format!(in alloc; "{folder}/{target}").map_err(|_| Memory)?;
    Ok(Some(path))
}

/// The path of which no link stands at its last step, where links lead to one.
fn last_path(rt: &HostRuntime, path: &str) -> Result<String, Memory> {
    let mut last = String::from_str(rt.alloc(), path).map_err(|_| Memory)?;
    for _ in 0..LINKS {
        match led_to(rt, last.as_str())? {
            Some(next) => last = next,
            None => break,
        }
    }
    Ok(last)
}

/// The path of a folder with no link in it, as far as it is there, and of the rest.
fn followed(rt: &HostRuntime, path: &str) -> Result<String, Memory> {
    let alloc = rt.alloc();
    let mut front = path;
    let mut rest = String::new(alloc);
    for _ in 0..path.len().saturating_add(1) {
        let (folder, name) = cut_last(front);
        rest = format!(in alloc; "/{name}{rest}").map_err(|_| Memory)?;
        if let Ok(found) = fs::canonicalize(rt, folder) {
            let found = found.as_str();
            if found != "/" {
                rest = format!(in alloc; "{found}{rest}").map_err(|_| Memory)?;
            }
            break;
        }
        front = folder;
    }
    Ok(rest)
}

/// The folder of the project, with a `/` at its end.
pub(crate) fn project_folder(rt: &HostRuntime) -> Result<String, Fault> {
    let alloc = rt.alloc();
    match fs::canonicalize(rt, ".") {
        Ok(folder) => {
            let folder = folder.as_str();
            let end = if folder == "/" { "" } else { "/" };
            Ok(format!(in alloc; "{folder}{end}")?)
        }
        Err(error) => Err(input_fault(alloc, ".", &error)),
    }
}

/// The place to which a path leads.
pub(crate) fn place_of(rt: &HostRuntime, folder: &str, path: &str) -> Result<Place, Memory> {
    let last = last_path(rt, path)?;
    let path = followed(rt, last.as_str())?;
    let below = if path.as_str().starts_with(folder) {
        Some(folder.len())
    } else {
        None
    };
    Ok(Place { path, below })
}

/// What stands at a place.
#[derive(Clone, Copy, PartialEq, Eq)]
pub(crate) enum Standing {
    /// A file, or nothing.
    File,
    Folder,
    /// A pipe or a device, which would be written as it is, and may never take it.
    Other,
}

/// What stands at a path, with links followed.
pub(crate) fn standing_at(rt: &HostRuntime, path: &str) -> Standing {
    match fs::metadata(rt, path) {
        Ok(found) if found.is_dir() => Standing::Folder,
        Ok(found) if !found.is_file() => Standing::Other,
        _ => Standing::File,
    }
}
