// Files that are passed over, since no source has such a name, or is that long, and nobody asked for them by name.
use crate::faults::Fault;
use crate::told::{Line, say};
use object_values::{Bytes, Copied, Memory};
use odin_bytes::read_name;
use project_folder::is_unasked;
use std::alloc::Global;
use std::{fs, str};

/// How long a source is at most.
const LONGEST: u64 = 16_777_216;

/// The files that are passed over, and the folders of those whose names can't be told.
#[derive(Drop)]
pub(crate) struct Passed {
    pub(crate) files: Vec<Bytes>,
    pub(crate) folders: Vec<Bytes>,
}

/// Which files the project itself lists, which its kits do, and which its targets write: patterns and paths that are tidy.
#[derive(Clone, Copy)]
pub(crate) struct Patterns<'a> {
    pub(crate) own: &'a [Bytes],
    pub(crate) kits: &'a [Bytes],
    pub(crate) outputs: &'a [Bytes],
}

fn is_too_long(rt: &HostRuntime, path: &[u8]) -> bool {
    let Ok(path) = str::from_utf8(path) else {
        return false;
    };
    match fs::metadata(rt, path) {
        Ok(found) => found.len() > LONGEST,
        Err(_) => false,
    }
}

fn is_passed(rt: &HostRuntime, patterns: &Patterns<'_>, path: &[u8]) -> Result<bool, Memory> {
    let alloc = rt.alloc();
    // Patterns are asked last, since they take the longest.
    if read_name(alloc, path)?.is_some() && !is_too_long(rt, path) {
        return Ok(false);
    }
    is_unasked(alloc, patterns.own, patterns.kits, patterns.outputs, path)
}

/// Parts the files that were found into those that stay and those that are passed over.
pub(crate) fn pass_over(
    rt: &HostRuntime,
    patterns: &Patterns<'_>,
    found: Vec<Bytes>,
    passed: &mut Vec<Bytes>,
) -> Result<Vec<Bytes>, Fault> {
    let mut kept = Vec::new(rt.alloc());
    for path in found {
        let into = if is_passed(rt, patterns, path.as_slice())? {
            &mut *passed
        } else {
            &mut kept
        };
        into.push(path).map_err(|_| Fault::Memory)?;
    }
    Ok(kept)
}

fn count_line(alloc: Global, count: u64) -> Result<Bytes, Memory> {
    Line::new(alloc)?
        .text("files passed over, since no source has such a name or size: ")?
        .number(count)?
        .end()
}

fn each_line(alloc: Global, words: &str, path: &[u8]) -> Result<Bytes, Memory> {
    Line::new(alloc)?.text(words)?.shown(path)?.end()
}

impl Passed {
    /// Tells how many files are passed over, where there are some, and where that is asked for which they are.
    pub(crate) fn tell(&self, rt: &HostRuntime, names: bool) -> Result<(), Memory> {
        let alloc = rt.alloc();
        let count = (self.files.len() as u64).saturating_add(self.folders.len() as u64);
        if count == 0 {
            return Ok(());
        }
        say(rt, count_line(alloc, count)?.as_slice());
        if !names {
            return Ok(());
        }
        for path in &self.files {
            say(
                rt,
                each_line(alloc, "passed over: ", path.as_slice())?.as_slice(),
            );
        }
        for folder in &self.folders {
            let line = each_line(
                alloc,
                "passed over, a name that is no UTF-8 in: ./",
                folder.as_slice(),
            )?;
            say(rt, line.as_slice());
        }
        Ok(())
    }
}
