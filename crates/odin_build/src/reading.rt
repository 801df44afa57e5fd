// The project's folder, and its file.
use crate::faults::Fault;
use crate::found::input_fault;
use crate::told::Line;
use object_values::{Bytes, Memory};
use project_file::project::{Flaw, Problem, Project, Refused};
use project_file::reading::{FILE_LIMIT, NoProject, read_project};
use std::alloc::Global;
use std::env::Env;
use std::io::ErrorKind;
use std::os::unix::fs::MetadataExt;
use std::{fs, io};

/// The file of a project, in its folder.
pub(crate) const FILE: &str = "odin.toml";

/// How many folders are looked at for a project, from this one up.
const FOLDER_LIMIT: u32 = 4_096;

/// Whether the current folder is the root, which is its own parent.
fn is_root(rt: &HostRuntime) -> io::Result<bool> {
    let here = fs::metadata(rt, ".")?;
    let above = fs::metadata(rt, "..")?;
    Ok(here.dev() == above.dev() && here.ino() == above.ino())
}

/// Makes the folder above the current one, unless that is the root.
fn climb(rt: &HostRuntime) -> io::Result<bool> {
    if is_root(rt)? {
        return Ok(false);
    }
    rt.set_current_dir("..")?;
    Ok(true)
}

/// The fault of a line that refuses something.
pub(crate) fn refused(line: Result<Bytes, Memory>) -> Fault {
    match line {
        Ok(line) => Fault::Refused(line),
        Err(Memory) => Fault::Memory,
    }
}

fn no_project_line(alloc: Global) -> Result<Bytes, Memory> {
    Line::new(alloc)?
        .text("no odin.toml here or in a folder above")?
        .end()
}

/// Makes the current folder the project's: the given one, or else the next one up that has the file of a project.
pub(crate) fn enter_project(rt: &HostRuntime, folder: Option<&str>) -> Result<(), Fault> {
    if let Some(folder) = folder {
        return match rt.set_current_dir(folder) {
            Ok(()) => Ok(()),
            Err(error) => Err(input_fault(rt.alloc(), folder, &error)),
        };
    }
    for _ in 0..FOLDER_LIMIT {
        match fs::metadata(rt, FILE) {
            Ok(_) => return Ok(()),
            Err(error) => {
                if error.kind() != ErrorKind::NotFound {
                    return Err(input_fault(rt.alloc(), FILE, &error));
                }
            }
        }
        match climb(rt) {
            Ok(true) => {}
            Ok(false) => break,
            Err(error) => return Err(input_fault(rt.alloc(), "..", &error)),
        }
    }
    Err(refused(no_project_line(rt.alloc())))
}

// ---- the project

/// What is wrong, in words.
fn words_of(flaw: &Flaw) -> &'static str {
    match flaw {
        Flaw::Unknown => "no such key",
        Flaw::Missing => "missing",
        Flaw::NotTable => "no table",
        Flaw::NotText => "no text",
        Flaw::NotTexts => "no list of texts",
        Flaw::TooMany => "more than 1000",
        Flaw::LeadsOut(_) => "a path that leads out of the folder: ",
        Flaw::NoFile(_) => "no path of a file below the folder: ",
    }
}

/// Whether a project has no graph, and names no kit that has one.
fn is_bare(problem: &Problem) -> bool {
    match (problem.place.as_slice(), &problem.flaw) {
        ([key], Flaw::Missing) => key.as_slice() == b"graph".as_slice(),
        _ => false,
    }
}

/// The line of a problem: the keys that lead to it, and what is wrong there.
fn problem_line(alloc: Global, problem: &Problem) -> Result<Bytes, Memory> {
    let mut line = Line::new(alloc)?.text("odin.toml: ")?;
    if is_bare(problem) {
        return line.text("neither kits nor a graph")?.end();
    }
    for key in problem.place.as_slice() {
        line = line.shown(key.as_slice())?.text(": ")?;
    }
    line = line.text(words_of(&problem.flaw))?;
    match &problem.flaw {
        Flaw::LeadsOut(path) | Flaw::NoFile(path) => line.shown(path.as_slice())?.end(),
        Flaw::Unknown => line.hint_key(alloc, problem.place.as_slice())?.end(),
        _ => line.end(),
    }
}

fn too_long_line(alloc: Global) -> Result<Bytes, Memory> {
    Line::new(alloc)?
        .text("odin.toml: longer than 1048576 bytes")?
        .end()
}

/// The line of a text that is no document of TOML.
fn document_line(alloc: Global, error: &toml::de::Error) -> Result<Bytes, Memory> {
    let text = format!(in alloc; "{error}").map_err(|_| Memory)?;
    Line::new(alloc)?
        .text("odin.toml: ")?
        .shown(text.as_bytes())?
        .end()
}

fn no_file_line(alloc: Global) -> Result<Bytes, Memory> {
    Line::new(alloc)?.text("odin.toml isn't a file")?.end()
}

/// Refuses what a read might not come to the end of: a pipe, a device, and a file that is longer than a project's may be.
fn refuse_endless(rt: &HostRuntime) -> Result<(), Fault> {
    let Ok(found) = fs::metadata(rt, FILE) else {
        return Ok(());
    };
    if !found.is_file() {
        return Err(refused(no_file_line(rt.alloc())));
    }
    if found.len() > FILE_LIMIT as u64 {
        return Err(refused(too_long_line(rt.alloc())));
    }
    Ok(())
}

/// The text of the file of the project.
pub(crate) fn read_text(rt: &HostRuntime) -> Result<Vec<u8>, Fault> {
    refuse_endless(rt)?;
    match fs::read(rt, FILE) {
        Ok(text) => Ok(text),
        Err(error) => {
            if error.kind() == ErrorKind::NotFound {
                return Err(refused(no_project_line(rt.alloc())));
            }
            Err(input_fault(rt.alloc(), FILE, &error))
        }
    }
}

/// The project that a text tells.
pub(crate) fn project_in(alloc: Global, text: &[u8]) -> Result<Project, Fault> {
    match read_project(alloc, text) {
        Ok(project) => Ok(project),
        Err(NoProject::Memory) => Err(Fault::Memory),
        Err(NoProject::TooLong) => Err(refused(too_long_line(alloc))),
        Err(NoProject::NoDocument(error)) => Err(refused(document_line(alloc, &error))),
        Err(NoProject::Problem(problem)) => Err(refused(problem_line(alloc, &problem))),
    }
}

/// The fault of a document that tells no project.
pub(crate) fn problem_fault(alloc: Global, why: &Refused) -> Fault {
    match why {
        Refused::Memory => Fault::Memory,
        Refused::Problem(problem) => refused(problem_line(alloc, problem)),
    }
}
