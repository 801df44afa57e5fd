// The folders of kits, and their files.
use crate::faults::Fault;
use crate::found::input_fault;
use crate::reading::refused;
use crate::told::Line;
use object_values::{Bytes, FileBody, Memory, Seq, Text};
use odin_bytes::is_id;
use project_folder::double_among;
use project_kits::settings::kit_name;
use std::alloc::Global;
use std::env::{self, VarError};
use std::fs;
use std::io::ErrorKind;

/// The word of the environment that names a folder of kits.
const KITS: &str = "ODIN_KITS";

/// The folders of kits, from the program's own: beside it, where a system has them, and where the repository does.
const BESIDE: [&str; 3] = ["kits", "../share/odin/kits", "../../../kits"];

/// The file of a kit that has its graph.
const GRAPH: &str = "kit.graph";

/// The files of the kits of a project, and their graphs.
#[derive(Drop)]
pub(crate) struct Kits {
    pub(crate) graphs: Seq<Bytes>,
    pub(crate) files: Seq<FileBody>,
}

fn no_kit_line(alloc: Global, kit: &str) -> Result<Bytes, Memory> {
    Line::new(alloc)?
        .text("no such kit: ")?
        .shown(kit.as_bytes())?
        .end()
}

fn path_in(alloc: Global, folder: &str, name: &str) -> Result<String, Memory> {
    format!(in alloc; "{folder}/{name}").map_err(|_| Memory)
}

/// The folder of a kit among those of a folder, where it has the kit.
fn kit_in(rt: &HostRuntime, folder: &str, kit: &str) -> Result<Option<String>, Fault> {
    let path = path_in(rt.alloc(), folder, kit)?;
    let graph = path_in(rt.alloc(), path.as_str(), GRAPH)?;
    match fs::metadata(rt, graph.as_str()) {
        Ok(found) => Ok(if found.is_file() { Some(path) } else { None }),
        Err(error) => match error.kind() {
            ErrorKind::NotFound | ErrorKind::NotADirectory => Ok(None),
            _ => Err(input_fault(rt.alloc(), graph.as_str(), &error)),
        },
    }
}

/// The folder of kits that the environment names.
fn named_folder(rt: &HostRuntime) -> Result<Option<String>, Fault> {
    match env::var(rt, KITS) {
        Ok(folder) => Ok(Some(folder)),
        Err(VarError::OutOfMemory) => Err(Fault::Memory),
        Err(_) => Ok(None),
    }
}

/// The folder of the program.
fn own_folder(rt: &HostRuntime) -> Result<Option<String>, Fault> {
    let Ok(program) = env::current_exe(rt) else {
        return Ok(None);
    };
    match program.as_str().rsplit_once('/') {
        Some((folder, _)) => Ok(Some(String::from_str(rt.alloc(), folder)?)),
        None => Ok(None),
    }
}

/// The folder of a kit: the project's own kit comes first, then the one in the folder that the environment names, then the one that came with the program.
fn find_kit(rt: &HostRuntime, kit: &str) -> Result<String, Fault> {
    if let Some(path) = kit_in(rt, "kits", kit)? {
        return Ok(path);
    }
    if let Some(folder) = named_folder(rt)? {
        if let Some(path) = kit_in(rt, folder.as_str(), kit)? {
            return Ok(path);
        }
    }
    if let Some(own) = own_folder(rt)? {
        for beside in &BESIDE {
            let folder = path_in(rt.alloc(), own.as_str(), beside)?;
            if let Some(path) = kit_in(rt, folder.as_str(), kit)? {
                return Ok(path);
            }
        }
    }
    Err(refused(no_kit_line(rt.alloc(), kit)))
}

/// Whether a file in a kit's folder is for people, or is read by the program itself.
fn is_apart(name: &str) -> bool {
    name == GRAPH
        || name == "README.md"
        || name == "check"
        || name.starts_with('.')
        || name.ends_with('~')
}

fn read_at(rt: &HostRuntime, path: &str) -> Result<Bytes, Fault> {
    match fs::read(rt, path) {
        Ok(body) => Ok(Bytes::from_vec(body)),
        Err(error) => Err(input_fault(rt.alloc(), path, &error)),
    }
}

/// Takes the files in the folder of a kit.
fn take_files(
    rt: &HostRuntime,
    kit: &str,
    folder: &str,
    files: &mut Seq<FileBody>,
) -> Result<(), Fault> {
    let entries = match fs::read_dir(rt, folder) {
        Ok(entries) => entries,
        Err(error) => return Err(input_fault(rt.alloc(), folder, &error)),
    };
    for entry in entries {
        let entry = match entry {
            Ok(entry) => entry,
            Err(error) => return Err(input_fault(rt.alloc(), folder, &error)),
        };
        let file = entry.file_name();
        let path = path_in(rt.alloc(), folder, file)?;
        let is_file = match fs::metadata(rt, path.as_str()) {
            Ok(found) => found.is_file(),
            Err(_) => false,
        };
        if is_file && !is_apart(file) {
            let name = kit_name(rt.alloc(), kit.as_bytes(), file.as_bytes())?;
            let body = Text::of(read_at(rt, path.as_str())?)?;
            files.push(FileBody { name, body })?;
        }
    }
    Ok(())
}

fn double_line(alloc: Global, kit: &[u8]) -> Result<Bytes, Memory> {
    Line::new(alloc)?
        .text("odin.toml: kits: named twice: ")?
        .shown(kit)?
        .end()
}

/// Refuses a kit that is named twice, whose declarations would stand there twice.
fn refuse_double(alloc: Global, kits: &[&str]) -> Result<(), Fault> {
    let mut names = Vec::new(alloc);
    for kit in kits {
        names
            .push(Bytes::from_slice(alloc, kit.as_bytes())?)
            .map_err(|_| Fault::Memory)?;
    }
    match double_among(names.as_slice()) {
        Some(kit) => Err(refused(double_line(alloc, kit.as_slice()))),
        None => Ok(()),
    }
}

/// Reads the kits of a project.
pub(crate) fn read_kits(rt: &HostRuntime, kits: &[&str]) -> Result<Kits, Fault> {
    refuse_double(rt.alloc(), kits)?;
    let mut graphs = Seq::new(rt.alloc());
    let mut files = Seq::new(rt.alloc());
    for kit in kits {
        if !is_id(kit.as_bytes()) {
            return Err(refused(no_kit_line(rt.alloc(), kit)));
        }
        let folder = find_kit(rt, kit)?;
        let graph = path_in(rt.alloc(), folder.as_str(), GRAPH)?;
        graphs.push(read_at(rt, graph.as_str())?)?;
        take_files(rt, kit, folder.as_str(), &mut files)?;
    }
    Ok(Kits { graphs, files })
}
