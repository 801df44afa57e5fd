// The files that are made for a project with kits.
use crate::faults::Fault;
use crate::found::input_fault;
use crate::identity::tell_tools;
use crate::looks::Looks;
use crate::reading::refused;
use crate::replies::missing_line;
use crate::run::no_sources;
use crate::state::make_state;
use crate::told::Line;
use object_values::{Bytes, Copied, FileBody, Memory, Seq, Text};
use project_file::project::Target;
use project_folder::tidy_outputs;
use project_kits::joined::joined;
use project_kits::lists::{first_taken, list_files, list_name};
use project_kits::plain::{GRAPH, lines_of};
use project_kits::settings::kit_name;
use project_kits::tree::made_of;
use project_kits::wanted::Units;
use std::alloc::Global;
use std::io::ErrorKind;
use std::{fs, str};

/// The line of a refusal that names something.
pub(crate) fn named_line(alloc: Global, words: &str, name: &[u8]) -> Result<Bytes, Memory> {
    Line::new(alloc)?.text(words)?.shown(name)?.end()
}

// ---- the graph

/// The text of the project's own graph.
fn own_graph(rt: &HostRuntime, path: &[u8], found: &[Bytes]) -> Result<Bytes, Fault> {
    let Ok(place) = str::from_utf8(path) else {
        return Err(refused(missing_line(rt.alloc(), path, found)));
    };
    match fs::read(rt, place) {
        Ok(text) => Ok(Bytes::from_vec(text)),
        Err(error) => {
            if error.kind() == ErrorKind::NotFound {
                return Err(refused(missing_line(rt.alloc(), path, found)));
            }
            Err(input_fault(rt.alloc(), place, &error))
        }
    }
}

/// The graph of the project: its own declarations come first, so that a line of the whole is the same line of its own file.
pub(crate) fn graph_file(
    rt: &HostRuntime,
    own: Option<&Bytes>,
    graphs: &[Bytes],
    found: &[Bytes],
    looks: &mut Looks,
) -> Result<FileBody, Fault> {
    let alloc = rt.alloc();
    let mut texts = Seq::new(alloc);
    if let Some(path) = own {
        looks.take(rt, path.as_slice())?;
        texts.push(own_graph(rt, path.as_slice(), found)?)?;
    }
    for graph in graphs {
        texts.push(graph.copy(alloc)?)?;
    }
    let name = Bytes::from_slice(alloc, GRAPH)?;
    let body = Text::of(joined(alloc, texts.as_slice())?)?;
    Ok(FileBody { name, body })
}

// ---- the files of kits

/// What the tools of each kit are, where it has a script that tells that.
pub(crate) fn tools_of(
    rt: &HostRuntime,
    kits: &[&str],
    files: &[FileBody],
) -> Result<Seq<FileBody>, Fault> {
    let alloc = rt.alloc();
    let mut told = Seq::new(alloc);
    for kit in kits {
        let script = kit_name(alloc, kit.as_bytes(), b"tools.sh")?;
        if let Some(file) = made_of(files, script.as_slice()) {
            make_state(rt)?;
            let name = kit_name(alloc, kit.as_bytes(), b"tools")?;
            let body = tell_tools(rt, kit, &file.body)?;
            told.push(FileBody { name, body })?;
        }
    }
    Ok(told)
}

/// The patterns of the sources that come with the kits.
pub(crate) fn kit_patterns(
    alloc: Global,
    kits: &[&str],
    made: &[FileBody],
) -> Result<Seq<Bytes>, Memory> {
    let mut patterns = Seq::new(alloc);
    for kit in kits {
        let name = kit_name(alloc, kit.as_bytes(), b"sources")?;
        if let Some(file) = made_of(made, name.as_slice()) {
            for line in lines_of(alloc, file.body.as_slice())?.into_vec() {
                patterns.push(line)?;
            }
        }
    }
    Ok(patterns)
}

/// Adds files after others.
pub(crate) fn add_files(files: Seq<FileBody>, made: &mut Seq<FileBody>) -> Result<(), Memory> {
    for file in files.into_vec() {
        made.push(file)?;
    }
    Ok(())
}

/// The files of the settings, and then those of the kits, of which one that a setting names doesn't count.
pub(crate) fn kit_files(
    alloc: Global,
    settings: &[FileBody],
    files: Seq<FileBody>,
) -> Result<Seq<FileBody>, Memory> {
    let mut settled = Seq::new(alloc);
    for setting in settings {
        settled.push(setting.copy(alloc)?)?;
    }
    add_files(files, &mut settled)?;
    Ok(settled)
}

// ---- the lists of units

fn taken_name(alloc: Global, name: &[u8]) -> Fault {
    refused(named_line(alloc, "a list of units has the name of a file: ", name))
}

/// The names of the lists of units.
fn add_list_names(alloc: Global, units: &[Units], found: &mut Vec<Bytes>) -> Result<(), Fault> {
    for each in units {
        let name = list_name(alloc, each)?;
        found.push(name).map_err(|_| Fault::Memory)?;
    }
    Ok(())
}

/// The lists of units. A list may name another, so their names are among those of the files that were found.
pub(crate) fn unit_lists(
    alloc: Global,
    units: &[Units],
    targets: &[Target],
    found: &mut Vec<Bytes>,
) -> Result<Seq<FileBody>, Fault> {
    let were_found = found.len();
    add_list_names(alloc, units, found)?;
    let outputs = tidy_outputs(alloc, targets)?;
    let lists = match list_files(alloc, units, outputs.as_slice(), found.as_slice()) {
        Ok(lists) => lists,
        Err(why) => return Err(no_sources(alloc, found.as_slice(), why)),
    };
    found.truncate(were_found);
    if let Some(list) = first_taken(lists.as_slice(), found.as_slice()) {
        return Err(taken_name(alloc, list.name.as_slice()));
    }
    Ok(lists)
}
