// A project with what its kits make for it.
use crate::faults::Fault;
use crate::found::{Found, files_below};
use crate::kits::{Kits, read_kits};
use crate::looks::Looks;
use crate::made::{
    add_files, graph_file, kit_files, kit_patterns, named_line, tools_of, unit_lists,
};
use crate::passed::{Passed, Patterns, pass_over};
use crate::reading::{FILE, problem_fault, project_in, read_text, refused};
use crate::refusing::refuse_outputs;
use build_files::paths::tidy;
use object_values::{Bytes, Copied, FileBody, Memory, Seq};
use project_file::project::{Project, Target};
use project_file::reading::FILE_LIMIT;
use project_folder::{double_among, tidy_outputs, tidy_patterns};
use project_kits::plain::{GRAPH, all_targets, plain_project};
use project_kits::reading::{kits_of, read_wanted};
use project_kits::settings::first_unknown;
use project_kits::wanted::Wanted;
use std::alloc::Global;
use toml::Table;

/// A project, the files that are made for it, those that it has with them, those that are passed over, the path of its own graph, and how the files were
/// that are read for it.
#[derive(Drop)]
pub(crate) struct Whole {
    pub(crate) project: Project,
    pub(crate) made: Seq<FileBody>,
    pub(crate) found: Vec<Bytes>,
    pub(crate) passed: Passed,
    pub(crate) graph: Bytes,
    pub(crate) looks: Looks,
}

// ---- refusals

fn unknown_setting(alloc: Global, name: &[u8]) -> Fault {
    refused(named_line(alloc, "odin.toml: no such setting: ", name))
}

/// Refuses two targets of one name, of which only the first could be asked for.
fn refuse_doubles(alloc: Global, targets: &[Target]) -> Result<(), Fault> {
    let mut names = Vec::new(alloc);
    for target in targets {
        names
            .push(target.name.copy(alloc)?)
            .map_err(|_| Fault::Memory)?;
    }
    match double_among(names.as_slice()) {
        Some(name) => Err(refused(named_line(
            alloc,
            "odin.toml: two targets of one name: ",
            name.as_slice(),
        ))),
        None => Ok(()),
    }
}

// ---- the whole

/// The names of made files, as those of files that are found.
fn add_found(alloc: Global, made: &[FileBody], found: &mut Vec<Bytes>) -> Result<(), Fault> {
    for file in made {
        found
            .push(file.name.copy(alloc)?)
            .map_err(|_| Fault::Memory)?;
    }
    Ok(())
}

/// Parts from the files that were found those that only a pattern of a kit fits, and that no source may be.
fn without_passed(
    rt: &HostRuntime,
    wanted: &Wanted,
    kits: &[Bytes],
    targets: &[Target],
    found: Found,
) -> Result<(Vec<Bytes>, Passed), Fault> {
    let alloc = rt.alloc();
    let listed = plain_project(alloc, wanted, &[], &[])?;
    let own = tidy_patterns(alloc, listed.sources.as_slice())?;
    let kits = tidy_patterns(alloc, kits)?;
    let outputs = tidy_outputs(alloc, targets)?;
    let patterns = Patterns {
        own: own.as_slice(),
        kits: kits.as_slice(),
        outputs: outputs.as_slice(),
    };
    let Found { files, odd } = found;
    let mut passed = Vec::new(alloc);
    let kept = pass_over(rt, &patterns, files, &mut passed)?;
    Ok((
        kept,
        Passed {
            files: passed,
            folders: odd,
        },
    ))
}

/// The path of the project's own graph, where it has one.
fn own_path(alloc: Global, own: Option<&Bytes>) -> Result<Bytes, Memory> {
    match own {
        Some(path) => tidy(alloc, path.as_slice()),
        None => Bytes::from_slice(alloc, GRAPH),
    }
}

/// What a project with kits is made of: the files of its settings, its kits and its lists, the patterns of its kits, and what was found and passed over.
#[derive(Drop)]
struct Parts {
    files: Seq<FileBody>,
    patterns: Seq<Bytes>,
    found: Vec<Bytes>,
    passed: Passed,
}

fn parts_of(
    rt: &HostRuntime,
    kits: &[&str],
    wanted: &Wanted,
    read: Seq<FileBody>,
) -> Result<Parts, Fault> {
    let alloc = rt.alloc();
    if let Some(setting) = first_unknown(wanted.settings.as_slice(), read.as_slice()) {
        return Err(unknown_setting(alloc, setting.name.as_slice()));
    }
    let targets = all_targets(alloc, wanted)?;
    let targets = targets.as_slice();
    refuse_doubles(alloc, targets)?;
    let mut files = kit_files(alloc, wanted.settings.as_slice(), read)?;
    let patterns = kit_patterns(alloc, kits, files.as_slice())?;
    let (mut found, passed) = without_passed(
        rt,
        wanted,
        patterns.as_slice(),
        targets,
        files_below(rt)?,
    )?;
    let lists = unit_lists(alloc, wanted.units.as_slice(), targets, &mut found)?;
    add_files(lists, &mut files)?;
    Ok(Parts {
        files,
        patterns,
        found,
        passed,
    })
}

/// The files with what is told of the tools, which comes first: no file of the kit stands in its place.
fn with_tools(
    rt: &HostRuntime,
    kits: &[&str],
    files: Seq<FileBody>,
    tells: bool,
) -> Result<Seq<FileBody>, Fault> {
    let mut made = if tells {
        Seq::new(rt.alloc())
    } else {
        tools_of(rt, kits, files.as_slice())?
    };
    add_files(files, &mut made)?;
    Ok(made)
}

fn whole_with(
    rt: &HostRuntime,
    kits: &[&str],
    wanted: &Wanted,
    read: Kits,
    mut looks: Looks,
    tells: bool,
) -> Result<Whole, Fault> {
    let alloc = rt.alloc();
    let Kits { graphs, files } = read;
    let Parts {
        files,
        patterns,
        mut found,
        passed,
    } = parts_of(rt, kits, wanted, files)?;
    let own = own_path(alloc, wanted.graph.as_ref())?;
    let plain = plain_project(alloc, wanted, &[], files.as_slice())?;
    refuse_outputs(alloc, &plain, own.as_slice())?;
    let mut made = with_tools(rt, kits, files, tells)?;
    let project = plain_project(alloc, wanted, patterns.as_slice(), made.as_slice())?;
    add_found(alloc, made.as_slice(), &mut found)?;
    let (graph, graphs, names) = (wanted.graph.as_ref(), graphs.as_slice(), found.as_slice());
    made.push(graph_file(rt, graph, graphs, names, &mut looks)?)?;
    Ok(Whole {
        project,
        made,
        found,
        passed,
        graph: own,
        looks,
    })
}

/// The project of a document that names kits.
fn with_kits(
    rt: &HostRuntime,
    keys: &Table,
    kits: &[&str],
    looks: Looks,
    tells: bool,
) -> Result<Whole, Fault> {
    let wanted = match read_wanted(rt.alloc(), kits, keys) {
        Ok(wanted) => wanted,
        Err(why) => return Err(problem_fault(rt.alloc(), &why)),
    };
    let read = read_kits(rt, kits)?;
    whole_with(rt, kits, &wanted, read, looks, tells)
}

/// The document in a text. One that is none, or is too long, is refused by what reads a project without kits.
fn document_of(alloc: Global, text: &[u8]) -> Option<Table> {
    if text.len() > FILE_LIMIT {
        return None;
    }
    toml::table_from_slice(alloc, text).ok()
}

/// The project of a text that names no kit.
fn without_kits(rt: &HostRuntime, text: &[u8], mut looks: Looks) -> Result<Whole, Fault> {
    let alloc = rt.alloc();
    let project = project_in(alloc, text)?;
    looks.take(rt, project.graph.as_slice())?;
    let Found { files, odd } = files_below(rt)?;
    let graph = tidy(alloc, project.graph.as_slice())?;
    refuse_outputs(alloc, &project, graph.as_slice())?;
    Ok(Whole {
        project,
        made: Seq::new(alloc),
        found: files,
        passed: Passed {
            files: Vec::new(alloc),
            folders: odd,
        },
        graph,
        looks,
    })
}

/// The project of the current folder, in which no two targets have one file, and none has one that a build never writes. Where it is only told what would be
/// asked, no script of a kit is run.
pub(crate) fn read_whole(rt: &HostRuntime, tells: bool) -> Result<Whole, Fault> {
    let alloc = rt.alloc();
    let mut looks = Looks::new(alloc);
    looks.take(rt, FILE.as_bytes())?;
    let text = read_text(rt)?;
    if let Some(keys) = document_of(alloc, text.as_slice()) {
        let kits = match kits_of(alloc, keys.get("kits")) {
            Ok(kits) => kits,
            Err(why) => return Err(problem_fault(alloc, &why)),
        };
        if !kits.is_empty() {
            return with_kits(rt, &keys, kits.as_slice(), looks, tells);
        }
    }
    without_kits(rt, text.as_slice(), looks)
}
