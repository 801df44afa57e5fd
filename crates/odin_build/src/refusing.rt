// Files that a build refuses to write, before anything is built.
use crate::faults::Fault;
use crate::noted::Wanted;
use crate::reading::refused;
use crate::screen::output_fault;
use crate::simple::GraphFile;
use crate::standing::{Place, Standing, place_of, project_folder, standing_at};
use crate::told::Line;
use build_files::causes::Cause;
use build_files::paths::tidy;
use object_values::{Bytes, Memory};
use project_file::project::{Project, Target};
use project_folder::{
    Extra, Taken, begins_as, double_among, named_alone, taken_by, tidy_outputs, tidy_patterns,
};
use std::alloc::Global;
use std::fs::OpenOptions;
use std::io::Read;
use std::{fs, str};

/// How many bytes of a file are looked at for what it is.
const FRONT: usize = 64;

/// What a build doesn't write: the graph, the sources, and the files of targets.
#[derive(Clone, Copy)]
pub(crate) struct Held<'a> {
    pub(crate) graph: &'a [u8],
    pub(crate) sources: &'a [Bytes],
    pub(crate) outputs: &'a [Bytes],
}

impl Held<'_> {
    fn taken(&self, path: &[u8]) -> Option<Taken> {
        taken_by(self.graph, self.sources, self.outputs, path)
    }
}

// ---- lines

fn words_of(taken: Taken) -> &'static str {
    match taken {
        Taken::Reserved => "a project has that for the build itself",
        Taken::Graph => "the graph stands there",
        Taken::Source => "a source stands there",
        Taken::Target => "a target's file stands there",
    }
}

/// The line of a path that isn't written, and of the place to which its links lead, where that is another one.
fn taken_line(
    alloc: Global,
    writer: Line,
    path: &[u8],
    leads_to: Option<&[u8]>,
    why: &str,
) -> Result<Bytes, Memory> {
    let mut line = writer.text(" can't write ")?.shown(path)?;
    if let Some(place) = leads_to {
        line = line.text(", which leads to ")?.shown(place)?;
    }
    line.text(": ")?.text(why)?.end()
}

fn target_writer(alloc: Global, target: &Target) -> Result<Line, Memory> {
    Line::new(alloc)?
        .text("target ")?
        .shown(target.name.as_slice())
}

// ---- the files of targets, by their paths

fn shared_line(alloc: Global, path: &[u8]) -> Result<Bytes, Memory> {
    Line::new(alloc)?
        .text("odin.toml: two targets with one file: ")?
        .shown(path)?
        .end()
}

/// Refuses two targets with one file, of which only the later one would stand.
fn refuse_shared(alloc: Global, targets: &[Target]) -> Result<(), Fault> {
    let outputs = tidy_outputs(alloc, targets)?;
    match double_among(outputs.as_slice()) {
        Some(path) => Err(refused(shared_line(alloc, path.as_slice()))),
        None => Ok(()),
    }
}

/// Refuses a target whose file is, by its path alone, one that a build never writes.
fn refuse_taken(alloc: Global, project: &Project, graph: &[u8]) -> Result<(), Fault> {
    let patterns = tidy_patterns(alloc, project.sources.as_slice())?;
    let named = named_alone(alloc, patterns.as_slice())?;
    let outputs = tidy_outputs(alloc, project.targets.as_slice())?;
    let held = Held {
        graph,
        sources: named.as_slice(),
        outputs: &[],
    };
    for (target, path) in project.targets.as_slice().iter().zip(outputs.as_slice()) {
        if let Some(taken) = held.taken(path.as_slice()) {
            let writer = target_writer(alloc, target)?;
            let line = taken_line(alloc, writer, path.as_slice(), None, words_of(taken));
            return Err(refused(line));
        }
    }
    Ok(())
}

/// Refuses targets by the paths of their files.
pub(crate) fn refuse_outputs(alloc: Global, project: &Project, graph: &[u8]) -> Result<(), Fault> {
    refuse_shared(alloc, project.targets.as_slice())?;
    refuse_taken(alloc, project, graph)
}

// ---- the files of targets, by where they lead

fn text_of(path: &[u8]) -> &str {
    match str::from_utf8(path) {
        Ok(path) => path,
        Err(_) => "",
    }
}

/// Why a target's file isn't written at the place to which its path leads.
fn why_not(held: &Held<'_>, path: &[u8], place: &Place) -> Option<&'static str> {
    match place.below() {
        None => Some("that is outside of the project"),
        Some(below) if below == path => None,
        Some(below) => Some(words_of(held.taken(below)?)),
    }
}

fn refuse_target(
    rt: &HostRuntime,
    folder: &str,
    held: &Held<'_>,
    graph: &GraphFile<'_>,
    target: &Target,
    path: &[u8],
) -> Result<(), Fault> {
    let alloc = rt.alloc();
    let place = place_of(rt, folder, text_of(path))?;
    if let Some(why) = why_not(held, path, &place) {
        let at = place.below().unwrap_or(place.path.as_bytes());
        let writer = target_writer(alloc, target)?;
        return Err(refused(taken_line(alloc, writer, path, Some(at), why)));
    }
    let why = match standing_at(rt, place.path.as_str()) {
        Standing::Folder if graph.asks_for_file(rt, target.ask.as_slice()) => "a folder",
        Standing::Other => "neither a file nor a folder",
        _ => return Ok(()),
    };
    Err(Fault::Output(no_file(alloc, path, why)?))
}

/// What is told of what isn't written over.
fn no_file(alloc: Global, path: &[u8], why: &str) -> Result<Cause, Memory> {
    let place = String::from_str(alloc, text_of(path)).map_err(|_| Memory)?;
    let cause = String::from_str(alloc, why).map_err(|_| Memory)?;
    Ok(Cause { place, cause })
}

/// Refuses a target whose file would, through a link, be one that a build never writes, or in whose place there is what isn't written over.
pub(crate) fn refuse_targets(
    rt: &HostRuntime,
    targets: &[&Target],
    held: &Held<'_>,
    graph: &GraphFile<'_>,
) -> Result<(), Fault> {
    let alloc = rt.alloc();
    let folder = project_folder(rt)?;
    for target in targets {
        let path = tidy(alloc, target.file.as_slice())?;
        refuse_target(rt, folder.as_str(), held, graph, target, path.as_slice())?;
    }
    Ok(())
}

// ---- the trace and the page

fn word_of(extra: Extra) -> &'static str {
    match extra {
        Extra::Trace => "--trace",
        Extra::Page => "--page",
    }
}

fn other_words(extra: Extra) -> &'static str {
    match extra {
        Extra::Trace => "what stands there is no trace",
        Extra::Page => "what stands there is no page of a build",
    }
}

fn refuse_extra(alloc: Global, extra: Extra, path: &str, why: &str) -> Fault {
    let line = match Line::new(alloc).and_then(|line| line.text(word_of(extra))) {
        Ok(line) => taken_line(alloc, line, path.as_bytes(), None, why),
        Err(Memory) => Err(Memory),
    };
    refused(line)
}

/// The first bytes of a file.
fn front_of(rt: &HostRuntime, path: &str) -> std::io::Result<Vec<u8>> {
    let mut front = [0_u8; FRONT];
    let mut file = OpenOptions::new().read(true).open(rt, path)?;
    let count = file.read(&mut front)?;
    Ok(Vec::from_slice(rt.alloc(), &front[..count])?)
}

/// Whether what stands at a place may be written over by the trace or the page.
fn is_free(rt: &HostRuntime, extra: Extra, path: &str) -> Result<bool, Fault> {
    match fs::metadata(rt, path) {
        Ok(found) if found.is_file() => match front_of(rt, path) {
            Ok(front) => Ok(begins_as(extra, front.as_slice())),
            Err(error) => Err(output_fault(rt.alloc(), path, &error)),
        },
        Ok(_) => Ok(false),
        Err(_) => Ok(true),
    }
}

/// The place of the trace or of the page, where that may be written.
fn extra_place(
    rt: &HostRuntime,
    folder: &str,
    held: &Held<'_>,
    extra: Extra,
    path: &str,
) -> Result<Place, Fault> {
    let place = place_of(rt, folder, path)?;
    if let Some(taken) = place.below().and_then(|below| held.taken(below)) {
        return Err(refuse_extra(rt.alloc(), extra, path, words_of(taken)));
    }
    if !is_free(rt, extra, place.path.as_str())? {
        return Err(refuse_extra(rt.alloc(), extra, path, other_words(extra)));
    }
    Ok(place)
}

fn one_file_line(alloc: Global, path: &[u8]) -> Result<Bytes, Memory> {
    Line::new(alloc)?
        .text("--trace and --page name one file: ")?
        .shown(path)?
        .end()
}

/// Refuses a trace or a page in the place of a file that a build has, or of one that is no such file.
pub(crate) fn refuse_extras(
    rt: &HostRuntime,
    wanted: &Wanted,
    held: &Held<'_>,
) -> Result<(), Fault> {
    let folder = project_folder(rt)?;
    let trace = match &wanted.trace {
        Some(path) => Some(extra_place(rt, folder.as_str(), held, Extra::Trace, path.as_str())?),
        None => None,
    };
    let page = match &wanted.page {
        Some(path) => Some(extra_place(rt, folder.as_str(), held, Extra::Page, path.as_str())?),
        None => None,
    };
    if let (Some(trace), Some(page)) = (&trace, &page) {
        if trace.path == page.path {
            return Err(refused(one_file_line(rt.alloc(), page.path.as_bytes())));
        }
    }
    Ok(())
}
