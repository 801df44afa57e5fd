// What a person is told of a build.
use crate::faults::Fault;
use crate::hints::{Named, hint_in_graph};
use crate::reading::refused;
use crate::told::{Line, say};
use build_files::causes::Cause;
use build_files::messages::lines_of;
use build_view::colours::painted_messages;
use dg_reader::ReadFault;
use fresh_build::ListFault;
use object_values::{Bytes, GraphFault, Memory, Message, Reply};
use odin_commands::write_reply;
use odin_engine::StoreFault;
use project_build::{BuildFault, GraphRefused, TargetFault};
use project_file::project::{Project, Target};
use shown_texts::shown::write_shown;
use std::alloc::Global;
use std::io;

// ---- replies

/// The line of a reply that shows no object, with the name of the graph that may have been meant.
pub(crate) fn refusal_line(
    rt: &HostRuntime,
    project: &Project,
    target: &Target,
    reply: &Reply,
) -> Result<Bytes, Memory> {
    let alloc = rt.alloc();
    let mut text = Bytes::new(alloc);
    write_reply(reply, &mut text)?;
    let first = match text.as_slice().split(|byte| *byte == b'\n').next() {
        Some(first) => Bytes::from_slice(alloc, first)?,
        None => Bytes::new(alloc),
    };
    let line = Line::new(alloc)?
        .shown(target.name.as_slice())?
        .text(": ")?
        .shown(first.as_slice())?;
    match reply {
        Reply::RefusedType(name) => {
            hint_in_graph(rt, line, project, name.as_slice(), Named::Type)?.end()
        }
        Reply::RefusedParam(name) => {
            hint_in_graph(rt, line, project, name.as_slice(), Named::Param)?.end()
        }
        _ => line.end(),
    }
}

fn tell_messages(rt: &HostRuntime, messages: &[Message], coloured: bool) -> Result<(), Memory> {
    let lines = if coloured {
        painted_messages(rt.alloc(), messages)?
    } else {
        lines_of(rt.alloc(), messages, false)?
    };
    say(rt, lines.as_slice());
    Ok(())
}

/// Tells of each target that was built: the messages of its object, or why none is shown.
pub(crate) fn tell_replies(
    rt: &HostRuntime,
    project: &Project,
    targets: &[&Target],
    replies: &[Reply],
    coloured: bool,
) -> Result<(), Memory> {
    for (target, reply) in targets.iter().zip(replies) {
        match reply {
            Reply::Shown { messages, .. } => tell_messages(rt, messages.as_slice(), coloured)?,
            _ => {
                let line = refusal_line(rt, project, target, reply)?;
                say(rt, line.as_slice());
            }
        }
    }
    Ok(())
}

// ---- what else is told

/// The lines that tell how many tools were run, and the size of the store beside its limit.
pub(crate) fn work_lines(alloc: Global, tools: u64, size: u64) -> Result<Bytes, Memory> {
    let mut lines = Line::new(alloc)?.text("tools run: ")?.number(tools)?.end()?;
    let store = Line::new(alloc)?
        .text(".odin/odin.store: ")?
        .number(size)?
        .text(" of 1073741824 bytes")?
        .end()?;
    lines.extend_from_slice(store.as_slice())?;
    Ok(lines)
}

// ---- what would be asked

/// Adds the line of a target that would be asked for.
pub(crate) fn write_target(target: &Target, out: &mut Bytes) -> Result<(), Memory> {
    write_shown(target.name.as_slice(), out)?;
    out.extend_from_slice(b": ask ")?;
    write_shown(target.ask.as_slice(), out)?;
    out.extend_from_slice(b", to ")?;
    write_shown(target.file.as_slice(), out)?;
    out.push(b'\n')
}

// ---- faults

fn words_of(fault: GraphFault) -> &'static str {
    match fault {
        GraphFault::UnknownType => "unknown type",
        GraphFault::DoubleName => "double name",
        GraphFault::SupertypeLoop => "supertype loop",
        GraphFault::WrongKind => "wrong kind",
        GraphFault::TooMany => "too many",
        GraphFault::UnknownParam => "unknown param",
    }
}

/// The line of a graph that is refused, which begins with its place in the file.
fn graph_line(alloc: Global, project: &Project, fault: ReadFault) -> Result<Bytes, Memory> {
    let line = Line::new(alloc)?
        .shown(project.graph.as_slice())?
        .text(":")?;
    match fault {
        ReadFault::TooLong => line.text(" longer than 1048576 bytes")?.end(),
        ReadFault::Syntax(at, column) => line
            .number(u64::from(at))?
            .text(":")?
            .number(u64::from(column))?
            .text(": syntax")?
            .end(),
        ReadFault::Check(at, fault) => line
            .number(u64::from(at))?
            .text(": ")?
            .text(words_of(fault))?
            .end(),
        ReadFault::Memory => Err(Memory),
    }
}

/// The line of a file that isn't there, with the one of these that may have been meant.
pub(crate) fn missing_line(alloc: Global, name: &[u8], found: &[Bytes]) -> Result<Bytes, Memory> {
    let mut names = Vec::new(alloc);
    for path in found {
        names.push(path.as_slice()).map_err(|_| Memory)?;
    }
    Line::new(alloc)?
        .text("no such file: ")?
        .shown(name)?
        .hint_among(alloc, name, names.as_slice())?
        .end()
}

/// The fault of the files, which the tree doesn't tell.
fn tree_fault(alloc: Global) -> Fault {
    match Cause::at(
        alloc,
        "the files of the project",
        &io::Error::from(io::ErrorKind::Other),
    ) {
        Ok(cause) => Fault::Input(cause),
        Err(Memory) => Fault::Memory,
    }
}

fn graph_fault(alloc: Global, project: &Project, found: &[Bytes], fault: GraphRefused) -> Fault {
    match fault {
        GraphRefused::NoFile => refused(missing_line(alloc, project.graph.as_slice(), found)),
        GraphRefused::Text(fault) => refused(graph_line(alloc, project, fault)),
        GraphRefused::Tree => tree_fault(alloc),
        GraphRefused::Memory => Fault::Memory,
    }
}

fn list_fault(alloc: Global, found: &[Bytes], fault: ListFault) -> Fault {
    match fault {
        ListFault::Missing(name) => refused(missing_line(alloc, name.as_slice(), found)),
        ListFault::TooLong(name) => Fault::TooLong(name),
        ListFault::Tree => tree_fault(alloc),
        ListFault::Memory => Fault::Memory,
    }
}

/// The fault of the store, of which another build may have the file.
fn store_fault(fault: StoreFault, in_use: bool) -> Fault {
    match fault {
        StoreFault::Disk => { if in_use { Fault::InUse } else { Fault::Disk } }
        StoreFault::NotOurs(at) => Fault::NotOurs(at),
        StoreFault::Full(_, _) => Fault::Full,
        StoreFault::Memory => Fault::Memory,
    }
}

/// The file of the target of a name.
fn file_of<'a>(project: &'a Project, name: &'a [u8]) -> &'a [u8] {
    let targets = project.targets.as_slice();
    match targets.iter().find(|target| target.name.as_slice() == name) {
        Some(target) => target.file.as_slice(),
        None => name,
    }
}

/// The fault of a target's file.
fn output_fault(alloc: Global, path: &[u8], cause: Option<io::Error>) -> Fault {
    let error = match cause {
        Some(error) => error,
        None => io::Error::from(io::ErrorKind::Other),
    };
    let place = match std::str::from_utf8(path) {
        Ok(path) => path,
        Err(_) => "a file of a target",
    };
    match Cause::at(alloc, place, &error) {
        Ok(cause) => Fault::Output(cause),
        Err(Memory) => Fault::Memory,
    }
}

/// Why a project isn't built, as it is told.
pub(crate) fn fault_of(
    alloc: Global,
    project: &Project,
    found: &[Bytes],
    fault: BuildFault,
    in_use: bool,
    cause: Option<io::Error>,
) -> Fault {
    match fault {
        BuildFault::Graph(fault) => graph_fault(alloc, project, found, fault),
        BuildFault::Sources(fault) => list_fault(alloc, found, fault),
        BuildFault::Store(fault) => store_fault(fault, in_use),
        BuildFault::Target(TargetFault::Store(fault)) => store_fault(fault, in_use),
        BuildFault::Target(TargetFault::Output(name)) => {
            output_fault(alloc, file_of(project, name.as_slice()), cause)
        }
        BuildFault::Target(TargetFault::Memory) => Fault::Memory,
    }
}
