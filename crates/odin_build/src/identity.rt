// What the tools of a kit are, as its own script tells it.
use crate::faults::Fault;
use crate::reading::refused;
use crate::told::Line;
use object_values::{Bytes, Copied, End, FileBody, Job, Memory, Seq, Text};
use odin_outside::{Spawner, StartFault};
use odin_real::{ChildTools, HostSystem, Work};
use std::alloc::Global;

/// The file that the script leaves.
const LEFT: &[u8] = b"out.tools";

fn texts(alloc: Global, all: &[&[u8]]) -> Result<Seq<Bytes>, Memory> {
    let mut texts = Seq::new(alloc);
    for text in all {
        texts.push(Bytes::from_slice(alloc, text)?)?;
    }
    Ok(texts)
}

/// The job of a script, which it finds as a file of its folder.
fn job_of(alloc: Global, script: &Text) -> Result<Job, Memory> {
    let words = texts(alloc, &[b"sh", b"i1"])?;
    let outs = texts(alloc, &[LEFT])?;
    let name = Bytes::from_slice(alloc, b"i1")?;
    let body = script.copy(alloc)?;
    let mut files = Seq::new(alloc);
    files.push(FileBody { name, body })?;
    Ok(Job { words, files, outs })
}

fn untold_line(alloc: Global, kit: &str) -> Result<Bytes, Memory> {
    Line::new(alloc)?
        .text("the tools of a kit can't be told: ")?
        .shown(kit.as_bytes())?
        .end()
}

/// What the job left, where it ended with 0.
fn left_by(files: Seq<FileBody>, end: End) -> Option<Text> {
    match (end, files.into_vec().pop()) {
        (End::Exit(0), Some(file)) => Some(file.body),
        _ => None,
    }
}

/// Runs the script of a kit that tells what its tools are, and gives what it left.
pub(crate) fn tell_tools(rt: &HostRuntime, kit: &str, script: &Text) -> Result<Text, Fault> {
    let alloc = rt.alloc();
    let job = job_of(alloc, script)?;
    let mut tools = ChildTools::within(alloc, HostSystem::new(rt), rt.stderr(), Work::Builds);
    let started = tools.start(alloc, &job);
    let left = if tools.running() > 0 {
        match tools.finish(alloc) {
            Ok((_, raw)) => left_by(raw.files, raw.end),
            Err(_) => None,
        }
    } else {
        None
    };
    tools.wait_rest(alloc);
    match (started, left) {
        (Err(StartFault::Memory), _) => Err(Fault::Memory),
        (_, Some(text)) => Ok(text),
        _ => Err(refused(untold_line(alloc, kit))),
    }
}
