// What was noted of a build, as the files that were asked for.
use crate::drawn::{drawing_of, empty_drawing};
use crate::faults::Fault;
use crate::quoted::quoted_rows;
use crate::replies::refusal_line;
use crate::screen::{Noted, output_fault};
use build_files::whole::write_whole;
use build_view::boxes::Drawing;
use build_view::pages::{Page, PageTarget, page_of};
use build_view::places::page_messages;
use build_view::traces::trace_text;
use object_values::{Bytes, Copied, Memory, Message, Reply, Seq, Status, Text};
use odin_engine::Engine;
use project_file::project::{Project, Target};
use std::alloc::Global;
use std::io::ErrorKind;

/// The files that are asked for beside those of the targets: the trace, and the page.
#[derive(Drop)]
pub(crate) struct Wanted {
    pub(crate) trace: Option<String>,
    pub(crate) page: Option<String>,
}

impl Wanted {
    /// Whether the runs of tools are to be noted.
    pub(crate) fn notes(&self) -> bool {
        self.trace.is_some() || self.page.is_some()
    }
}

/// A build that has ended: its targets with their replies or a fault, its store where that is to be shown and can be opened, and how many tools were started.
#[derive(Clone, Copy)]
pub(crate) struct Ended<'a> {
    pub(crate) project: &'a Project,
    pub(crate) targets: &'a [&'a Target],
    pub(crate) built: &'a Result<Seq<Reply>, Fault>,
    pub(crate) kept: &'a Option<Engine>,
    pub(crate) started: u64,
}

/// Writes a file whole.
fn write_file(rt: &HostRuntime, path: &str, body: &[u8]) -> Result<(), Fault> {
    match write_whole(rt, path, body) {
        Ok(()) => Ok(()),
        Err(error) => {
            if error.kind() == ErrorKind::OutOfMemory {
                return Err(Fault::Memory);
            }
            Err(output_fault(rt.alloc(), path, &error))
        }
    }
}

// ---- the page

/// The row of a target. One that has no object has no status.
fn target_row(alloc: Global, target: &Target, reply: Option<&Reply>) -> Result<PageTarget, Memory> {
    let (status, messages) = match reply {
        Some(
            Reply::Shown {
                status,
                messages,
                ..
            },
        ) => (Some(*status), messages.len() as u64),
        _ => (None, 0),
    };
    Ok(PageTarget {
        name: target.name.copy(alloc)?,
        file: target.file.copy(alloc)?,
        status,
        messages,
    })
}

fn target_rows(
    alloc: Global,
    targets: &[&Target],
    replies: &[Reply],
) -> Result<Seq<PageTarget>, Memory> {
    let mut rows = Seq::new(alloc);
    for (place, target) in targets.iter().enumerate() {
        rows.push(target_row(alloc, target, replies.get(place))?)?;
    }
    Ok(rows)
}

/// A line of the program's own, as a message that says why something wasn't built.
fn own_message(alloc: Global, mut line: Bytes) -> Result<Message, Memory> {
    line.truncate(line.len().saturating_sub(1));
    Ok(Message {
        label: Text::of(Bytes::new(alloc))?,
        level: Status::Error,
        text: Text::of(line)?,
    })
}

/// Adds the messages of a target's object, or why none is shown.
fn add_messages(
    rt: &HostRuntime,
    project: &Project,
    target: &Target,
    reply: &Reply,
    found: &mut Seq<Message>,
) -> Result<(), Memory> {
    let alloc = rt.alloc();
    let Reply::Shown { messages, .. } = reply else {
        let line = refusal_line(rt, project, target, reply)?;
        return found.push(own_message(alloc, line)?);
    };
    for message in messages.as_slice() {
        found.push(message.copy(alloc)?)?;
    }
    Ok(())
}

/// All messages of the build, or the one that says which fault ended it.
fn messages_of(rt: &HostRuntime, ended: &Ended<'_>) -> Result<Seq<Message>, Memory> {
    let alloc = rt.alloc();
    let mut found = Seq::new(alloc);
    match ended.built {
        Ok(replies) => {
            for (target, reply) in ended.targets.iter().zip(replies.as_slice()) {
                add_messages(rt, ended.project, target, reply, &mut found)?;
            }
        }
        Err(fault) => {
            let line = fault.line(alloc)?;
            found.push(own_message(alloc, line)?)?;
        }
    }
    Ok(found)
}

/// The objects of the build.
fn objects_of(alloc: Global, ended: &Ended<'_>) -> Result<Drawing, Memory> {
    match ended.kept {
        Some(engine) => drawing_of(alloc, engine, ended.targets),
        None => Ok(empty_drawing(alloc)),
    }
}

fn page_text(rt: &HostRuntime, noted: Noted, ended: &Ended<'_>) -> Result<Bytes, Memory> {
    let alloc = rt.alloc();
    let replies: &[Reply] = match ended.built {
        Ok(replies) => replies.as_slice(),
        Err(_) => &[],
    };
    let messages = messages_of(rt, ended)?;
    let page = Page {
        targets: target_rows(alloc, ended.targets, replies)?,
        objects: objects_of(alloc, ended)?,
        runs: noted.runs,
        messages: quoted_rows(rt, page_messages(alloc, messages.as_slice())?)?,
        started: ended.started,
        took: noted.took,
    };
    page_of(alloc, &page)
}

// ---- both

/// Writes the trace, where it is asked for.
fn write_trace(rt: &HostRuntime, path: Option<&str>, noted: &Noted) -> Result<(), Fault> {
    let Some(path) = path else {
        return Ok(());
    };
    let text = trace_text(rt.alloc(), noted.runs.as_slice())?;
    write_file(rt, path, text.as_bytes())
}

/// Writes the page, where it is asked for.
fn write_page(
    rt: &HostRuntime,
    path: Option<&str>,
    noted: Noted,
    ended: &Ended<'_>,
) -> Result<(), Fault> {
    let Some(path) = path else {
        return Ok(());
    };
    let text = page_text(rt, noted, ended)?;
    write_file(rt, path, text.as_slice())
}

/// Writes the files that were asked for. Where one can't be written the other is all the same.
pub(crate) fn write_noted(
    rt: &HostRuntime,
    wanted: &Wanted,
    noted: Result<Option<Noted>, Fault>,
    ended: &Ended<'_>,
) -> Result<(), Fault> {
    let Some(noted) = noted? else {
        return Ok(());
    };
    let traced = write_trace(rt, wanted.trace.as_deref(), &noted);
    let paged = write_page(rt, wanted.page.as_deref(), noted, ended);
    traced?;
    paged
}
