// One build over objects in memory, and what comes of it.
use crate::outputs::Written;
use crate::targets::targets_of;
use dg_reader::ReadFault;
use fresh_build::{ListFault, StoreFault};
use object_values::{Bytes, Memory, Reply, Seq};
use odin_bytes::read_name;
use odin_commands::write_reply;
use odin_fakes::{FailTools, MemDisk, TableTools};
use odin_outside::{Disk, Tree};
use project_build::{BuildFault, GraphRefused, Plan, TargetFault, build_project, status_of};
use project_file::project::Target;
use std::alloc::Global;
use test_support::only;

pub(crate) type Text = &'static [u8];

/// A name with its bytes.
pub(crate) type File = (Text, Text);

/// Adds texts.
pub(crate) fn put(texts: &[&[u8]], out: &mut Bytes) -> Result<(), Memory> {
    for text in texts {
        out.extend_from_slice(text)?;
    }
    Ok(())
}

/// A disk in memory with this image, with room for small builds.
pub(crate) fn disk_of(alloc: Global, image: &[u8]) -> Result<MemDisk, Memory> {
    MemDisk::new(alloc, Bytes::from_slice(alloc, image)?, 20_000, 400)
}

fn put_replies(replies: &[Reply], out: &mut Bytes) -> Result<(), Memory> {
    for reply in replies {
        write_reply(reply, out)?;
    }
    let status = [b'0'.saturating_add(status_of(replies))];
    put(&[b"status ", &status, b"\n"], out)
}

// Why a project isn't built, and the name that is told.
fn words_of(why: &BuildFault) -> (Text, &[u8]) {
    match why {
        BuildFault::Graph(GraphRefused::NoFile) => (b"no graph", b""),
        BuildFault::Graph(GraphRefused::Text(ReadFault::Syntax(2, 1))) => (b"syntax at 2 1", b""),
        BuildFault::Graph(GraphRefused::Text(ReadFault::Check(1, _))) => (b"line 1", b""),
        BuildFault::Graph(GraphRefused::Tree) => (b"tree at the graph", b""),
        BuildFault::Sources(ListFault::Tree) => (b"tree at a source", b""),
        BuildFault::Sources(ListFault::Missing(name)) => (b"missing ", name.as_slice()),
        BuildFault::Sources(ListFault::TooLong(name)) => (b"too long ", name.as_slice()),
        BuildFault::Store(StoreFault::NotOurs(0)) => (b"no store", b""),
        BuildFault::Store(StoreFault::Disk) => (b"disk", b""),
        BuildFault::Target(TargetFault::Store(StoreFault::Disk)) => (b"disk", b""),
        BuildFault::Target(TargetFault::Output(name)) => (b"output ", name.as_slice()),
        _ => (b"another fault", b""),
    }
}

/// What is told and written of a build of targets from exactly these sources, where the call of the tools and the write of these numbers fail, counted
/// from 1; and how many of the toy tools were started.
pub(crate) fn build<T: Tree, D: Disk>(
    alloc: Global,
    tree: &mut T,
    sources: &[&[u8]],
    targets: &[&[u8]],
    disk: &mut D,
    fails: [u32; 2],
) -> Result<(Bytes, u64), Memory> {
    let mut names = Vec::new(alloc);
    for source in sources {
        names.push(read_name(alloc, source)?.ok_or(Memory)?)?;
    }
    let targets = targets_of(alloc, targets)?;
    let lent: Vec<&Target> = targets.as_slice().iter().collect(alloc)?;
    let plan = Plan {
        graph: b"odin.graph",
        sources: names.as_slice(),
        targets: lent.as_slice(),
        jobs: 3,
    };
    let [starts, writes] = fails;
    let toys = TableTools::toy(alloc, Seq::new(alloc));
    let mut tools = FailTools::new(toys, only(alloc, starts)?);
    let mut outputs = Written::new(alloc, writes);
    let mut told = Bytes::new(alloc);
    match build_project(alloc, &plan, tree, disk, &mut tools, &mut outputs) {
        Ok(replies) => put_replies(replies.as_slice(), &mut told)?,
        Err(why) => {
            let (words, name) = words_of(&why);
            put(&[words, name, b"\n"], &mut told)?;
        }
    }
    put(&[outputs.text.as_slice()], &mut told)?;
    Ok((told, tools.inner().starts()))
}
