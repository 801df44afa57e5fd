// Runs over the graph of units with the toy tools, in which a call of an object of the outside fails.
use object_values::{Bytes, Memory, Seq};
use odin_fakes::{FailDisk, FailSink, FailSource, FailTools, FailTree, MemDisk, TableTools};
use odin_outside::Disk;
use odin_shell::run;
use std::alloc::Global;
use test_support::{C_UNITS, only, owned, sink, source, tree_of};

/// An object of the outside.
#[derive(Clone, Copy, PartialEq, Eq)]
pub enum Object {
    Source,
    Sink,
    Tree,
    Disk,
    Tools,
}

/// A call of an object, by its number from 1. 0 is none.
#[derive(Clone, Copy)]
pub struct Call {
    pub object: Object,
    pub number: u32,
}

/// No call.
pub const NONE: Call = Call {
    object: Object::Source,
    number: 0,
};

impl Call {
    // The numbers of the calls of an object that fail where this one does.
    fn plan(self, alloc: Global, object: Object) -> Result<Seq<u32>, Memory> {
        if self.object == object {
            only(alloc, self.number)
        } else {
            Ok(Seq::new(alloc))
        }
    }
}

// How many bytes are read or written at once.
const PIECE: usize = 7;

/// The status and the output of a run, and how many tools were started.
#[derive(Drop)]
pub struct Ran {
    pub status: u8,
    pub output: Vec<u8>,
    pub starts: u64,
}

/// A file with these bytes as a disk, with room for what these sessions write.
pub fn disk_of(alloc: Global, image: &[u8]) -> Result<MemDisk, Memory> {
    MemDisk::new(alloc, Bytes::from_slice(alloc, image)?, 1 << 16, 1024)
}

/// A run over a disk with so many tools at once, in which a call of another object fails.
pub fn run_over<D: Disk>(
    alloc: Global,
    jobs: &str,
    call: Call,
    disk: &mut D,
    commands: &[u8],
) -> Result<Ran, Memory> {
    let words = owned(alloc, &["odin", "--jobs", jobs, "g0"])?;
    let input = source(alloc, commands, PIECE)?;
    let mut input = FailSource::new(input, call.plan(alloc, Object::Source)?);
    let output = sink(alloc, 20_000, PIECE)?;
    let mut output = FailSink::new(output, call.plan(alloc, Object::Sink)?);
    let tree = tree_of(alloc, &[(b"g0", C_UNITS)])?;
    let mut tree = FailTree::new(tree, call.plan(alloc, Object::Tree)?);
    let tools = TableTools::toy(alloc, only(alloc, 1)?);
    let mut tools = FailTools::new(tools, call.plan(alloc, Object::Tools)?);
    let status = run(
        alloc,
        words.as_slice(),
        &mut input,
        &mut output,
        &mut tree,
        disk,
        &mut tools,
    );
    Ok(Ran {
        status,
        output: output.inner().taken().to_vec(alloc)?,
        starts: tools.inner().starts(),
    })
}

/// A run over no file in which a call fails, and the file that it leaves.
pub fn run_failing(
    alloc: Global,
    jobs: &str,
    call: Call,
    commands: &[u8],
) -> Result<(Ran, Vec<u8>), Memory> {
    let mut disk = FailDisk::new(disk_of(alloc, b"")?, call.plan(alloc, Object::Disk)?);
    let ran = run_over(alloc, jobs, call, &mut disk, commands)?;
    Ok((ran, disk.inner().image().to_vec(alloc)?))
}
