// Runs over one file with the toy tools, and steps of sessions with what they start.
ghost use Rattle.std.specs.Prelude.{◌≡◌, []};

use object_values::{Bytes, Job, Memory, Seq};
use odin_fakes::{MemDisk, TableTools};
use odin_outside::{Disk, Sink, Spawner, ToolEvent};
use odin_shell::run;
use std::alloc::Global;
use test_support::{graph_text, owned, sink, source, tree_of};

/// Bytes that stand in a table.
pub type Text = &'static [u8];

/// The pieces of a graph file.
pub type Graph = &'static [Text];

/// How many tools may run at once, as words: a session has the same replies and the same starts at each.
pub const JOBS: [&str; 3] = ["1", "3", "64"];

// Room on a disk for what these sessions write, in bytes and in calls.
const DISK_BYTES: usize = 1 << 16;

const DISK_CALLS: usize = 1024;

/// A file with these bytes as a disk.
pub fn disk_of(alloc: Global, image: &[u8]) -> Result<MemDisk, Memory> {
    MemDisk::new(
        alloc,
        Bytes::from_slice(alloc, image)?,
        DISK_BYTES,
        DISK_CALLS,
    )
}

/// What a stop within a call of a disk leaves. `Err` also where there was no such call.
pub fn crashed(alloc: Global, disk: &MemDisk, moment: usize, choice: u64) -> Result<Bytes, Memory> {
    if moment > disk.calls() || moment > DISK_CALLS {
        return Err(Memory);
    }
    disk.crash(alloc, moment as u32, choice)
}

/// How many jobs of each toy tool were started.
#[derive(Clone, Copy, PartialEq, Eq)]
pub struct Starts {
    pub scan: usize,
    pub cc: usize,
    pub ld: usize,
}

/// No job.
pub const NONE: Starts = Starts {
    scan: 0,
    cc: 0,
    ld: 0,
};

// Whether a job runs the program of this name.
fn is_of(job: &Job, program: &[u8]) -> bool {
    job.words
        .as_slice()
        .first()
        .is_some_and(|word| word.as_slice() == program)
}

// How many jobs of a program were started.
fn started(log: &[ToolEvent], program: &[u8]) -> usize {
    log.iter()
        .filter(|event| match event {
            ToolEvent::Began(_, job) => is_of(job, program),
            ToolEvent::Ended(_) | ToolEvent::Lost(_) => false,
        })
        .count()
}

impl Starts {
    /// Those of a log.
    pub fn of(log: &[ToolEvent]) -> Self {
        Starts {
            scan: started(log, b"scan"),
            cc: started(log, b"cc"),
            ld: started(log, b"ld"),
        }
    }

    /// These and others.
    pub fn and(self, other: Self) -> Self {
        Starts {
            scan: self.scan.saturating_add(other.scan),
            cc: self.cc.saturating_add(other.cc),
            ld: self.ld.saturating_add(other.ld),
        }
    }

    /// How many there are in all.
    pub fn count(self) -> usize {
        self.scan.saturating_add(self.cc).saturating_add(self.ld)
    }
}

/// Commands with their replies, and the jobs that are started for them.
pub struct Step {
    pub commands: Text,
    pub replies: Text,
    pub starts: Starts,
}

/// The commands of some steps.
pub fn commands_of(alloc: Global, steps: &[Step]) -> Result<Vec<u8>, Memory> {
    let mut text = Vec::new(alloc);
    for step in steps {
        text.extend_from_slice(step.commands)?;
    }
    Ok(text)
}

/// The replies of some steps.
pub fn replies_of(alloc: Global, steps: &[Step]) -> Result<Vec<u8>, Memory> {
    let mut text = Vec::new(alloc);
    for step in steps {
        text.extend_from_slice(step.replies)?;
    }
    Ok(text)
}

/// What is started for some steps.
pub fn starts_of(steps: &[Step]) -> Starts {
    let mut all = NONE;
    for step in steps {
        all = all.and(step.starts);
    }
    all
}

/// The first of some steps.
pub fn front(steps: &[Step], count: usize) -> &[Step] {
    &steps[..count.min(steps.len())]
}

/// The steps after the first ones.
pub fn behind(steps: &[Step], count: usize) -> &[Step] {
    &steps[count.min(steps.len())..]
}

/// The status of a run over a graph, with so many tools at once.
pub fn status_at<D: Disk, O: Sink, S: Spawner>(
    alloc: Global,
    jobs: &str,
    graph: &[&[u8]],
    disk: &mut D,
    commands: &[u8],
    output: &mut O,
    tools: &mut S,
) -> Result<u8, Memory>
    requires { (S.told tools.old).running ≡ [] }
{
    let words = owned(alloc, &["odin", "--jobs", jobs, "g0"])?;
    let text = graph_text(alloc, graph)?;
    let mut tree = tree_of(alloc, &[(b"g0", text.as_slice())])?;
    let mut input = source(alloc, commands, 5000)?;
    Ok(run(
        alloc,
        words.as_slice(),
        &mut input,
        output,
        &mut tree,
        disk,
        tools,
    ))
}

/// The same with one tool after another.
pub fn status_on<D: Disk, O: Sink, S: Spawner>(
    alloc: Global,
    graph: &[&[u8]],
    disk: &mut D,
    commands: &[u8],
    output: &mut O,
    tools: &mut S,
) -> Result<u8, Memory>
    requires { (S.told tools.old).running ≡ [] }
{
    status_at(alloc, "1", graph, disk, commands, output, tools)
}

/// The status and the output of a run, and what was started.
#[derive(Drop)]
pub struct Ran {
    pub status: u8,
    pub output: Vec<u8>,
    pub starts: Starts,
}

impl Ran {
    /// Whether the input was taken to its end, with these replies.
    pub fn replied(&self, replies: &[u8]) -> bool {
        self.status == 0 && self.output.as_slice() == replies
    }

    /// Whether that is so, and just these jobs were started.
    pub fn went(&self, replies: &[u8], starts: Starts) -> bool {
        self.replied(replies) && self.starts == starts
    }
}

/// A run over a graph and a disk, with so many tools at once.
pub fn run_at<D: Disk>(
    alloc: Global,
    jobs: &str,
    graph: &[&[u8]],
    disk: &mut D,
    commands: &[u8],
) -> Result<Ran, Memory> {
    let mut tools = TableTools::toy(alloc, Seq::new(alloc));
    let mut output = sink(alloc, 20_000, 5000)?;
    let status = status_at(alloc, jobs, graph, disk, commands, &mut output, &mut tools)?;
    Ok(Ran {
        status,
        output: output.taken().to_vec(alloc)?,
        starts: Starts::of(tools.log()),
    })
}

/// The same with one tool after another.
pub fn run_on<D: Disk>(
    alloc: Global,
    graph: &[&[u8]],
    disk: &mut D,
    commands: &[u8],
) -> Result<Ran, Memory> {
    run_at(alloc, "1", graph, disk, commands)
}
