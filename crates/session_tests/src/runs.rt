// Runs over objects in memory, for the tests.
ghost use Rattle.std.specs.Prelude.{◌≡◌, ◌<◌, []};

use object_values::{Bytes, Memory, Seq};
use odin_fakes::{MemDisk, TableTools};
use odin_outside::{Sink, Source, Spawner, Tree};
use odin_shell::run;
use std::alloc::Global;
use test_support::{CC_ONLY, owned, sink, source, tree_of};

/// How many tools may run at once, as words: a session has the same replies and the same starts at each.
pub const JOBS: [&str; 3] = ["1", "3", "64"];

/// Room on a disk for the longest text and some more, in bytes, and for the calls of each session here.
pub const DISK_BYTES: usize = 20_000_000;

pub const DISK_CALLS: usize = 4096;

/// A status, with a copy of what an output took.
pub fn with_taken(alloc: Global, status: u8, taken: &[u8]) -> Result<(u8, Vec<u8>), Memory> {
    Ok((status, taken.to_vec(alloc)?))
}

/// The status of a run over an empty disk.
pub fn status_over<I: Source, O: Sink, T: Tree, S: Spawner>(
    alloc: Global,
    words: &[String],
    input: &mut I,
    output: &mut O,
    tree: &mut T,
    tools: &mut S,
) -> Result<u8, Memory>
    requires { (S.told tools.old).running ≡ [] }
{
    let mut disk = MemDisk::new(alloc, Bytes::new(alloc), DISK_BYTES, DISK_CALLS)?;
    Ok(run(alloc, words, input, output, tree, &mut disk, tools))
}

/// The status of a run with these words over a tree that holds the graph `g0` alone, and the toy tools.
pub fn status_with<I: Source, O: Sink>(
    alloc: Global,
    words: &[&str],
    input: &mut I,
    output: &mut O,
) -> Result<u8, Memory> {
    let owned = owned(alloc, words)?;
    let mut tree = tree_of(alloc, &[(b"g0", CC_ONLY)])?;
    let mut tools = TableTools::toy(alloc, Seq::new(alloc));
    status_over(
        alloc,
        owned.as_slice(),
        input,
        output,
        &mut tree,
        &mut tools,
    )
}

/// The status and the output of a run over this tree and these tools, of which so many may run at once, read and written in such pieces.
pub fn outcome_over<T: Tree, S: Spawner>(
    alloc: Global,
    tree: &mut T,
    tools: &mut S,
    jobs: &str,
    text: &[u8],
    piece: usize,
) -> Result<(u8, Vec<u8>), Memory>
    requires piece { 0 < piece }
    requires idle { (S.told tools.old).running ≡ [] }
{
    let words = owned(alloc, &["odin", "--jobs", jobs, "g0"])?;
    let mut input = source(alloc, text, piece)?;
    let mut output = sink(alloc, 20_000, piece)?;
    let status = status_over(
        alloc,
        words.as_slice(),
        &mut input,
        &mut output,
        tree,
        tools,
    )?;
    with_taken(alloc, status, output.taken())
}
