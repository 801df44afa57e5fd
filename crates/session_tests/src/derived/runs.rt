// Runs over objects in memory.
ghost use Rattle.std.specs.Prelude.{◌≡◌, []};

use crate::runs::{JOBS, status_over};
use object_values::{Memory, Seq};
use odin_fakes::TableTools;
use odin_outside::Spawner;
use std::alloc::Global;
use test_support::{graph_text, owned, sink, source, tree_of};

// Room for the longest output.
const ROOM: usize = 500_000;

/// Whether a run over the graph and these tools, of which so many may run at once, takes all of the input, and gives this output.
pub(super) fn gives<S: Spawner>(
    alloc: Global,
    graph: &[&[u8]],
    jobs: &str,
    input: &[u8],
    want: &[u8],
    tools: &mut S,
) -> Result<bool, Memory>
    requires { (S.told tools.old).running ≡ [] }
{
    let words = owned(alloc, &["odin", "--jobs", jobs, "g"])?;
    let text = graph_text(alloc, graph)?;
    let mut tree = tree_of(alloc, &[(b"g", text.as_slice())])?;
    let mut commands = source(alloc, input, 5000)?;
    let mut output = sink(alloc, ROOM, 5000)?;
    let status = status_over(
        alloc,
        words.as_slice(),
        &mut commands,
        &mut output,
        &mut tree,
        tools,
    )?;
    Ok(status == 0 && output.taken() == want)
}

// Whether a run with the toy tools gives this output, by so many starts, each with its end.
fn gives_at(
    alloc: Global,
    graph: &[&[u8]],
    jobs: &str,
    input: &[u8],
    want: &[u8],
    starts: usize,
) -> Result<bool, Memory> {
    let mut tools = TableTools::toy(alloc, Seq::new(alloc));
    let as_wanted = gives(alloc, graph, jobs, input, want, &mut tools)?;
    Ok(as_wanted && tools.log().len() / 2 == starts)
}

/// Whether runs with the toy tools do so, however many of them may run at once.
pub(super) fn gives_by(
    alloc: Global,
    graph: &[&[u8]],
    input: &[u8],
    want: &[u8],
    starts: usize,
) -> Result<bool, Memory> {
    for jobs in JOBS {
        if !gives_at(alloc, graph, jobs, input, want, starts)? {
            return Ok(false);
        }
    }
    Ok(true)
}
