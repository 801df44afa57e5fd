// The entry of the program: its words, its graph, its store, its session and its status.
ghost use Rattle.std.specs.Prelude.{◌≡◌, ◌≢◌, [], map, string_bytes};
ghost use Rattle.dg_reader.specs.Files.{IsRead};
ghost use Rattle.odin_engine.specs.Engaged.{IsLimit};
ghost use Rattle.odin_shell.specs.Objects.{sink_of, outside, views};
ghost use Rattle.odin_answers.specs.Edits.{TreeStays, tree_of};
ghost use Rattle.odin_shell.specs.Machine.{ToolsStay};
ghost use Rattle.odin_shell.specs.Run.{Closes, ClosesFor, LastLine, StoreEnds, Ended, RunEnds};

use crate::ending::Ending;
use crate::graph::{OpenFault, Opened, open_graph};
use crate::input::serve_input;
use crate::lines::{line_full, line_not_ours};
use crate::load::run_load;
use crate::write::write_whole;
use odin_engine::{Engine, StoreFault};
use odin_outside::{Disk, Sink, Source, Spawner, Tree};
use odin_store::laws::{compactions_keep, keeps_changes};
use odin_words::{Work, read_words};
use std::alloc::Global;
use type_graph::Graph;

const USAGE: &[u8] = b"usage: odin [--jobs N] GRAPH, or odin [--jobs N] --load N\n";

/// Writes a last line where an ending is due.
pub(crate) fn end_with<O: Sink>(output: &mut O, line: &[u8], due: Ending) -> Ending
    ensures { let sink = sink_of O.Sink in
        LastLine line.now due (sink output.old) (sink output.new) result }
{
    match write_whole(output, line) {
        Ok(()) => due,
        Err(_) => Ending::Output,
    }
}

/// Ends a session, by the last line of a file that is full.
pub(crate) fn close<O: Sink>(alloc: Global, output: &mut O, due: Ending) -> Ending
    ensures { let sink = sink_of O.Sink in
        Closes due (sink output.old) (sink output.new) result }
{
    match due {
        Ending::Full(at, size) => match line_full(alloc, at, size) {
            Ok(line) => end_with(output, line.as_slice(), due),
            Err(_) => Ending::Memory,
        },
        other => other,
    }
}

/// Ends a run whose store was not opened.
fn end_unopened<O: Sink>(alloc: Global, output: &mut O, fault: StoreFault) -> Ending
    ensures { let sink = sink_of O.Sink in
        ClosesFor fault (sink output.old) (sink output.new) result }
{
    match fault {
        StoreFault::Disk => Ending::Disk,
        StoreFault::NotOurs(at) => match line_not_ours(alloc, at) {
            Ok(line) => end_with(output, line.as_slice(), Ending::NotOurs(at)),
            Err(_) => Ending::Memory,
        },
        StoreFault::Full(at, size) => close(alloc, output, Ending::Full(at, size)),
        StoreFault::Memory => Ending::Memory,
    }
}

/// Opens the store, and serves the commands of the input over it, with at most so many tools at once.
fn serve_store<I: Source, O: Sink, T: Tree, S: Spawner, D: Disk>(
    alloc: Global,
    text: &[u8],
    graph: Graph,
    jobs: u32,
    input: &mut I,
    output: &mut O,
    tree: &mut T,
    tools: &mut S,
    disk: &mut D,
) -> Ending
    requires read { IsRead text.now graph }
    requires jobs { IsLimit jobs }
    requires idle { (S.told tools.old).running ≡ [] }
    ensures { let means = views I.Source O.Sink T.Tree S.Spawner D.Disk in
        let before = outside input.old output.old tree.old tools.old disk.old in
        let after = outside input.new output.new tree.new tools.new disk.new in
        StoreEnds means text.now graph jobs before after result }
{
    keeps_changes::<D>();
    compactions_keep::<D>();
    match Engine::open(alloc, disk, graph, text, jobs) {
        Ok(engine) => {
            let due = serve_input(alloc, engine, input, output, tree, tools, disk);
            close(alloc, output, due)
        }
        Err(fault) => end_unopened(alloc, output, fault),
    }
}

/// Reads the words. Where they ask for a load session it is served; else the graph is read, the store opened, and the commands of the input served.
fn run_words<I: Source, O: Sink, T: Tree, D: Disk, S: Spawner>(
    alloc: Global,
    words: &[String],
    input: &mut I,
    output: &mut O,
    tree: &mut T,
    disk: &mut D,
    tools: &mut S,
) -> Ending
    requires { (S.told tools.old).running ≡ [] }
    ensures { let means = views I.Source O.Sink T.Tree S.Spawner D.Disk in
        let before = outside input.old output.old tree.old tools.old disk.old in
        let after = outside input.new output.new tree.new tools.new disk.new in
        Ended means (map string_bytes words.now) before after result }
{
    let asked = match read_words(alloc, words) {
        Ok(Some(asked)) => asked,
        Ok(None) => return end_with(output, USAGE, Ending::Usage),
        Err(_) => return Ending::Memory,
    };
    let name = match asked.work {
        Work::Serve(name) => name,
        Work::Load(units) => return run_load(alloc, output, units),
    };
    match open_graph(alloc, tree, name.as_bytes()) {
        Ok(Opened::Ready(text, graph)) => {
            serve_store(
                alloc,
                text.as_slice(),
                graph,
                asked.jobs as u32,
                input,
                output,
                tree,
                tools,
                disk,
            )
        }
        Ok(Opened::Refused(line)) => end_with(output, line.as_slice(), Ending::BadGraph),
        Err(OpenFault::Tree) => Ending::Input,
        Err(OpenFault::Memory) => Ending::Memory,
    }
}

/// Runs the program: reads the words and the graph, opens the store, then serves the commands of the input, and gives the exit status. Where the words
/// ask for a load session it is served in place of the input, over a disk and tools of its own. docs/user/reference.md tells the commands, the
/// replies and the statuses.
pub fn run<I: Source, O: Sink, T: Tree, D: Disk, S: Spawner>(
    alloc: Global,
    words: &[String],
    input: &mut I,
    output: &mut O,
    tree: &mut T,
    disk: &mut D,
    tools: &mut S,
) -> u8
    requires { (S.told tools.old).running ≡ [] }

    // By the status: what was read and written, what the tools did, what the file has, and which count of faults rose.
    ensures ends { let means = views I.Source O.Sink T.Tree S.Spawner D.Disk in
        let before = outside input.old output.old tree.old tools.old disk.old in
        let after = outside input.new output.new tree.new tools.new disk.new in
        RunEnds means (map string_bytes words.now) before after result }

    // The tree keeps its files and the tools their answers, and no count falls. No tool runs on, but at the statuses that leave what runs: 3, 4
    // and 8, and 5 where the line of 8 could not be written.
    ensures tree { let told = tree_of T.Tree in
        TreeStays (told tree.old) (told tree.new) }
    ensures tools { ToolsStay (S.told tools.old) (S.told tools.new) }
    ensures idle { result ≢ 3 → result ≢ 4 → result ≢ 5 → result ≢ 8
        → (S.told tools.new).running ≡ [] }
{
    run_words(alloc, words, input, output, tree, disk, tools).status()
}
