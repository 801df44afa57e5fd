// The program: it makes the objects of the outside, runs a session over them, and says how that ended.
ghost use Rattle.std.specs.Prelude.{◌≡◌, [], map, string_bytes};
ghost use Rattle.odin_shell.specs.Objects.{views, outside};
ghost use Rattle.odin_start.specs.Served.{IsServed};

use crate::faults::{MEMORY, cause_of, fault_of};
use crate::store::store_of;
use crate::words::words_of;
use object_values::Memory;
use odin_outside::{Disk, Sink, Source, Spawner, Tree};
use odin_real::{
    ChildTools, ClosedStreams, FileDisk, FolderTree, HostSystem, InputSource, NamedFile,
    OutputSink, RawFile, System,
};
use odin_shell::run;
use std::alloc::Global;
use std::io::{self, Eprint};

// Says on standard error why a run ended early.
fn tell<R: Eprint>(rt: &R, status: u8, in_use: bool) {
    if let Some(cause) = cause_of(status, in_use) {
        let _ = rt.eprintln(cause);
    }
    if let Some(fault) = fault_of(status) {
        let _ = rt.eprintln(fault);
    }
}

/// Runs with these words over these objects, says why the run ended early, and then waits for the tools that it left running: so no tool writes after the
/// program, and who waits knows why. Gives the exit status.
pub fn serve<R: Eprint, I: Source, O: Sink, T: Tree, F: RawFile + Drop, S: System + Drop>(
    rt: &R,
    alloc: Global,
    words: &[String],
    input: &mut I,
    output: &mut O,
    tree: &mut T,
    disk: &mut FileDisk<F>,
    tools: &mut ChildTools<S>,
) -> u8
    requires { (⟦<ChildTools<S> as Spawner>⟧.told tools.old).running ≡ [] }
    ensures { let means = views I.Source O.Sink T.Tree ⟦<ChildTools<S> as Spawner>⟧
        ⟦<FileDisk<F> as Disk>⟧ in
        let before = outside input.old output.old tree.old tools.old disk.old in
        let now = outside input.new output.new tree.new tools.new disk.new in
        IsServed means (map string_bytes words.now) before now result }
{
    let status = run(alloc, words, input, output, tree, disk, tools);
    tell(rt, status, disk.is_in_use());
    tools.wait_rest(alloc);
    status
}

// Serves these words over the standard input and output, the files of the current folder, its store and child programs.
fn serve_words(rt: &HostRuntime, alloc: Global, words: &[String]) -> Result<u8, Memory> {
    let mut input = InputSource::new(rt.reader());
    let mut output = OutputSink::new(io::writer(rt));
    let mut tree = FolderTree::new(rt);
    let store = store_of(alloc, words)?.unwrap_or("");
    let mut disk = FileDisk::open(NamedFile::new(rt, store));
    let mut tools = ChildTools::new(alloc, HostSystem::new(rt), rt.stderr());
    Ok(serve(
        rt,
        alloc,
        words,
        &mut input,
        &mut output,
        &mut tree,
        &mut disk,
        &mut tools,
    ))
}

/// The exit status of the program. To be called before any other file is opened.
pub fn program(rt: &HostRuntime) -> u8 {
    let closed = ClosedStreams::hold(rt);
    let words = words_of(rt);
    let status = match words.and_then(|words| serve_words(rt, rt.alloc(), words.as_slice())) {
        Ok(status) => status,
        Err(Memory) => {
            tell(rt, MEMORY, false);
            MEMORY
        }
    };
    drop(closed);
    status
}
