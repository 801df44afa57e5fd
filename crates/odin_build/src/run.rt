// A run of the program.
ghost use Rattle.odin_engine.specs.Engaged.{IsLimit};

use crate::faults::{Fault, MEMORY};
use crate::found::input_fault;
use crate::kept::{STORE, open_store};
use crate::looks::Looks;
use crate::noted::{Ended, Wanted, write_noted};
use crate::options::words_fault;
use crate::reading::{enter_project, refused};
use crate::refusing::{Held, refuse_extras, refuse_targets};
use crate::replies::{fault_of, missing_line, tell_replies, work_lines, write_target};
use crate::screen::{Noted, Screen, has_colours, started_path};
use crate::simple::GraphFile;
use crate::state::make_state;
use crate::told::{Line, say};
use crate::whole::{Whole, read_whole};
use crate::why::Reasons;
use crate::written::WrittenFiles;
use build_files::causes::Cause;
use build_view::watched::Watched;
use clap::Error;
use clap::error::ErrorKind;
use object_values::{Bytes, FileBody, Memory, Reply, Seq};
use odin_bytes::Name;
use odin_engine::Engine;
use odin_outside::Tree;
use odin_real::{ChildTools, FileDisk, FolderTree, HostSystem, NamedFile, Work};
use odin_start::words_of;
use project_build::{Plan, build_project, status_of};
use project_file::project::{Project, Target};
use project_folder::words::{Asked, View, read_words};
use project_folder::{
    MOST_JOBS, NoSources, NoTarget, jobs_by, list_sources, targets_among, tidy_outputs,
};
use project_kits::tree::MadeTree;
use std::alloc::Global;
use std::io::Write;
use std::{fs, io};

/// How many builds there are at most, where files change while they run.
const PASSES: u32 = 3;

/// Shows help or the version.
fn show(rt: &HostRuntime, error: &Error) -> Result<u8, Fault> {
    if error.kind() == ErrorKind::OutOfMemory {
        return Err(Fault::Memory);
    }
    if error.use_stderr() {
        return Err(words_fault(rt.alloc(), error));
    }
    match error.print(rt) {
        Ok(()) => Ok(0),
        Err(error) => Err(match Cause::at(rt.alloc(), "standard output", &error) {
            Ok(cause) => Fault::Output(cause),
            Err(Memory) => Fault::Memory,
        }),
    }
}

/// How many tools run at once: as many as the words say, or one for each processor.
fn jobs_of(rt: &HostRuntime, asked: Option<u32>) -> u32
    ensures { IsLimit result }
{
    if let Some(jobs) = asked {
        return jobs.clamp(1, MOST_JOBS);
    }
    match fs::read(rt, "/proc/self/status") {
        Ok(status) => jobs_by(status.as_slice()),
        Err(_) => 1,
    }
}

/// The fault of a list of sources.
pub(crate) fn no_sources(alloc: Global, found: &[Bytes], fault: NoSources) -> Fault {
    match fault {
        NoSources::NoName(path) => refused(no_name_line(alloc, path.as_slice())),
        NoSources::Missing(path) => refused(missing_line(alloc, path.as_slice(), found)),
        NoSources::Memory => Fault::Memory,
    }
}

fn no_name_line(alloc: Global, path: &[u8]) -> Result<Bytes, Memory> {
    Line::new(alloc)?
        .text("no name of a source: ")?
        .shown(path)?
        .end()
}

fn no_target_line(alloc: Global, project: &Project, name: &[u8]) -> Result<Bytes, Memory> {
    let mut names = Vec::new(alloc);
    for target in project.targets.as_slice() {
        names.push(target.name.as_slice()).map_err(|_| Memory)?;
    }
    Line::new(alloc)?
        .text("no such target: ")?
        .shown(name)?
        .hint_among(alloc, name, names.as_slice())?
        .end()
}

fn no_target(alloc: Global, project: &Project, fault: NoTarget) -> Fault {
    match fault {
        NoTarget::Unknown(name) => refused(no_target_line(alloc, project, name.as_slice())),
        NoTarget::Memory => Fault::Memory,
    }
}

/// Writes a text to standard output.
fn print(rt: &HostRuntime, text: &[u8]) -> Result<(), Fault> {
    let mut out = io::writer(rt);
    match out.write_all(text).and_then(|()| out.flush()) {
        Ok(()) => Ok(()),
        Err(error) => Err(match Cause::at(rt.alloc(), "standard output", &error) {
            Ok(cause) => Fault::Output(cause),
            Err(Memory) => Fault::Memory,
        }),
    }
}

/// Only tells what would be asked.
fn tell_targets(rt: &HostRuntime, targets: &[&Target]) -> Result<u8, Fault> {
    let mut text = Bytes::new(rt.alloc());
    for target in targets {
        write_target(target, &mut text)?;
    }
    print(rt, text.as_slice())?;
    Ok(0)
}

/// Tells how many tools were run, and the size of the store beside its limit.
fn tell_work(rt: &HostRuntime, tools: u64) -> Result<(), Fault> {
    let size = match fs::metadata(rt, STORE) {
        Ok(found) => found.len(),
        Err(error) => return Err(input_fault(rt.alloc(), STORE, &error)),
    };
    let lines = work_lines(rt.alloc(), tools, size)?;
    say(rt, lines.as_slice());
    Ok(())
}

/// What is told of a build, and where.
#[derive(Drop)]
struct Telling<'a> {
    view: View<'a>,
    wanted: Wanted,
}

/// The tools of a build, of which a screen is told.
type Tools<'a> = Watched<ChildTools<HostSystem<&'a HostRuntime>>, Screen<'a>>;

/// Waits for the tools that still run, and clears what was shown of them. Gives how many were started, and what was noted.
fn end_tools(rt: &HostRuntime, tools: Tools<'_>) -> (u64, Result<Option<Noted>, Fault>) {
    let (mut tools, screen) = tools.into_parts();
    tools.wait_rest(rt.alloc());
    screen.clear();
    (screen.started(), screen.into_noted())
}

/// What is told while tools run. The earlier calls are read before the build opens the store, since one has it at a time.
fn screen_of<'a, T: Tree>(
    rt: &'a HostRuntime,
    graph: &[u8],
    tree: &mut T,
    telling: &Telling<'_>,
) -> Screen<'a> {
    let reasons = if telling.view.why {
        Some(Reasons::read(rt, graph, tree))
    } else {
        None
    };
    Screen::new(rt, telling.view.quiet, telling.wanted.notes(), reasons)
}

/// Tells of what was built, and gives the status.
fn tell_built(
    rt: &HostRuntime,
    project: &Project,
    targets: &[&Target],
    replies: &[Reply],
    telling: &Telling<'_>,
    tools: u64,
) -> Result<u8, Fault> {
    let status = status_of(replies);
    // What is refused may need tools that can't be told, or one that didn't start.
    if telling.view.why && tools == 0 && status < 2 {
        say(rt, b"odin-build: nothing to run\n");
    }
    let coloured = has_colours(rt, telling.view.colours);
    tell_replies(rt, project, targets, replies, coloured)?;
    if telling.view.verbose {
        tell_work(rt, tools)?;
    }
    Ok(status)
}

/// The store of a build that has ended, where a page is to show it.
fn store_to_show<T: Tree>(
    rt: &HostRuntime,
    graph: &[u8],
    tree: &mut T,
    telling: &Telling<'_>,
) -> Option<Engine> {
    if telling.wanted.page.is_none() {
        return None;
    }
    open_store(rt, graph, tree)
}

/// What came of a build: the replies, or why there are none; the store, where it is to be shown; how many tools were started, and what was noted of them.
#[derive(Drop)]
struct Outcome {
    built: Result<Seq<Reply>, Fault>,
    kept: Option<Engine>,
    started: u64,
    noted: Result<Option<Noted>, Fault>,
}

/// Builds targets over the files of the project's folder, its store and child programs. Those that a fault left running are waited for, so that none writes
/// after the program.
fn build_targets(
    rt: &HostRuntime,
    project: &Project,
    made: Seq<FileBody>,
    found: &[Bytes],
    plan: &Plan<'_>,
    telling: &Telling<'_>,
) -> Outcome
    requires { IsLimit plan.now.jobs }
{
    let alloc = rt.alloc();
    let mut tree = MadeTree::new(made, FolderTree::new(rt));
    let screen = screen_of(rt, plan.graph, &mut tree, telling);
    let mut disk = FileDisk::open(NamedFile::new(rt, STORE));
    let tools = ChildTools::within(alloc, HostSystem::new(rt), rt.stderr(), Work::Builds);
    let mut watched = Watched::new(tools, screen);
    let mut outputs = WrittenFiles::new(rt);
    let built = build_project(
        alloc,
        plan,
        &mut tree,
        &mut disk,
        &mut watched,
        &mut outputs,
    );
    let (started, noted) = end_tools(rt, watched);
    let built = match built {
        Ok(replies) => Ok(replies),
        Err(fault) => Err(fault_of(
            alloc,
            project,
            found,
            fault,
            disk.is_in_use(),
            outputs.into_cause(),
        )),
    };
    drop(disk);
    Outcome {
        built,
        kept: store_to_show(rt, plan.graph, &mut tree, telling),
        started,
        noted,
    }
}

/// What a build ends with: its status, or that files changed while it ran, after so many tools were started.
#[derive(Clone, Copy)]
enum Pass {
    Ended(u8),
    Changed(u64),
}

/// A project as it is built: what is found in its folder, how these files were, and how many tools earlier builds of this run started.
#[derive(Clone, Copy)]
struct Taken<'a> {
    project: &'a Project,
    found: &'a [Bytes],
    looks: &'a Looks,
    before: u64,
}

/// Builds targets, tells of them, and gives the status. Where files changed meanwhile nothing is told but that.
fn build<'a>(
    rt: &HostRuntime,
    taken: &Taken<'a>,
    made: Seq<FileBody>,
    plan: &Plan<'a>,
    telling: &Telling<'_>,
) -> Result<Pass, Fault>
    requires { IsLimit plan.now.jobs }
{
    make_state(rt)?;
    let project = taken.project;
    let Outcome {
        built,
        kept,
        started,
        noted,
    } = build_targets(rt, project, made, taken.found, plan, telling);
    let started = taken.before.saturating_add(started);
    if built.is_ok() && taken.looks.tell_changed(rt)? {
        return Ok(Pass::Changed(started));
    }
    let ended = Ended {
        project,
        targets: plan.targets,
        built: &built,
        kept: &kept,
        started,
    };
    let written = write_noted(rt, &telling.wanted, noted, &ended);
    let replies = built?;
    let status = tell_built(
        rt,
        project,
        plan.targets,
        replies.as_slice(),
        telling,
        started,
    )?;
    written?;
    Ok(Pass::Ended(status))
}

/// The paths of sources.
fn paths_of(alloc: Global, names: &[Name]) -> Result<Vec<Bytes>, Memory> {
    let mut paths = Vec::new(alloc);
    for name in names {
        let path = Bytes::from_slice(alloc, name.as_slice())?;
        paths.push(path).map_err(|_| Memory)?;
    }
    Ok(paths)
}

/// Refuses files that would be written over others, by where they lead.
fn refuse_written(
    rt: &HostRuntime,
    project: &Project,
    graph: &[u8],
    sources: &[Bytes],
    targets: &[&Target],
    made: &[FileBody],
    wanted: &Wanted,
) -> Result<(), Fault> {
    let text = GraphFile {
        made,
        name: project.graph.as_slice(),
    };
    let outputs = tidy_outputs(rt.alloc(), project.targets.as_slice())?;
    let held = Held {
        graph,
        sources,
        outputs: outputs.as_slice(),
    };
    refuse_targets(rt, targets, &held, &text)?;
    refuse_extras(rt, wanted, &held)
}

/// The targets that the words ask for.
fn asked_targets<'a>(
    alloc: Global,
    project: &'a Project,
    names: &[&str],
) -> Result<Vec<&'a Target>, Fault> {
    match targets_among(alloc, project, names) {
        Ok(targets) => Ok(targets),
        Err(fault) => Err(no_target(alloc, project, fault)),
    }
}

/// The sources of the project among the files that were found.
fn sources_among(alloc: Global, project: &Project, found: &[Bytes]) -> Result<Vec<Name>, Fault> {
    match list_sources(alloc, project, found) {
        Ok(sources) => Ok(sources),
        Err(fault) => Err(no_sources(alloc, found, fault)),
    }
}

/// Builds what the words ask for once, of the files as they stand now.
fn run_once(
    rt: &HostRuntime,
    asked: &Asked<'_>,
    telling: &Telling<'_>,
    before: u64,
) -> Result<Pass, Fault> {
    let alloc = rt.alloc();
    let Whole {
        project,
        made,
        found,
        passed,
        graph,
        mut looks,
    } = read_whole(rt, asked.tells)?;
    let targets = asked_targets(alloc, &project, asked.targets.as_slice())?;
    let sources = sources_among(alloc, &project, found.as_slice())?;
    passed.tell(rt, telling.view.verbose)?;
    let (targets, sources) = (targets.as_slice(), sources.as_slice());
    if asked.tells {
        return Ok(Pass::Ended(tell_targets(rt, targets)?));
    }
    let paths = paths_of(alloc, sources)?;
    let (graph, wanted) = (graph.as_slice(), &telling.wanted);
    refuse_written(
        rt,
        &project,
        graph,
        paths.as_slice(),
        targets,
        made.as_slice(),
        wanted,
    )?;
    looks.take_all(rt, paths.as_slice(), made.as_slice())?;
    let plan = Plan {
        graph: project.graph.as_slice(),
        sources,
        targets,
        jobs: jobs_of(rt, asked.jobs),
    };
    let taken = Taken {
        project: &project,
        found: found.as_slice(),
        looks: &looks,
        before,
    };
    build(rt, &taken, made, &plan, telling)
}

/// Does what the words ask for. Where files change while they are built the build takes them anew, a few times.
fn run_asked(rt: &HostRuntime, asked: &Asked<'_>) -> Result<u8, Fault> {
    let telling = Telling {
        view: asked.view,
        wanted: Wanted {
            trace: started_path(rt, asked.view.trace)?,
            page: started_path(rt, asked.view.page)?,
        },
    };
    enter_project(rt, asked.folder)?;
    let mut started = 0;
    for _ in 0..PASSES {
        match run_once(rt, asked, &telling, started)? {
            Pass::Ended(status) => return Ok(status),
            Pass::Changed(tools) => started = tools,
        }
    }
    Err(Fault::Changing)
}

/// The exit status of a run with the words of the program, where there is no fault.
fn run_words(rt: &HostRuntime) -> Result<u8, Fault> {
    let words = words_of(rt)?;
    match read_words(rt.alloc(), words.as_slice()) {
        Ok(Some(asked)) => run_asked(rt, &asked),
        Ok(None) => Err(Fault::Words),
        Err(error) => show(rt, &error),
    }
}

/// The exit status of a run with the words of the program. What a build of these files means is `project_build::build_project`'s clause; what stands in the
/// folder then is none here, since the system tells neither its words nor its files.
pub(crate) fn run(rt: &HostRuntime) -> u8 {
    match run_words(rt) {
        Ok(status) => status,
        Err(fault) => {
            match fault.line(rt.alloc()) {
                Ok(line) => say(rt, line.as_slice()),
                Err(Memory) => say(rt, MEMORY),
            }
            fault.status()
        }
    }
}
