// A build of a project.
ghost use Rattle.std.specs.Prelude.{◌≡◌, [], map, IfOk, IfErr};
ghost use Rattle.kept_derive.specs.Rests.{ComesToRest};
ghost use Rattle.kept_derive.specs.Runs.{at};
ghost use Rattle.odin_engine.specs.Engaged.{IsLimit};
ghost use Rattle.fresh_build.specs.Built.{MayBuild};
ghost use Rattle.project_build.specs.Built.{standing};
ghost use Rattle.project_build.specs.Projects as meaning;

use crate::fault::BuildFault;
use crate::graph::read_graph;
use crate::outputs::Outputs;
use crate::targets::build_targets;
use fresh_build::{read_listed, set_sources};
use object_values::{Bytes, Reply, Seq, Sources};
use odin_bytes::Name;
use odin_engine::Engine;
use odin_outside::{Disk, Spawner, Tree};
use project_file::project::Target;
use std::alloc::Global;
use type_graph::Graph;

/// What is to be built: the file of the graph, the files that are the sources, the targets, and how many tools may run at once.
#[derive(Clone, Copy)]
pub struct Plan<'a> {
    pub graph: &'a [u8],
    pub sources: &'a [Name],
    pub targets: &'a [&'a Target],
    pub jobs: u32,
}

/// The graph with its text, and the sources.
fn read_files<T: Tree>(
    alloc: Global,
    tree: &mut T,
    path: &[u8],
    names: &[Name],
) -> Result<(Bytes, Graph, Sources), BuildFault>
    ensures ok { IfOk result (λ read. meaning.AreRead (T.files tree.old)
        path.now names.now read.0 read.1 read.2.texts) }
    ensures err { IfErr result
        (meaning.IsReadFault (T.files tree.old) path.now names.now) }
    ensures kept { T.files tree.new ≡ T.files tree.old }
    ensures cause { meaning.ReadFaultIsCounted (T.faults tree.old) (T.faults tree.new) result }
{
    let (text, graph) = read_graph(alloc, tree, path)?;
    let wanted = read_listed(alloc, tree, names)?;
    Ok((text, graph, wanted))
}

/// Builds targets from exactly the wanted sources.
fn build_from<D: Disk, S: Spawner, O: Outputs>(
    alloc: Global,
    engine: &mut Engine,
    disk: &mut D,
    wanted: &Sources,
    targets: &[&Target],
    tools: &mut S,
    outputs: &mut O,
) -> Result<Seq<Reply>, BuildFault>
    requires { MayBuild engine.old.store (D.size_of disk.old) (S.told tools.old) wanted.now.texts }
    ensures ok { let old = at engine.old.store disk.old (S.told tools.old) in
        let new = at engine.new.store disk.new (S.told tools.new) in
        IfOk result (λ replies. meaning.IsBuiltFrom D.told engine.old.graph engine.old.jobs
        wanted.now.texts (map (λ t. t.now) targets.now) (standing old (O.files outputs.old))
        (standing new (O.files outputs.new)) replies) }
    ensures err { let old = at engine.old.store disk.old (S.told tools.old) in
        let new = at engine.new.store disk.new (S.told tools.new) in
        IfErr result (λ why. meaning.FailsFrom D.told engine.old.graph engine.old.jobs
        wanted.now.texts (map (λ t. t.now) targets.now) (standing old (O.files outputs.old))
        (standing new (O.files outputs.new)) why) }
    ensures rest { ComesToRest meaning.LeavesToolsRunning engine.old.jobs
        (S.told tools.old) (S.told tools.new) result }
    ensures cause { meaning.WorkFaultIsCounted (D.faults disk.old) (D.faults disk.new)
        (O.faults outputs.old) (O.faults outputs.new) result }
{
    set_sources(alloc, engine, disk, wanted)?;
    let replies = build_targets(alloc, engine, disk, targets, tools, outputs)?;
    Ok(replies)
}

/// Opens the store for the graph, and builds.
fn build_over<D: Disk, S: Spawner, O: Outputs>(
    alloc: Global,
    text: &[u8],
    graph: Graph,
    wanted: &Sources,
    plan: &Plan<'_>,
    disk: &mut D,
    tools: &mut S,
    outputs: &mut O,
) -> Result<Seq<Reply>, BuildFault>
    requires { meaning.MayBuildOver text.now graph plan.now.jobs
        wanted.now.texts (S.told tools.old) }
    ensures ok { IfOk result (meaning.IsBuiltOver D.told text.now graph plan.now.jobs
        wanted.now.texts (map (λ t. t.now) plan.now.targets.now)
        (meaning.scene disk.old (S.told tools.old) (O.files outputs.old))
        (meaning.scene disk.new (S.told tools.new) (O.files outputs.new))) }
    ensures err { IfErr result (meaning.FailsOver D.told text.now graph plan.now.jobs
        wanted.now.texts (map (λ t. t.now) plan.now.targets.now)
        (meaning.scene disk.old (S.told tools.old) (O.files outputs.old))
        (meaning.scene disk.new (S.told tools.new) (O.files outputs.new))) }
    ensures rest { ComesToRest meaning.LeavesToolsRunning plan.now.jobs
        (S.told tools.old) (S.told tools.new) result }
    ensures cause { meaning.WorkFaultIsCounted (D.faults disk.old) (D.faults disk.new)
        (O.faults outputs.old) (O.faults outputs.new) result }
{
    let mut engine = Engine::open(alloc, disk, graph, text, plan.jobs)?;
    build_from(
        alloc,
        &mut engine,
        disk,
        wanted,
        plan.targets,
        tools,
        outputs,
    )
}

/// Builds targets of a project from exactly the listed files: reads the graph and these files, makes the sources of the store just these, and asks for
/// one target after another; what shows no errors goes to the target's files. Gives the replies.
pub fn build_project<T: Tree, D: Disk, S: Spawner, O: Outputs>(
    alloc: Global,
    plan: &Plan<'_>,
    tree: &mut T,
    disk: &mut D,
    tools: &mut S,
    outputs: &mut O,
) -> Result<Seq<Reply>, BuildFault>
    requires limit { IsLimit plan.now.jobs }
    requires idle { (S.told tools.old).running ≡ [] }
    ensures ok { IfOk result (meaning.IsProjectBuilt D.told (T.files tree.old)
        plan.now.graph.now plan.now.sources.now plan.now.jobs
        (map (λ t. t.now) plan.now.targets.now)
        (meaning.scene disk.old (S.told tools.old) (O.files outputs.old))
        (meaning.scene disk.new (S.told tools.new) (O.files outputs.new))) }
    ensures err { IfErr result (meaning.IsProjectUnbuilt D.told (T.files tree.old)
        plan.now.graph.now plan.now.sources.now plan.now.jobs
        (map (λ t. t.now) plan.now.targets.now)
        (meaning.scene disk.old (S.told tools.old) (O.files outputs.old))
        (meaning.scene disk.new (S.told tools.new) (O.files outputs.new))) }
    ensures kept { T.files tree.new ≡ T.files tree.old }
    ensures rest { ComesToRest meaning.LeavesToolsRunning plan.now.jobs
        (S.told tools.old) (S.told tools.new) result }
    ensures cause { meaning.BuildFaultIsCounted
        (meaning.counts (T.faults tree.old) (D.faults disk.old) (O.faults outputs.old))
        (meaning.counts (T.faults tree.new) (D.faults disk.new) (O.faults outputs.new)) result }
{
    let (text, graph, wanted) = read_files(alloc, tree, plan.graph, plan.sources)?;
    build_over(
        alloc,
        text.as_slice(),
        graph,
        &wanted,
        plan,
        disk,
        tools,
        outputs,
    )
}
