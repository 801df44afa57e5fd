// Derivation of a node from the sources, with nothing kept.
ghost use Rattle.std.specs.Prelude.{◌≡◌, ◌<◌, [], IfOk, IfErr};
ghost use Rattle.meaning_graph.specs.Grammar.{IsSpellable};
ghost use Rattle.meaning_tasks.specs.Nodes.{Fits};
ghost use Rattle.meaning_derive.specs.Given.{AreSources};
ghost use Rattle.path_planner.specs.Ends.{plans_of};
ghost use Rattle.plain_derive.specs.Logs.{HasDerived, HasGivenUp, ComeToRest};

use crate::running::run_wanted;
use derive_walk::{Found, NothingKept, Walker};
use job_runner::JobFault;
use object_values::{Copied, Node, Sources};
use odin_outside::{Spawner, Steps};
use path_planner::{PlannedGraph, Plans};
use std::alloc::Global;
use std::marker::Brand;
use std::sync::ledger::{Blank, Ledger};
use type_graph::Graph;

/// The view of the node, or the chain for which it is refused. Tools run one after another; after
/// `Spawn` none runs, and after `Memory` one may still run.
pub fn derive_plain<S: Spawner>(
    alloc: Global,
    graph: &Graph,
    plans: &Plans,
    sources: &Sources,
    node: &Node,
    tools: &mut S,
) -> Result<Found, JobFault>
    requires spellable { IsSpellable graph.now }
    requires made { plans.now ≡ plans_of graph.now }
    requires fits { Fits graph.now node.now }
    requires sources { AreSources sources.now.texts }
    requires idle { (S.told tools.old).running ≡ [] }
    ensures found { IfOk result (HasDerived graph.now sources.now.texts node.now
        (S.told tools.old) (S.told tools.new)) }
    ensures given_up { IfErr result (HasGivenUp graph.now sources.now.texts node.now
        (S.told tools.old) (S.told tools.new)) }
    ensures rest { ComeToRest (S.told tools.old) (S.told tools.new) result }
{
    let planned = PlannedGraph::new(graph, plans);
    derive_counted::<S, Brand>(alloc, &planned, sources, node, tools, Blank::new(1))
}

// The same with a counter of steps, which nobody reads.
fn derive_counted<S: Spawner, L: Ledger>(
    alloc: Global,
    planned: &PlannedGraph<'_>,
    sources: &Sources,
    node: &Node,
    tools: &mut S,
    blank: Blank,
) -> Result<Found, JobFault>
    requires blank { (blank.name ≡ L.name) × (blank.parts ≡ L.parts) × (0 < L.parts) }
    requires spellable { IsSpellable planned.now }
    requires fits { Fits planned.now node.now }
    requires sources { AreSources sources.now.texts }
    requires idle { (S.told tools.old).running ≡ [] }
    ensures found { IfOk result (HasDerived planned.now sources.now.texts node.now
        (S.told tools.old) (S.told tools.new)) }
    ensures given_up { IfErr result (HasGivenUp planned.now sources.now.texts node.now
        (S.told tools.old) (S.told tools.new)) }
{
    let mut steps: Steps<L> = Steps::new(blank);
    let mut walker = Walker::new(alloc, node.copy(alloc)?);
    planned.graph().checked();
    // Bounded, so that no proof of an end is owed: no derivation comes to so many turns, and one that did would say that memory is wanted.
    for _ in 0..u64::MAX {
        walker.advance(alloc, planned, sources, &NothingKept, &mut steps)?;
        if walker.result().is_some() {
            break;
        }
        run_wanted(alloc, &mut walker, tools)?;
    }
    match walker.into_result() {
        Some(found) => Ok(found),
        None => Err(JobFault::Memory),
    }
}
