// The call that runs a node's tool.
ghost use Rattle.std.specs.Prelude.{◌≡◌, ◌&&◌, ◌<◌, length, map, IfOk};
ghost use Rattle.std.specs.List.{list_all};
ghost use Rattle.meaning_texts.specs.Limits.{extra_bound};
ghost use Rattle.meaning_texts.specs.Lists.{is_empty};
ghost use Rattle.meaning_graph.specs.Grammar.{IsSpellable};
ghost use Rattle.meaning_tasks.specs.Nodes.{Fits};
ghost use Rattle.meaning_tasks.specs.Tasks.{extra_led, led_missing, tool_task};
ghost use Rattle.meaning_tasks.specs.Needs.{values_of};
ghost use Rattle.meaning_tasks.specs.Calls.{CallOf, all_valued, tool_call};
ghost use Rattle.path_planner.specs.Ends.{plans_of};
ghost use Rattle.task_needs.specs.Counting.{nodes_in};
ghost use Rattle.node_tasks.specs.Calling.{task_call_with};
ghost use Rattle.node_tasks.specs.Needed.{IsNeeded};

use crate::base::base_of;
use crate::needed::Needed;
use crate::outs::{outs_of, used_params};
use crate::task::tool_at;
use crate::tool::extras_of;
use object_values::{Call, CallPart, Copied, MakerDecl, Memory, Node, Seq, ToolDecl};
use odin_bytes::Name;
use path_planner::{PlannedGraph, Plans};
use std::alloc::Global;
use task_needs::{Counted, Led, Results, call_parts};
use type_graph::Graph;

/// The call of the node, and none where no tool is run: where an extra has no path, or where a
/// need but a reached source has no value. It is the call that runs once all needs have results.
pub fn call_for<R: Results>(
    alloc: Global,
    graph: &Graph,
    plans: &Plans,
    node: &Node,
    needed: &Needed,
    seen: &R,
) -> Result<Option<Call>, Memory>
    requires spellable { IsSpellable graph.now }
    requires made { plans.now ≡ plans_of graph.now }
    requires fits { Fits graph.now node.now }
    requires needed { IsNeeded graph.now node.now (R.results seen.now) needed.now }
    ensures { IfOk result (CallOf graph.now node.now (R.results seen.now)) }
{
    let planned = PlannedGraph::new(graph, plans);
    call_in(alloc, &planned, node, needed, seen)
}

/// The same in a graph with its plans.
pub fn call_in<R: Results>(
    alloc: Global,
    planned: &PlannedGraph<'_>,
    node: &Node,
    needed: &Needed,
    seen: &R,
) -> Result<Option<Call>, Memory>
    requires spellable { IsSpellable planned.now }
    requires fits { Fits planned.now node.now }
    requires needed { IsNeeded planned.now node.now (R.results seen.now) needed.now }
    ensures { IfOk result (CallOf planned.now node.now (R.results seen.now)) }
{
    let graph = planned.graph();
    let Some((maker, tool)) = tool_at(graph, node) else {
        return Ok(None);
    };
    let extras = extras_of(alloc, planned, node, tool)?;
    if !is_run(extras.as_slice(), &needed.counted, seen) {
        return Ok(None);
    }
    let call = tool_call(
        alloc,
        graph,
        node,
        maker,
        tool,
        extras.as_slice(),
        needed.names.as_slice(),
        seen,
    )?;
    Ok(Some(call))
}

// Whether the tool is run.
#[tactic(auto, using(crate::proofs::CallLemmas::all_there))]
fn is_run<R: Results>(extras: &[Led], counted: &Counted, seen: &R) -> bool
    ensures { let known = values_of (R.results seen.now) in
        let valued = all_valued known (nodes_in known counted.now) in
        result ≡ (is_empty (led_missing extras.now) && valued) }
{
    all_there(extras) && counted.all_valued(seen)
}

// Whether no extra lacks a path.
fn all_there(extras: &[Led]) -> bool
    ensures { result ≡ list_all (λ extra. is_empty extra.missing) extras.now }
{
    extras.iter().all(|extra| is_there(extra))
}

fn is_there(extra: &Led) -> bool
    ensures { result ≡ is_empty extra.now.missing }
{
    extra.missing().is_empty()
}

// The call of a tool that is run.
fn tool_call<R: Results>(
    alloc: Global,
    graph: &Graph,
    node: &Node,
    maker: &MakerDecl,
    tool: &ToolDecl,
    extras: &[Led],
    names: &[Name],
    seen: &R,
) -> Result<Call, Memory>
    requires few { length extras.now < extra_bound }
    requires led { extras.now ≡ map (extra_led graph.now node.now) tool.now.extras }
    ensures { let task = tool_task graph.now node.now maker.now tool.now in
        let known = values_of (R.results seen.now) in
        IfOk result (λ call. call ≡ tool_call graph.now task known names.now) }
{
    let base = base_of(alloc, node)?;
    let parts = call_parts(alloc, graph, &base, extras, names, seen)?;
    made_call(alloc, graph, node, maker, tool, parts)
}

// The call with these inputs.
fn made_call(
    alloc: Global,
    graph: &Graph,
    node: &Node,
    maker: &MakerDecl,
    tool: &ToolDecl,
    parts: Seq<CallPart>,
) -> Result<Call, Memory>
    ensures { let task = tool_task graph.now node.now maker.now tool.now in
        IfOk result (λ call. call ≡ task_call_with task parts) }
{
    Ok(Call {
        tool: maker.name.copy(alloc)?,
        version: tool.version.copy(alloc)?,
        words: tool.words.copy(alloc)?,
        params: used_params(alloc, node.params.as_slice(), tool.uses.as_slice())?,
        parts,
        outs: outs_of(alloc, graph, maker)?,
    })
}
