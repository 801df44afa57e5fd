// What a node with steps itself gives, by its task.
ghost use Rattle.std.specs.Prelude.{◌≡◌, [], map, option_map, IfOk};
ghost use Rattle.meaning_graph.specs.Graphs.{kind_named};
ghost use Rattle.meaning_tasks.specs.Labels.{label_of as label_of_node};
ghost use Rattle.meaning_tasks.specs.Nodes.{Fits};
ghost use Rattle.meaning_tasks.specs.Tasks.{aborted, each_own, extra_led, is_compound, led_missing, read_own, task_of};
ghost use Rattle.meaning_tasks.specs.Needs.{values_of, where_valued};
ghost use Rattle.meaning_tasks.specs.Settle.{mapped_own, outcome_own, picked_own, stepped_own};

use crate::base::base_of;
use crate::each::each_own;
use crate::gathering::missing_of;
use crate::outcome::outcome_own;
use crate::outs::makes_compound;
use crate::own::Own;
use crate::pack::packed_own;
use crate::picking::picked_own;
use crate::reading::read_own;
use crate::task::{TaskAt, task_at};
use crate::tool::extras_of;
use object_values::{MakerDecl, Memory, Node, Outcome, Seq, ToolDecl};
use odin_nodes::label_of;
use path_planner::PlannedGraph;
use std::alloc::Global;
use task_needs::{Results, value_of};
use type_graph::Graph;

/// What the node itself gives, from what is known of its needs and from the outcome of its call.
pub(crate) fn stepped_own<R: Results>(
    alloc: Global,
    planned: &PlannedGraph<'_>,
    node: &Node,
    seen: &R,
    outcome: Option<&Outcome>,
) -> Result<Own, Memory>
    requires fits { Fits planned.now node.now }
    ensures { let given = option_map (λ o. o.now) outcome.entry in
        let label = label_of_node planned.now node.now in
        let known = values_of (R.results seen.now) in
        IfOk result (λ own. own ≡ stepped_own label (task_of planned.now node.now) known given) }
{
    let graph = planned.graph();
    let base = base_of(alloc, node)?;
    match task_at(graph, node) {
        TaskAt::Given => Ok(Own::aborted(Seq::new(alloc))),
        TaskAt::Picked(key) => picked_own(alloc, graph, node, &base, key, seen),
        TaskAt::Read(of) => read_from(alloc, planned, node, &base, of, seen),
        TaskAt::Each(of) => each_from(alloc, planned, node, &base, of, seen),
        TaskAt::Packed(parts) => packed_own(alloc, planned, node, parts, seen),
        TaskAt::Tooled(maker, tool) => match outcome {
            Some(outcome) => run_own(alloc, graph, node, maker, outcome),
            None => not_run(alloc, planned, node, &base, tool, seen),
        },
    }
}

// What is read from the base.
fn read_from<R: Results>(
    alloc: Global,
    planned: &PlannedGraph<'_>,
    node: &Node,
    base: &Node,
    of: &[u8],
    seen: &R,
) -> Result<Own, Memory>
    ensures { let known = values_of (R.results seen.now) base.now in
        let read = read_own planned.now node.now of.now in
        IfOk result (λ own. own ≡ mapped_own read known) }
{
    match value_of(seen, base) {
        Some(value) => read_own(alloc, planned, node, of, value),
        None => Ok(Own::aborted(Seq::new(alloc))),
    }
}

// The references of the base, led on.
fn each_from<R: Results>(
    alloc: Global,
    planned: &PlannedGraph<'_>,
    node: &Node,
    base: &Node,
    of: &[u8],
    seen: &R,
) -> Result<Own, Memory>
    ensures { let known = values_of (R.results seen.now) base.now in
        let each = each_own planned.now node.now of.now in
        IfOk result (λ own. own ≡ mapped_own each known) }
{
    match value_of(seen, base) {
        Some(value) => each_own(alloc, planned, node, of, value),
        None => Ok(Own::aborted(Seq::new(alloc))),
    }
}

// What came of the tool.
fn run_own(
    alloc: Global,
    graph: &Graph,
    node: &Node,
    maker: &MakerDecl,
    outcome: &Outcome,
) -> Result<Own, Memory>
    ensures { let label = label_of_node graph.now node.now in
        let makes = is_compound (kind_named graph.now maker.now.to) in
        IfOk result (λ own. own ≡ outcome_own label makes [] (Some outcome.now)) }
{
    let label = label_of(alloc, graph, node)?;
    outcome_own(alloc, label, makes_compound(graph, maker), outcome)
}

// A tool that isn't run: where the base has a value, what lacks a path is told.
fn not_run<R: Results>(
    alloc: Global,
    planned: &PlannedGraph<'_>,
    node: &Node,
    base: &Node,
    tool: &ToolDecl,
    seen: &R,
) -> Result<Own, Memory>
    ensures { let known = values_of (R.results seen.now) base.now in
        let missing = led_missing (map (extra_led planned.now node.now) tool.now.extras) in
        IfOk result (λ own. own ≡ aborted (where_valued known missing)) }
{
    if value_of(seen, base).is_none() {
        return Ok(Own::aborted(Seq::new(alloc)));
    }
    let extras = extras_of(alloc, planned, node, tool)?;
    let missing = missing_of(alloc, extras.as_slice())?;
    Ok(Own::aborted(missing))
}
