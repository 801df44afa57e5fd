// The needs of a node that count.
ghost use Rattle.std.specs.Prelude.{◌≡◌, ◌++◌, ◌∷◌, [], IfOk, OnOk, map, flat_map, option_map, option_to_list};
ghost use Rattle.object_values.specs.declared.graph.MakerDecl.{MakerDecl as MakerValue};
ghost use Rattle.meaning_tasks.specs.Nodes.{Fits, base_of, onward_named};
ghost use Rattle.meaning_tasks.specs.Tasks.{pack_part, extra_led, led_nodes, scan_node, tool_task, tooled, task_of};
ghost use Rattle.meaning_tasks.specs.Needs.{values_of, has_value, picked_element, scan_needs, part_nodes, counted_needs};
ghost use Rattle.task_needs.specs.Counting.{nodes_in};

use crate::base::base_of;
use crate::task::{TaskAt, task_at};
use crate::tool::extras_of;
use object_values::{Bytes, Memory, Node, PartDecl, Seq, ToolDecl};
use odin_bytes::Name;
use odin_nodes::{Picked, onward, pick};
use path_planner::PlannedGraph;
use std::alloc::Global;
use task_needs::{Counted, Led, Results, put_copy, put_reached_scan, put_scan, value_of};

/// The needs but the reached sources, given the reached names.
pub(crate) fn counted_needs<R: Results>(
    alloc: Global,
    planned: &PlannedGraph<'_>,
    node: &Node,
    seen: &R,
    names: &[Name],
) -> Result<Counted, Memory>
    requires fits { Fits planned.now node.now }
    ensures { let known = values_of (R.results seen.now) in
        IfOk result (λ counted. nodes_in known counted ≡
        counted_needs (task_of planned.now node.now) known names.now) }
{
    match task_at(planned.graph(), node) {
        TaskAt::Given => Ok(Counted::new(alloc)),
        TaskAt::Picked(key) => {
            let nodes = picked_needs(alloc, node, key.as_slice(), seen)?;
            Ok(Counted::only_alone(alloc, nodes))
        }
        TaskAt::Read(_) | TaskAt::Each(_) => {
            let nodes = base_alone(alloc, node)?;
            Ok(Counted::only_alone(alloc, nodes))
        }
        TaskAt::Packed(parts) => {
            let nodes = part_nodes(alloc, planned, node, parts)?;
            Ok(Counted::only_alone(alloc, nodes))
        }
        TaskAt::Tooled(_, tool) => tool_needs(alloc, planned, node, tool, seen, names),
    }
}

fn base_alone(alloc: Global, node: &Node) -> Result<Seq<Node>, Memory>
    ensures { IfOk result (λ needs. needs ≡ base_of node.now ∷ []) }
{
    let mut needs = Seq::new(alloc);
    needs.push(base_of(alloc, node)?)?;
    Ok(needs)
}

// The base, and the element of it that the key picks.
fn picked_needs<R: Results>(
    alloc: Global,
    node: &Node,
    key: &[u8],
    seen: &R,
) -> Result<Seq<Node>, Memory>
    ensures { let base = base_of node.now in
        let known = values_of (R.results seen.now) in
        IfOk result (λ needs. needs ≡ base ∷ picked_element key.now (known base)) }
{
    let base = base_of(alloc, node)?;
    let element = picked_element(&base, key, seen);
    let mut needs = Seq::new(alloc);
    needs.push(base)?;
    if let Some(element) = element {
        put_copy(alloc, element, &mut needs)?;
    }
    Ok(needs)
}

fn picked_element<'a, R: Results>(base: &Node, key: &[u8], seen: &'a R) -> Option<&'a Node>
    ensures { let known = values_of (R.results seen.now) in
        option_to_list (option_map (λ element. element.now) result)
        ≡ picked_element key.now (known base.now) }
{
    match pick(value_of(seen, base)?, key) {
        Some(Picked::Element(element)) => Some(element),
        _ => None,
    }
}

// The nodes of the parts, where paths lead to them.
fn part_nodes(
    alloc: Global,
    planned: &PlannedGraph<'_>,
    node: &Node,
    parts: &[PartDecl],
) -> Result<Seq<Node>, Memory>
    ensures { IfOk result (λ needs. needs ≡
        part_nodes (map (pack_part planned.now node.now) parts.now)) }
{
    let base = base_of(alloc, node)?;
    let mut needs = Seq::new(alloc);
    for part in parts {
        put_onward(alloc, planned, &base, &part.of, &mut needs)?;
    }
    Ok(needs)
}

fn put_onward(
    alloc: Global,
    planned: &PlannedGraph<'_>,
    from: &Node,
    of: &Bytes,
    needs: &mut Seq<Node>,
) -> Result<(), Memory>
    ensures { OnOk result (needs.new ≡
        needs.old ++ option_to_list (onward_named planned.now from.now of.now)) }
{
    if let Some(further) = onward(alloc, planned, from, of.as_slice())? {
        needs.push(further)?;
    }
    Ok(())
}

// ---- of a tool, whatever its maker

// The base and the extras with their elements, and the scan nodes alone. Where the base has no
// value, that alone is needed.
fn tool_needs<R: Results>(
    alloc: Global,
    planned: &PlannedGraph<'_>,
    node: &Node,
    tool: &ToolDecl,
    seen: &R,
    names: &[Name],
) -> Result<Counted, Memory>
    ensures { let known = values_of (R.results seen.now) in
        IfOk result (λ counted. (m : MakerValue) → nodes_in known counted ≡
        counted_needs (tooled (tool_task planned.now node.now m tool.now)) known names.now) }
{
    let mut whole = Seq::new(alloc);
    let mut alone = room_for_scans(alloc, names)?;
    let valued = put_base(alloc, node, seen, &mut whole)?;
    if !valued {
        return Ok(Counted { whole, alone });
    }
    put_extras(alloc, planned, node, tool, &mut whole)?;
    put_scans(alloc, planned, node, tool, seen, names, &mut alone)?;
    Ok(Counted { whole, alone })
}

// Room for the scan nodes of the own source and of these names.
fn room_for_scans(alloc: Global, names: &[Name]) -> Result<Seq<Node>, Memory>
    ensures { IfOk result (λ scans. scans ≡ []) }
{
    let scans = Vec::with_capacity(alloc, names.len().saturating_add(1))?;
    Ok(Seq::from_vec(scans))
}

// Puts the base, and says whether it has a value.
fn put_base<R: Results>(
    alloc: Global,
    node: &Node,
    seen: &R,
    whole: &mut Seq<Node>,
) -> Result<bool, Memory>
    ensures base { OnOk result (whole.new ≡ whole.old ++ base_of node.now ∷ []) }
    ensures valued { let known = values_of (R.results seen.now) in
        IfOk result (λ valued. valued ≡ has_value (known (base_of node.now))) }
{
    let base = base_of(alloc, node)?;
    let valued = value_of(seen, &base).is_some();
    whole.push(base)?;
    Ok(valued)
}

fn put_extras(
    alloc: Global,
    planned: &PlannedGraph<'_>,
    node: &Node,
    tool: &ToolDecl,
    whole: &mut Seq<Node>,
) -> Result<(), Memory>
    ensures { let extras = map (extra_led planned.now node.now) tool.now.extras in
        OnOk result (whole.new ≡ whole.old ++ led_nodes extras) }
{
    let extras = extras_of(alloc, planned, node, tool)?;
    put_led_nodes(alloc, extras.as_slice(), whole)
}

fn put_led_nodes(alloc: Global, extras: &[Led], whole: &mut Seq<Node>) -> Result<(), Memory>
    ensures { OnOk result (whole.new ≡ whole.old ++ led_nodes extras.now) }
{
    for extra in extras {
        put_led_node(alloc, extra, whole)?;
    }
    Ok(())
}

fn put_led_node(alloc: Global, extra: &Led, whole: &mut Seq<Node>) -> Result<(), Memory>
    ensures { OnOk result (whole.new ≡ whole.old ++ option_to_list extra.now.node) }
{
    match extra.node() {
        Some(node) => put_copy(alloc, node, whole),
        None => Ok(()),
    }
}

// The scan node of the own source, and those of the reached names.
fn put_scans<R: Results>(
    alloc: Global,
    planned: &PlannedGraph<'_>,
    node: &Node,
    tool: &ToolDecl,
    seen: &R,
    names: &[Name],
    scans: &mut Seq<Node>,
) -> Result<(), Memory>
    ensures { let known = values_of (R.results seen.now) in
        let own = scan_node planned.now node.now tool.now.closure node.now.source in
        OnOk result ((m : MakerValue) → scans.new ≡ scans.old ++ (option_to_list own
        ++ flat_map (scan_needs (tool_task planned.now node.now m tool.now) known) names.now)) }
{
    put_scan(alloc, planned, node, tool, node.source.as_slice(), scans)?;
    for name in names {
        put_reached_scan(alloc, planned, node, tool, seen, name, scans)?;
    }
    Ok(())
}
