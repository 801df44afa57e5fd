// The scan nodes of names.
ghost use Rattle.std.specs.Prelude.{◌≡◌, ◌++◌, IfOk, OnOk, option_to_list};
ghost use Rattle.object_values.specs.declared.graph.MakerDecl.{MakerDecl as MakerValue};
ghost use Rattle.meaning_tasks.specs.Tasks.{scan_node, tool_task};
ghost use Rattle.meaning_tasks.specs.Needs.{scan_needs, values_of};

use crate::results::Results;
use crate::sources::is_present;
use object_values::{Bytes, Copied, Memory, Node, Seq, ShortSeq, ToolDecl};
use odin_bytes::Name;
use odin_nodes::onward_from;
use path_planner::PlannedGraph;
use std::alloc::Global;

/// Puts the scan node of a reached name that is present. That of the own source isn't repeated.
pub fn put_reached_scan<R: Results>(
    alloc: Global,
    planned: &PlannedGraph<'_>,
    node: &Node,
    tool: &ToolDecl,
    seen: &R,
    name: &Name,
    scans: &mut Seq<Node>,
) -> Result<(), Memory>
    ensures { let known = values_of (R.results seen.now) in
        OnOk result ((m : MakerValue) → scans.new ≡
        scans.old ++ scan_needs (tool_task planned.now node.now m tool.now) known name.now) }
{
    if name.as_slice() == node.source.as_slice() {
        return Ok(());
    }
    if !is_present(alloc, name.as_slice(), seen)? {
        return Ok(());
    }
    put_scan(alloc, planned, node, tool, name.as_slice(), scans)
}

/// Puts the scan node of a name, where it has one.
pub fn put_scan(
    alloc: Global,
    planned: &PlannedGraph<'_>,
    node: &Node,
    tool: &ToolDecl,
    name: &[u8],
    scans: &mut Seq<Node>,
) -> Result<(), Memory>
    ensures { let scan = scan_node planned.now node.now tool.now.closure name.now in
        OnOk result (scans.new ≡ scans.old ++ option_to_list scan) }
{
    if let Some(scan) = scan_node(alloc, planned, node, tool, name)? {
        scans.push(scan)?;
    }
    Ok(())
}

/// The scan node of a name for a tool of the node. `None` where the tool has no scan type, or where
/// no path leads from the name to it.
pub fn scan_node(
    alloc: Global,
    planned: &PlannedGraph<'_>,
    node: &Node,
    tool: &ToolDecl,
    name: &[u8],
) -> Result<Option<Node>, Memory>
    ensures { IfOk result (λ scan. scan ≡
        scan_node planned.now node.now tool.now.closure name.now) }
{
    let Some(of) = &tool.closure else {
        return Ok(None);
    };
    let named = Node {
        source: Bytes::from_slice(alloc, name)?,
        params: node.params.copy(alloc)?,
        steps: ShortSeq::new(alloc),
    };
    onward_from(alloc, planned, named, of.as_slice())
}
