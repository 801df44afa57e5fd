// The names in the objects of scan nodes.
ghost use Rattle.std.specs.Prelude.{◌≡◌, IfOk, true};
ghost use Rattle.object_values.specs.declared.graph.MakerDecl.{MakerDecl as MakerValue};
ghost use Rattle.meaning_tasks.specs.Nodes.{base_of};
ghost use Rattle.meaning_tasks.specs.Tasks.{scan_node, tool_task, tooled};
ghost use Rattle.meaning_tasks.specs.Needs.{values_of, has_value, lines_in, lines_by, own_lines, other_lines};
ghost use Rattle.dynamic_inputs.specs.Laws.{with_own};

use crate::results::{Results, value_of};
use crate::scans::scan_node;
use crate::sources::is_present;
use dynamic_inputs::read_scan;
use object_values::{Memory, Node, Seq, ToolDecl, Value};
use odin_bytes::Name;
use path_planner::PlannedGraph;
use std::alloc::Global;

/// The lines of the own source, or of another name that is present.
pub fn told_lines<R: Results>(
    alloc: Global,
    planned: &PlannedGraph<'_>,
    node: &Node,
    tool: &ToolDecl,
    name: &[u8],
    seen: &R,
) -> Result<Seq<Name>, Memory>
    requires valued { has_value (values_of (R.results seen.now) (base_of node.now)) ≡ true }
    ensures { (m : MakerValue) → let t = tool_task planned.now node.now m tool.now in
        let known = values_of (R.results seen.now) in
        let own = own_lines (tooled t) known in
        IfOk result (λ lines. lines ≡
        with_own node.now.source own (other_lines (tooled t) known) name.now) }
{
    if name == node.source.as_slice() {
        return scan_lines(alloc, planned, node, tool, name, seen);
    }
    if !is_present(alloc, name, seen)? {
        return Ok(Seq::new(alloc));
    }
    scan_lines(alloc, planned, node, tool, name, seen)
}

// The lines of the object of a scan node that are names.
fn scan_lines<R: Results>(
    alloc: Global,
    planned: &PlannedGraph<'_>,
    node: &Node,
    tool: &ToolDecl,
    name: &[u8],
    seen: &R,
) -> Result<Seq<Name>, Memory>
    ensures { let scan = scan_node planned.now node.now tool.now.closure name.now in
        IfOk result (λ lines. lines ≡ lines_by (values_of (R.results seen.now)) scan) }
{
    match scan_node(alloc, planned, node, tool, name)? {
        Some(scan) => lines_in(alloc, &scan, seen),
        None => Ok(Seq::new(alloc)),
    }
}

fn lines_in<R: Results>(alloc: Global, scan: &Node, seen: &R) -> Result<Seq<Name>, Memory>
    ensures { let known = values_of (R.results seen.now) in
        IfOk result (λ lines. lines ≡ lines_in (known scan.now)) }
{
    match value_of(seen, scan) {
        Some(Value::Simple(text)) => read_scan(alloc, text.as_slice()),
        _ => Ok(Seq::new(alloc)),
    }
}
