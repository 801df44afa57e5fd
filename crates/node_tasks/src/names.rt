// The names that lines lead to.
ghost use Rattle.std.specs.Prelude.{◌≡◌, IfOk, true};
ghost use Rattle.object_values.specs.declared.graph.MakerDecl.{MakerDecl as MakerValue};
ghost use Rattle.meaning_texts.specs.Classes.{IsName};
ghost use Rattle.meaning_tasks.specs.Nodes.{Fits, base_of};
ghost use Rattle.meaning_tasks.specs.Reached.{AreReached};
ghost use Rattle.meaning_tasks.specs.Tasks.{tool_task, tooled};
ghost use Rattle.meaning_tasks.specs.Needs.{ReachedNames, values_of, has_value, own_lines, other_lines};

use crate::base::base_of;
use crate::task::tool_at;
use dynamic_inputs::Closure;
use object_values::{Memory, Node, Seq, ToolDecl};
use odin_bytes::{Name, read_name};
use path_planner::PlannedGraph;
use std::alloc::Global;
use task_needs::{Results, told_lines, value_of};

/// The names that a node reaches by its scan nodes, as far as these have results. None are reached
/// where no tool with a scan type is run, or where the base has no value.
pub(crate) fn reached_names<R: Results>(
    alloc: Global,
    planned: &PlannedGraph<'_>,
    node: &Node,
    seen: &R,
) -> Result<Seq<Name>, Memory>
    requires fits { Fits planned.now node.now }
    ensures { IfOk result (ReachedNames planned.now node.now (R.results seen.now)) }
{
    let Some((_, tool)) = tool_at(planned.graph(), node) else {
        return Ok(Seq::new(alloc));
    };
    if tool.closure.is_none() {
        return Ok(Seq::new(alloc));
    }
    let base = base_of(alloc, node)?;
    let Some(_) = value_of(seen, &base) else {
        return Ok(Seq::new(alloc));
    };
    names_of_tool(alloc, planned, node, tool, seen)
}

// The reached names of a tool whose base has a value, whatever its maker.
fn names_of_tool<R: Results>(
    alloc: Global,
    planned: &PlannedGraph<'_>,
    node: &Node,
    tool: &ToolDecl,
    seen: &R,
) -> Result<Seq<Name>, Memory>
    requires named { IsName node.now.source }
    requires valued { has_value (values_of (R.results seen.now) (base_of node.now)) ≡ true }
    ensures { (m : MakerValue) → let t = tool_task planned.now node.now m tool.now in
        let known = values_of (R.results seen.now) in
        IfOk result (AreReached (own_lines (tooled t) known) (other_lines (tooled t) known)) }
{
    let Some(root) = read_name(alloc, node.source.as_slice())? else {
        unreachable!();
    };
    let mut closure = Closure::new(alloc, root);
    'told: while let Some(name) = closure.wanted() {
        let lines = told_lines(alloc, planned, node, tool, name.as_slice(), seen)?;
        closure.add(alloc, lines.as_slice())?;
    }
    closure.names(alloc)
}
