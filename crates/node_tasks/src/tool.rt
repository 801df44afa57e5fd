// What a tool takes beside its base.
ghost use Rattle.std.specs.Prelude.{◌≡◌, IfOk, map};
ghost use Rattle.meaning_tasks.specs.Nodes.{base_of};
ghost use Rattle.meaning_tasks.specs.Tasks.{extra_led};

use crate::base::base_of;
use crate::led::led_to;
use object_values::{Extra, Memory, Node, Seq, ToolDecl};
use path_planner::PlannedGraph;
use std::alloc::Global;
use task_needs::{Led, source_node};

/// Where the extras of a tool of the node are, one after another.
pub(crate) fn extras_of(
    alloc: Global,
    planned: &PlannedGraph<'_>,
    node: &Node,
    tool: &ToolDecl,
) -> Result<Seq<Led>, Memory>
    ensures { IfOk result (λ extras. extras ≡
        map (extra_led planned.now node.now) tool.now.extras) }
{
    let base = base_of(alloc, node)?;
    let mut extras = Seq::new(alloc);
    for extra in tool.extras.as_slice() {
        extras.push(extra_led(alloc, planned, node, &base, extra)?)?;
    }
    Ok(extras)
}

fn extra_led(
    alloc: Global,
    planned: &PlannedGraph<'_>,
    node: &Node,
    base: &Node,
    extra: &Extra,
) -> Result<Led, Memory>
    requires based { base.now ≡ base_of node.now }
    ensures { IfOk result (λ led. led ≡ extra_led planned.now node.now extra.now) }
{
    match extra {
        Extra::Also(of) => led_to(alloc, planned, node, of.as_slice(), base),
        Extra::With(name) => {
            let source = source_node(alloc, name.as_slice())?;
            Ok(Led::to(alloc, source))
        }
    }
}
