// Nodes that are led on.
ghost use Rattle.std.specs.Prelude.{◌≡◌, ◌∷◌, [], None, IfOk};
ghost use Rattle.meaning_tasks.specs.Labels.{label_of as label_of_node, abort_message, no_path};
ghost use Rattle.meaning_tasks.specs.Tasks.{led_to};

use object_values::{Bytes, Memory, Node};
use odin_nodes::onward;
use path_planner::PlannedGraph;
use std::alloc::Global;
use task_needs::{Led, abort_message};
use type_graph::Graph;

/// From a node along the chosen path to the type of a name. The message is one of the first node.
pub(crate) fn led_to(
    alloc: Global,
    planned: &PlannedGraph<'_>,
    node: &Node,
    of: &[u8],
    from: &Node,
) -> Result<Led, Memory>
    ensures { IfOk result (λ led. led ≡ led_to planned.now node.now of.now from.now) }
{
    match onward(alloc, planned, from, of)? {
        Some(further) => Ok(Led::to(alloc, further)),
        None => no_path(alloc, planned.graph(), node, of),
    }
}

// No path leads to the type of that name.
fn no_path(alloc: Global, graph: &Graph, node: &Node, of: &[u8]) -> Result<Led, Memory>
    ensures { let label = label_of_node graph.now node.now in
        IfOk result (λ led. led ≡
        record { node = None; missing = abort_message label (no_path of.now) ∷ [] }) }
{
    let mut text = Bytes::from_slice(alloc, b"no path ")?;
    text.extend_from_slice(of)?;
    let missing = abort_message(alloc, graph, node, text)?;
    Ok(Led {
        node: None,
        missing,
    })
}
