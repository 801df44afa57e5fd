// Nodes that are led on along chosen paths.
ghost use Rattle.std.specs.Prelude.{◌≡◌, ◌++◌, ◌∷◌, [], IfOk};
ghost use Rattle.object_values.specs.declared.nodes.Step.TheVariants.{Maker};
ghost use Rattle.meaning_tasks.specs.Nodes.{onward_named};

use crate::making::put_makers;
use crate::types::reached_type;
use object_values::{Copied, Memory, Node, Step};
use path_planner::PlannedGraph;
use std::alloc::Global;

/// The node further along the chosen path from its own type to the type of this name. `None` where
/// the name means no type, or where there is no path.
pub fn onward(
    alloc: Global,
    planned: &PlannedGraph<'_>,
    node: &Node,
    of: &[u8],
) -> Result<Option<Node>, Memory>
    ensures { IfOk result (λ led. led ≡ onward_named planned.now node.now of.now) }
{
    onward_from(alloc, planned, node.copy(alloc)?, of)
}

/// The same of a node that is given away: it becomes the one further along. A path is mostly one
/// maker.
pub fn onward_from(
    alloc: Global,
    planned: &PlannedGraph<'_>,
    node: Node,
    of: &[u8],
) -> Result<Option<Node>, Memory>
    ensures { IfOk result (λ led. led ≡ onward_named planned.now node of.now) }
{
    let graph = planned.graph();
    let Some(to) = graph.type_named(of) else {
        return Ok(None);
    };
    let Some(at) = reached_type(graph, &node) else {
        return Ok(None);
    };
    if let Some((maker, _)) = planned.direct(at, to) {
        return Ok(Some(led_by(node, maker)?));
    }
    let Some(path) = planned.plan(alloc, at, to)? else {
        return Ok(None);
    };
    let mut further = node;
    put_makers(path.as_slice(), &mut further.steps)?;
    Ok(Some(further))
}

// The node one maker further.
fn led_by(node: Node, maker: u32) -> Result<Node, Memory>
    ensures { IfOk result (λ led. led ≡
        record node { steps = node.steps ++ Maker maker ∷ [] }) }
{
    let mut further = node;
    further.steps.push(Step::Maker(maker))?;
    Ok(further)
}
