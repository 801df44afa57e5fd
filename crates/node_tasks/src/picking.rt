// What a node gives that picks from its base.
ghost use Rattle.std.specs.Prelude.{◌≡◌, option_map, IfOk};
ghost use Rattle.meaning_tasks.specs.Labels.{label_of as label_of_node, no_element};
ghost use Rattle.meaning_tasks.specs.Needs.{values_of};
ghost use Rattle.meaning_tasks.specs.Settle.{element_own, picked_own};

use crate::own::Own;
use object_values::{Bytes, Copied, Memory, Node, Seq, Text, Value, View};
use odin_nodes::{Picked, pick};
use std::alloc::Global;
use task_needs::{Results, abort_message, value_of};
use type_graph::Graph;

/// What the key picks from the base.
pub(crate) fn picked_own<R: Results>(
    alloc: Global,
    graph: &Graph,
    node: &Node,
    base: &Node,
    key: &Text,
    seen: &R,
) -> Result<Own, Memory>
    ensures { let known = values_of (R.results seen.now) in
        let label = label_of_node graph.now node.now in
        IfOk result (λ own. own ≡ picked_own label known key.now (known base.now)) }
{
    let Some(value) = value_of(seen, base) else {
        return Ok(Own::aborted(Seq::new(alloc)));
    };
    match pick(value, key.as_slice()) {
        Some(Picked::Element(element)) => element_own(alloc, seen.find(element)),
        Some(Picked::Body(text)) => Ok(Own::fine(alloc, Value::Simple(text.copy(alloc)?))),
        None => {
            let text = no_element(alloc, key)?;
            Ok(Own::aborted(abort_message(alloc, graph, node, text)?))
        }
    }
}

// The value of the element, which gives its own status and messages by being a need.
fn element_own(alloc: Global, view: Option<&View>) -> Result<Own, Memory>
    ensures { let known = option_map (λ v. v.now.value) view.entry in
        IfOk result (λ own. own ≡ element_own known) }
{
    match view {
        Some(view) => Ok(Own::taken(alloc, view.value.copy(alloc)?)),
        None => Ok(Own::aborted(Seq::new(alloc))),
    }
}

fn no_element(alloc: Global, key: &Text) -> Result<Bytes, Memory>
    ensures { IfOk result (λ text. text ≡ no_element key.now) }
{
    let mut text = Bytes::from_slice(alloc, b"no element ")?;
    text.extend_from_slice(key.as_slice())?;
    Ok(text)
}
