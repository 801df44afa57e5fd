// The types to which steps lead.
ghost use Rattle.std.specs.Prelude.{◌≡◌, ◌<◌, Some, length, map, slice_get, option_and_then};
ghost use Rattle.meaning_graph.specs.Graphs.{types, makers};
ghost use Rattle.meaning_graph.specs.Paths.{made_of};
ghost use Rattle.meaning_tasks.specs.Nodes.{step_type, type_after, reached_type, type_of as type_of_node};

use crate::classes::has_words_of_class;
use crate::picks::picked_type;
use object_values::{Node, Step};
use path_planner::PlannedGraph;
use type_graph::Graph;

/// The type of a node that fits the graph, and none of another one.
pub fn type_of(graph: &Graph, node: &Node) -> Option<u32>
    ensures { result ≡ type_of_node graph.now node.now }
{
    if !has_words_of_class(node) {
        return None;
    }
    reached_type(graph, node)
}

/// The type to which all steps lead, where each can be applied to the type before it.
pub(crate) fn reached_type(graph: &Graph, node: &Node) -> Option<u32>
    ensures { result ≡ reached_type graph.now node.now }
{
    let source = graph.source_type(node.source.as_slice());
    type_after(graph, source, node.steps.as_slice())
}

// The type after steps that begin at a type.
fn type_after(graph: &Graph, from: u32, steps: &[Step]) -> Option<u32>
    requires { from < length (types graph.now) }
    ensures { result ≡ type_after graph.now (Some from) steps.now }
{
    let mut at = from;
    for step in steps {
        at = step_type(graph, at, step)?;
    }
    Some(at)
}

/// The type after a path of makers that begins at a type.
pub(crate) fn type_along(planned: &PlannedGraph<'_>, from: u32, path: &[u32]) -> Option<u32>
    requires from { from < length (types planned.now) }
    ensures { result ≡ type_after planned.now (Some from) (map Step.Maker path.now) }
{
    let mut at = from;
    for maker in path {
        at = planned.made_type(at, *maker)?;
    }
    Some(at)
}

fn step_type(graph: &Graph, from: u32, step: &Step) -> Option<u32>
    requires { from < length (types graph.now) }
    ensures { result ≡ step_type graph.now from step.now }
{
    match step {
        Step::Maker(number) => made_type(graph, from, *number),
        Step::Pick(key) => picked_type(graph, from, key.as_slice()),
    }
}

// What the maker makes of the type, where it takes it.
fn made_type(graph: &Graph, from: u32, number: u32) -> Option<u32>
    requires { from < length (types graph.now) }
    ensures { let maker = slice_get (makers graph.now) number in
        result ≡ option_and_then (made_of graph.now from) maker }
{
    let maker = graph.maker(number)?;
    let taken = graph.type_named(maker.from.as_slice())?;
    if !graph.is_a(from, taken) {
        return None;
    }
    graph.type_named(maker.to.as_slice())
}
