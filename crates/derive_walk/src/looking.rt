// What is looked up of many nodes.
ghost use Rattle.std.specs.Prelude.{◌≡◌, option_map};
ghost use Rattle.derive_walk.specs.Tables.{heights_of, of_height, node_in};

use crate::done::Table;
use crate::heights::Heights;
use object_values::Node;

/// The height of a node that was visited.
pub fn height_of(done: &Table, waiting: &Heights, node: &Node) -> Option<u32>
    ensures { result ≡ heights_of done.now waiting.now node.now }
{
    match done.entry(node) {
        Some(done) => Some(done.height),
        None => waiting.height(node),
    }
}

/// The first of the nodes that has this height.
pub fn at_height<'a>(
    done: &Table,
    waiting: &Heights,
    nodes: &'a [Node],
    height: u32,
) -> Option<&'a Node>
    ensures { option_map (λ n. n.now) result
        ≡ of_height (heights_of done.now waiting.now) height nodes.now }
{
    for node in nodes {
        if let Some(other) = height_of(done, waiting, node) {
            if other == height {
                return Some(node);
            }
        }
    }
    None
}

/// Whether the node is one of the list.
pub fn has_node(nodes: &[Node], node: &Node) -> bool
    ensures { result ≡ node_in node.now nodes.now }
{
    for other in nodes {
        if *other == *node {
            return true;
        }
    }
    false
}
