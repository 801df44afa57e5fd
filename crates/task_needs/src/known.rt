// Whether nodes have values.
ghost use Rattle.std.specs.Prelude.{◌≡◌, flat_map};
ghost use Rattle.meaning_tasks.specs.Needs.{has_value, values_of, with_elements};
ghost use Rattle.meaning_tasks.specs.Calls.{all_valued};

use crate::results::{Results, elements_of, value_of};
use object_values::Node;

// Whether all these nodes have values.
pub(crate) fn all_valued<R: Results>(nodes: &[Node], seen: &R) -> bool
    ensures { result ≡ all_valued (values_of (R.results seen.now)) nodes.now }
{
    for node in nodes {
        if !is_valued(node, seen) {
            return false;
        }
    }
    true
}

fn is_valued<R: Results>(node: &Node, seen: &R) -> bool
    ensures { result ≡ has_value (values_of (R.results seen.now) node.now) }
{
    match value_of(seen, node) {
        Some(_) => true,
        None => false,
    }
}

// Whether all these nodes and their elements have values.
pub(crate) fn all_whole<R: Results>(nodes: &[Node], seen: &R) -> bool
    ensures { let known = values_of (R.results seen.now) in
        result ≡ all_valued known (flat_map (with_elements known) nodes.now) }
{
    for node in nodes {
        if !is_whole(node, seen) {
            return false;
        }
    }
    true
}

fn is_whole<R: Results>(node: &Node, seen: &R) -> bool
    ensures { let known = values_of (R.results seen.now) in
        result ≡ all_valued known (with_elements known node.now) }
{
    is_valued(node, seen) && all_valued(elements_of(seen, node), seen)
}
