// The results so far.
ghost use Rattle.std.specs.Prelude.{◌≡◌, List, Some, false, option_map, IfSome, IfNone};
ghost use Rattle.object_values.specs.declared.nodes.Node.{Node as NodeValue};
ghost use Rattle.meaning_tasks.specs.Needs.{Results as ResultMap, values_of, has_value, elements_of};
ghost use Rattle.meaning_tasks.specs.Maps.{HasOnly};

use object_values::{Node, Value, View};

/// The views of nodes, as far as they are known. They are finitely many.
pub trait Results {
    /// The view of each node that has one.
    ghost results: { Self → ResultMap };

    /// The nodes that have one, and perhaps others.
    ghost nodes: { Self → List NodeValue };

    ghost finite: { (seen : Self) → HasOnly (results seen) (nodes seen) };

    fn find(&self, node: &Node) -> Option<&View>
        ensures { option_map (λ view. view.now) result ≡ results self.now node.now };
}

/// The value of a node, where it has a result with one.
pub fn value_of<'a, R: Results>(seen: &'a R, node: &Node) -> Option<&'a Value>
    ensures some { IfSome result (λ value.
        values_of (R.results seen.now) node.now ≡ Some (Some value.now)) }
    ensures none { IfNone result (has_value (values_of (R.results seen.now) node.now) ≡ false) }
{
    seen.find(node)?.value.as_ref()
}

/// The elements of a node that has a result that is a list. None of others.
pub fn elements_of<'a, R: Results>(seen: &'a R, node: &Node) -> &'a [Node]
    ensures { result.now ≡ elements_of (values_of (R.results seen.now) node.now) }
{
    match value_of(seen, node) {
        Some(Value::List(elements)) => elements.as_slice(),
        _ => &[],
    }
}
