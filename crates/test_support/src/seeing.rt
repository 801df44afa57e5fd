// Whether nodes have results.
ghost use Rattle.std.specs.Prelude.{◌≡◌};
ghost use Rattle.test_support.specs.Seen.{all_known};

use node_tasks::Results;
use object_values::Node;

/// Whether all these nodes have results.
pub fn all_seen<R: Results>(nodes: &[Node], seen: &R) -> bool
    ensures { result ≡ all_known (R.results seen.now) nodes.now }
{
    for node in nodes {
        if seen.find(node).is_none() {
            return false;
        }
    }
    true
}
