// Whether the words of a node are of their classes.
ghost use Rattle.std.specs.Prelude.{◌≡◌, ◌&&◌};
ghost use Rattle.std.specs.List.{list_all};
ghost use Rattle.meaning_tasks.specs.Nodes.{has_key_of_class};
ghost use Rattle.odin_nodes.specs.Words.{has_words_of_class};

use object_values::{Node, Step};
use odin_bytes::{are_params, is_key, is_name};

/// Whether the name, the parameters and the keys of a node are of their classes.
pub(crate) fn has_words_of_class(node: &Node) -> bool
    ensures { result ≡ has_words_of_class node.now }
{
    is_name(node.source.as_slice())
        && are_params(node.params.as_slice())
        && have_keys(node.steps.as_slice())
}

fn have_keys(steps: &[Step]) -> bool
    ensures { result ≡ list_all has_key_of_class steps.now }
{
    steps.iter().all(|step| has_key(step))
}

fn has_key(step: &Step) -> bool
    ensures { result ≡ has_key_of_class step.now }
{
    match step {
        Step::Maker(_) => true,
        Step::Pick(key) => is_key(key.as_slice()),
    }
}
