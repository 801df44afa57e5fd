// Nodes along their steps.
ghost use Rattle.std.specs.Prelude.{◌≡◌, IfOk, option_map};
ghost use Rattle.meaning_tasks.specs.Nodes.{base_of, last_step};

use object_values::{Copied, Memory, Node, ShortSeq, Step};
use std::alloc::Global;

/// The node without its last step.
#[tactic(auto, using(crate::proofs::StepLemmas::before_taken))]
pub(crate) fn base_of(alloc: Global, node: &Node) -> Result<Node, Memory>
    ensures { IfOk result (λ base. base ≡ base_of node.now) }
{
    let steps = node.steps.as_slice();
    let count = steps.len().saturating_sub(1);
    Ok(Node {
        source: node.source.copy(alloc)?,
        params: node.params.copy(alloc)?,
        steps: ShortSeq::of(alloc, &steps[..count])?,
    })
}

#[tactic(auto, using(crate::proofs::StepLemmas::last_got))]
pub(crate) fn last_step(node: &Node) -> Option<&Step>
    ensures { option_map (λ step. step.now) result ≡ last_step node.now.steps }
{
    node.steps.as_slice().last()
}
