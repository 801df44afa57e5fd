// Source nodes.
ghost use Rattle.std.specs.Prelude.{◌≡◌, IfOk};
ghost use Rattle.meaning_tasks.specs.Nodes.{source_node};
ghost use Rattle.meaning_tasks.specs.Needs.{values_of, has_value};

use crate::results::{Results, value_of};
use object_values::{Bytes, Memory, Node, Seq, ShortSeq};
use std::alloc::Global;

/// The source node of a name, without parameters.
pub fn source_node(alloc: Global, name: &[u8]) -> Result<Node, Memory>
    ensures { IfOk result (λ source. source ≡ source_node name.now) }
{
    Ok(Node {
        source: Bytes::from_slice(alloc, name)?,
        params: Seq::new(alloc),
        steps: ShortSeq::new(alloc),
    })
}

/// Whether the source node of a name has a value.
pub fn is_present<R: Results>(alloc: Global, name: &[u8], seen: &R) -> Result<bool, Memory>
    ensures { let known = values_of (R.results seen.now) in
        IfOk result (λ present. present ≡ has_value (known (source_node name.now))) }
{
    let source = source_node(alloc, name)?;
    Ok(value_of(seen, &source).is_some())
}
