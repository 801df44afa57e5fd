// The chains that a walk ends in.
ghost use Rattle.std.specs.Prelude.{IfOk};
ghost use Rattle.derive_walk.specs.Chains.{IsChainTo};

use crate::found::Found;
use crate::looking::has_node;
use object_values::{Copied, HEIGHT_LIMIT, Memory, Node, Seq};
use std::alloc::Global;

/// The chain that ends with the need, where it comes back to the path, or where the path is full.
pub fn chain_to(alloc: Global, path: &Seq<Node>, need: &Node) -> Result<Option<Found>, Memory>
    ensures { IfOk result (IsChainTo path.now need.now) }
{
    let circular = has_node(path.as_slice(), need);
    if !circular && path.len() < HEIGHT_LIMIT {
        return Ok(None);
    }
    let mut chain = path.copy(alloc)?;
    chain.push(need.copy(alloc)?)?;
    if circular {
        return Ok(Some(Found::Circular(chain)));
    }
    Ok(Some(Found::Deep(chain)))
}
