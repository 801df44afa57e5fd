// What is found of a node.
use object_values::{Copied, Memory, Node, Seq, View};
use std::alloc::Global;

/// The view of a node, or a chain of nodes for which it is refused, each a need of the one before.
#[derive(PartialEq, Eq, Drop)]
pub enum Found {
    Answer(View),
    Circular(Seq<Node>),
    Deep(Seq<Node>),
}

impl Copied for Found {
    fn copy(&self, alloc: Global) -> Result<Self, Memory> {
        match self {
            Found::Answer(view) => Ok(Found::Answer(view.copy(alloc)?)),
            Found::Circular(chain) => Ok(Found::Circular(chain.copy(alloc)?)),
            Found::Deep(chain) => Ok(Found::Deep(chain.copy(alloc)?)),
        }
    }
}
