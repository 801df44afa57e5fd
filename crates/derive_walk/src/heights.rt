// The nodes that were visited and have no result.
ghost use Rattle.std.specs.Prelude.{◌≡◌, ◌++◌, ◌∷◌, [], None, OnOk, OnErr};
ghost use Rattle.derive_walk.specs.Tables.{height_in};

use indexmap::IndexMap;
use object_values::{Memory, Node};
use std::alloc::Global;
use std::marker::Model;

/// Nodes with their heights, in the order in which they came. A node is looked up by its hash.
pub struct Heights {
    heights: IndexMap<Node, u32>,
}

impl Drop for Heights {
    fn drop(self) {
        let Heights { heights } = self;
        drop(heights);
    }
}

impl Model for Heights {
    ghost use Rattle.derive_walk.specs.Tables.{Waits};

    ghost Value = { Waits };

    ghost view = { λ h. h.heights.entries };
}

impl Heights {
    pub fn new(alloc: Global) -> Self
        ensures { result ≡ [] }
    {
        Heights {
            heights: IndexMap::new(alloc),
        }
    }

    pub fn height(&self, node: &Node) -> Option<u32>
        ensures { result ≡ height_in self.now node.now }
    {
        match self.heights.get(node) {
            None => None,
            Some(height) => Some(*height),
        }
    }

    /// Adds a node that isn't there. After want of memory all is as before.
    pub fn add(&mut self, node: Node, height: u32) -> Result<(), Memory>
        requires { height_in self.old node ≡ None }
        ensures ok { OnOk result (self.new ≡ self.old ++ (node, height) ∷ []) }
        ensures err { OnErr result (self.new ≡ self.old) }
    {
        self.heights.insert(node, height)?;
        Ok(())
    }
}
