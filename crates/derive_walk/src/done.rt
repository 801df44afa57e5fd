// The nodes that have results.
ghost use Rattle.std.specs.Prelude.{◌≡◌, ◌++◌, ◌∷◌, [], None, option_map, IfOk, OnOk, OnErr};
ghost use Rattle.derive_walk.specs.Tables.{done_in};

use crate::lists::MessageLists;
use indexmap::IndexMap;
use object_values::{Memory, Node, View};
use std::alloc::Global;
use std::marker::Model;
use task_needs::Results;

/// A result, and the height at which it stands: one more than the greatest height of the node's
/// needs.
pub struct Done {
    pub view: View,
    pub height: u32,
}

impl Drop for Done {
    fn drop(self) {
        let Done { view, height: _ } = self;
        drop(view);
    }
}

/// The results of nodes, in the order in which they came. A node is looked up by its hash. Results
/// with the same messages share them.
pub struct Table {
    done: IndexMap<Node, Done>,
    lists: MessageLists,
}

impl Drop for Table {
    fn drop(self) {
        let Table { done, lists } = self;
        drop(done);
        drop(lists);
    }
}

impl Model for Table {
    ghost use Rattle.derive_walk.specs.Tables.{Entries};

    ghost Value = { Entries };

    ghost view = { λ t. t.done.entries };
}

impl Table {
    pub fn new(alloc: Global) -> Self
        ensures { result ≡ [] }
    {
        Table {
            done: IndexMap::new(alloc),
            lists: MessageLists::new(alloc),
        }
    }

    pub fn entry(&self, node: &Node) -> Option<&Done>
        ensures { option_map (λ d. d.now) result ≡ done_in self.now node.now }
    {
        self.done.get(node)
    }

    /// Adds a node that isn't there. After want of memory all is as before.
    pub fn add(&mut self, node: Node, done: Done) -> Result<(), Memory>
        requires { done_in self.old node ≡ None }
        ensures ok { OnOk result (self.new ≡ self.old ++ (node, done) ∷ []) }
        ensures err { OnErr result (self.new ≡ self.old) }
    {
        self.make_room()?;
        let done = self.sharing(done)?;
        self.put(node, done)
    }

    // The same result, which shares its messages with the results before that have the same.
    fn sharing(&mut self, done: Done) -> Result<Done, Memory>
        ensures done { IfOk result (λ shared. shared ≡ done) }
        ensures same { self.new ≡ self.old }
    {
        let mut done = done;
        done.view.messages = self.lists.share(&done.view.messages)?;
        Ok(done)
    }

    fn put(&mut self, node: Node, done: Done) -> Result<(), Memory>
        requires { done_in self.old node ≡ None }
        ensures ok { OnOk result (self.new ≡ self.old ++ (node, done) ∷ []) }
        ensures err { OnErr result (self.new ≡ self.old) }
    {
        match self.done.insert(node, done) {
            Ok(_) => Ok(()),
            Err(_) => Err(Memory),
        }
    }

    // A full table grows fourfold, so that its nodes are seldom moved. What isn't used of it stays untouched.
    fn make_room(&mut self) -> Result<(), Memory>
        ensures { self.new ≡ self.old }
    {
        let len = self.done.len();
        if len == self.done.capacity() {
            self.done.reserve(len.saturating_mul(3))?;
        }
        Ok(())
    }
}

impl Results for Table {
    ghost use Rattle.derive_walk.specs.Tables.{results_of, done_nodes};
    ghost use Rattle.derive_walk.specs.Finite.{only_nodes};

    ghost results = { results_of };

    ghost nodes = { done_nodes };

    ghost finite = { only_nodes };

    fn find(&self, node: &Node) -> Option<&View> {
        match self.done.get(node) {
            None => None,
            Some(done) => Some(&done.view),
        }
    }
}
