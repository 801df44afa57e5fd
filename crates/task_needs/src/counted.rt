// The needs of a node that count.
ghost use Rattle.std.specs.Prelude.{◌≡◌, []};
ghost use Rattle.meaning_tasks.specs.Needs.{values_of};
ghost use Rattle.meaning_tasks.specs.Calls.{all_valued};
ghost use Rattle.task_needs.specs.Counting.{nodes_in};

use crate::known::{all_valued, all_whole};
use crate::results::Results;
use object_values::{Node, Seq};
use std::alloc::Global;

/// Needs of a node: some with the elements of the lists that they are, and after them others
/// alone. The elements aren't held: they are those in the results.
pub struct Counted {
    pub whole: Seq<Node>,
    pub alone: Seq<Node>,
}

impl Drop for Counted {
    fn drop(self) {
        let Counted { whole, alone } = self;
        drop(whole);
        drop(alone);
    }
}

impl Counted {
    pub fn new(alloc: Global) -> Self
        ensures { result ≡ record { whole = []; alone = [] } }
    {
        Counted::only_alone(alloc, Seq::new(alloc))
    }

    /// These nodes, without their elements.
    pub fn only_alone(alloc: Global, nodes: Seq<Node>) -> Self
        ensures { result ≡ record { whole = []; alone = nodes } }
    {
        Counted {
            whole: Seq::new(alloc),
            alone: nodes,
        }
    }

    /// Whether all of them have values.
    pub fn all_valued<R: Results>(&self, seen: &R) -> bool
        ensures { let known = values_of (R.results seen.now) in
            result ≡ all_valued known (nodes_in known self.now) }
    {
        all_whole(self.whole.as_slice(), seen) && all_valued(self.alone.as_slice(), seen)
    }
}
