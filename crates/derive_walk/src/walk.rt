// A walk from the root along needs to the node that is visited.
ghost use Rattle.std.specs.Prelude.{◌≡◌, ◌++◌, ◌∷◌, [], None, OnErr, OnOk};
ghost use Rattle.derive_walk.specs.Tables.{done_in};
ghost use Rattle.derive_walk.specs.Told.{TakesRenewed, TakesSettled};

use crate::done::{Done, Table};
use crate::heights::Heights;
use crate::looked::Looked;
use crate::looking::height_of;
use crate::wanted::Wanted;
use node_tasks::VisitedNodes;
use object_values::{Fresh, Memory, Node, RenewedNode, Seq};

/// The nodes with results, what is told of them, the wanted calls, the nodes that were looked at and those for which a kept outcome was
/// looked for stay from one advance to the next; what waits and the path are of one advance: a node that waited may go on by outcomes that came since, so each
/// advance visits it anew, and only a result is never found twice.
pub(crate) struct Walk {
    pub(crate) root: Node,
    pub(crate) done: Table,
    pub(crate) fresh: Seq<Fresh>,
    pub(crate) renewed: Seq<RenewedNode>,
    pub(crate) wanted: Wanted,
    pub(crate) looked: Looked,
    pub(crate) taken: Seq<Node>,
    pub(crate) waiting: Heights,
    pub(crate) path: Seq<Node>,
}

impl Drop for Walk {
    fn drop(self) {
        let Walk {
            root,
            done,
            fresh,
            renewed,
            wanted,
            looked,
            taken,
            waiting,
            path,
        } = self;
        drop(root);
        drop(done);
        drop(fresh);
        drop(renewed);
        drop(wanted);
        drop(looked);
        drop(taken);
        drop(waiting);
        drop(path);
    }
}

impl Walk {
    /// Takes a node that was settled, with what is noted of it. After want of memory all is as before.
    pub(crate) fn take_settled(&mut self, node: Node, done: Done, note: Fresh) -> Result<(), Memory>
        requires { done_in self.old.done node ≡ None }
        ensures ok { OnOk result (TakesSettled self.old self.new node done note) }
        ensures err { OnErr result (self.new ≡ self.old) }
    {
        let count = self.fresh.len();
        self.fresh.push(note)?;
        match self.done.add(node, done) {
            Ok(()) => Ok(()),
            Err(Memory) => {
                self.fresh.truncate(count);
                Err(Memory)
            }
        }
    }

    /// Takes a node by its record, which came to this. After want of memory all is as before.
    pub(crate) fn take_renewed(
        &mut self,
        node: Node,
        done: Done,
        renewed: RenewedNode,
    ) -> Result<(), Memory>
        requires { done_in self.old.done node ≡ None }
        ensures ok { OnOk result (TakesRenewed self.old self.new node done renewed) }
        ensures err { OnErr result (self.new ≡ self.old) }
    {
        let count = self.renewed.len();
        self.renewed.push(renewed)?;
        match self.done.add(node, done) {
            Ok(()) => Ok(()),
            Err(Memory) => {
                self.renewed.truncate(count);
                Err(Memory)
            }
        }
    }

    /// What is noted of the nodes that were settled, and what the records of others came to.
    pub(crate) fn into_told(self) -> (Seq<Fresh>, Seq<RenewedNode>)
        ensures fresh { result.0 ≡ self.fresh }
        ensures renewed { result.1 ≡ self.renewed }
    {
        let Walk {
            root,
            done,
            fresh,
            renewed,
            wanted,
            looked,
            taken,
            waiting,
            path,
        } = self;
        drop(root);
        drop(done);
        drop(wanted);
        drop(looked);
        drop(taken);
        drop(waiting);
        drop(path);
        (fresh, renewed)
    }
}

impl VisitedNodes for Walk {
    ghost use Rattle.std.specs.Prelude.{is_some};
    ghost use Rattle.derive_walk.specs.States.{heights_in};

    ghost visited = { λ walk n. is_some (heights_in walk n) };

    fn has(&self, node: &Node) -> bool {
        height_of(&self.done, &self.waiting, node).is_some()
    }
}
