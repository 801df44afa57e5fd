// What a node needs, found once.
ghost use Rattle.std.specs.Prelude.{◌≡◌, IfOk};
ghost use Rattle.object_values.specs.declared.nodes.Node.{Node as NodeValue};
ghost use Rattle.meaning_graph.specs.Graphs.{Graph as GraphValue};
ghost use Rattle.meaning_tasks.specs.Nodes.{Fits};
ghost use Rattle.meaning_tasks.specs.Needs.{Needs};
ghost use Rattle.path_planner.specs.Ends.{plans_of};
ghost use Rattle.node_tasks.specs.Needed.{IsNeeded};

use crate::names::reached_names;
use crate::needing::counted_needs;
use object_values::{Memory, Node, Seq};
use odin_bytes::Name;
use path_planner::{PlannedGraph, Plans};
use std::alloc::Global;
use task_needs::{Counted, Results, listed};
use type_graph::Graph;

/// What a node needs by the results so far: the names that it reaches, and its needs but the
/// reached sources. It is found once, and serves the list of the needs, the call and the settling.
pub struct Needed {
    pub names: Seq<Name>,
    pub counted: Counted,
}

impl Drop for Needed {
    fn drop(self) {
        let Needed { names, counted } = self;
        drop(names);
        drop(counted);
    }
}

impl Needed {
    /// Finds what a node needs once these results are known.
    pub fn find<R: Results>(
        alloc: Global,
        planned: &PlannedGraph<'_>,
        node: &Node,
        seen: &R,
    ) -> Result<Self, Memory>
        requires fits { Fits planned.now node.now }
        ensures { IfOk result (IsNeeded planned.now node.now (R.results seen.now)) }
    {
        let names = reached_names(alloc, planned, node, seen)?;
        let counted = counted_needs(alloc, planned, node, seen, names.as_slice())?;
        Ok(Needed { names, counted })
    }

    /// The needs one by one, in order.
    pub fn nodes<R: Results>(&self, alloc: Global, seen: &R) -> Result<Seq<Node>, Memory>
        ensures { (g : GraphValue) (n : NodeValue) →
            IsNeeded g n (R.results seen.now) self.now →
            IfOk result (Needs g n (R.results seen.now)) }
    {
        listed(alloc, &self.counted, self.names.as_slice(), seen)
    }
}

/// The needs that are known once these results are, in order.
pub fn needs<R: Results>(
    alloc: Global,
    graph: &Graph,
    plans: &Plans,
    node: &Node,
    seen: &R,
) -> Result<Seq<Node>, Memory>
    requires made { plans.now ≡ plans_of graph.now }
    requires fits { Fits graph.now node.now }
    ensures { IfOk result (Needs graph.now node.now (R.results seen.now)) }
{
    let needed = Needed::find(alloc, &PlannedGraph::new(graph, plans), node, seen)?;
    needed.nodes(alloc, seen)
}
