// The makers of a graph by the numbers of their types.
ghost use Rattle.std.specs.Prelude.{◌≡◌, ◌<◌, IfOk, length};
ghost use Rattle.meaning_graph.specs.Graphs.{types};
ghost use Rattle.meaning_graph.specs.Paths.{chosen_path};
ghost use Rattle.path_planner.specs.Ends.{IsChosen, ends_in, nears_of, plans_of};

use crate::distances::distances;
use crate::planned::PlannedGraph;
use crate::route::Ends;
use crate::sources::sources;
use crate::takers::takers;
use object_values::{Decl, Memory, Seq};
use std::alloc::Global;
use std::marker::Model;
use type_graph::Graph;

/// What the paths of a graph are found by: the types of its makers, and for each type the makers that take it, and the distances from all types.
pub struct Plans {
    pub(crate) makers: Seq<Ends>,
    pub(crate) takers: Seq<Seq<u32>>,
    pub(crate) nears: Seq<Seq<Option<u32>>>,
}

impl Drop for Plans {
    fn drop(self) {
        let Plans {
            makers,
            takers,
            nears,
        } = self;
        drop(makers);
        drop(takers);
        drop(nears);
    }
}

impl Model for Plans {
    ghost use Rattle.path_planner.specs.Ends.{Planned};

    ghost Value = { Planned };

    ghost view = { λ p. (p.makers, p.takers, p.nears) };
}

impl Plans {
    pub fn new(alloc: Global, graph: &Graph) -> Result<Self, Memory>
        ensures { IfOk result (λ plans. plans ≡ plans_of graph.now) }
    {
        let makers = ends_in(alloc, graph)?;
        let takers = takers(alloc, graph, makers.as_slice())?;
        let nears = nears_in(alloc, graph, makers.as_slice())?;
        Ok(Plans {
            makers,
            takers,
            nears,
        })
    }

    /// The chosen path: of all paths that have the fewest makers, the one with the least numbers at
    /// the first difference. `None` where there is no path.
    pub fn plan(
        &self,
        alloc: Global,
        graph: &Graph,
        from: u32,
        to: u32,
    ) -> Result<Option<Seq<u32>>, Memory>
        requires made { self.now ≡ plans_of graph.now }
        requires from { from < length (types graph.now) }
        requires to { to < length (types graph.now) }
        ensures ok { IfOk result (λ path. path ≡ chosen_path graph.now from to) }
        ensures chosen { IfOk result (IsChosen graph.now from to) }
    {
        let planned = PlannedGraph::new(graph, self);
        planned.plan(alloc, from, to)
    }
}

// The numbers of the types of each maker.
fn ends_in(alloc: Global, graph: &Graph) -> Result<Seq<Ends>, Memory>
    ensures { IfOk result (λ made. made ≡ ends_in graph.now) }
{
    let mut made = Seq::new(alloc);
    for decl in graph.decls() {
        if let Decl::Maker(maker) = decl {
            made.push(Ends {
                from: graph.type_named(maker.from.as_slice()),
                to: graph.type_named(maker.to.as_slice()),
            })?;
        }
    }
    Ok(made)
}

// The distances from all types to each type.
fn nears_in(alloc: Global, graph: &Graph, makers: &[Ends]) -> Result<Seq<Seq<Option<u32>>>, Memory>
    requires made { makers.now ≡ ends_in graph.now }
    ensures { IfOk result (λ nears. nears ≡ nears_of graph.now) }
{
    let sources = sources(alloc, graph, makers)?;
    let mut nears = Seq::new(alloc);
    for to in 0..graph.type_count() {
        nears.push(distances(alloc, graph, sources.as_slice(), to)?)?;
    }
    Ok(nears)
}
