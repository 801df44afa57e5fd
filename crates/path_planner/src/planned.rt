// A graph with its plans.
ghost use Rattle.std.specs.Prelude.{◌≡◌, ◌<◌, ◌∷◌, [], Some, IfOk, IfSome, length, slice_get, option_and_then};
ghost use Rattle.meaning_graph.specs.Graphs.{types, makers};
ghost use Rattle.meaning_graph.specs.Paths.{made_of, chosen_path};
ghost use Rattle.path_planner.specs.Ends.{AreTypes, IsChosen, made_by, plans_of};

use crate::direct::direct;
use crate::plans::Plans;
use crate::route::{Ends, route};
use object_values::{Memory, Seq};
use std::alloc::Global;
use std::marker::Model;
use type_graph::Graph;

/// A graph with what its paths are found by. That the plans are those of the graph is said once, by this type: no caller carries it on.
/// Contracts see it as its graph.
#[derive(Drop)]
pub struct PlannedGraph<'a> {
    graph: &'a Graph,
    plans: &'a Plans,
}

impl<'a> Model for PlannedGraph<'a> {
    ghost use Rattle.std.specs.Prelude.{◌≡◌};
    ghost use Rattle.meaning_graph.specs.Graphs.{Graph};
    ghost use Rattle.path_planner.specs.Ends.{plans_of};

    ghost Value = { Graph };

    ghost view = { λ p. p.graph.now };

    ghost invariant = { λ p. p.plans.now ≡ plans_of p.graph.now };
}

impl<'a> PlannedGraph<'a> {
    pub fn new(graph: &'a Graph, plans: &'a Plans) -> Self
        requires made { plans.now ≡ plans_of graph.now }
        ensures { result ≡ graph.now }
    {
        PlannedGraph { graph, plans }
    }

    pub fn graph(&self) -> &'a Graph
        ensures { result.now ≡ self.now }
    {
        self.graph
    }

    /// The chosen path: of all paths that have the fewest makers, the one with the least numbers at
    /// the first difference. `None` where there is no path.
    pub fn plan(&self, alloc: Global, from: u32, to: u32) -> Result<Option<Seq<u32>>, Memory>
        requires from { from < length (types self.now) }
        requires to { to < length (types self.now) }
        ensures ok { IfOk result (λ path. path ≡ chosen_path self.now from to) }
        ensures chosen { IfOk result (IsChosen self.now from to) }
    {
        let plans = self.plans;
        let near = plans.nears.as_slice()[to as usize].as_slice();
        let makers = plans.makers.as_slice();
        let takers = plans.takers.as_slice();
        route(alloc, self.graph, makers, takers, near, from)
    }

    /// The maker that is the chosen path by itself, with the type that it makes. There is none where the one type is the other, where the
    /// chosen path has more makers, and where there is no path.
    pub fn direct(&self, from: u32, to: u32) -> Option<(u32, u32)>
        requires from { from < length (types self.now) }
        requires to { to < length (types self.now) }
        ensures path { IfSome result (λ found.
            chosen_path self.now from to ≡ Some (found.0 ∷ [])) }
        ensures makes { let made = made_of self.now from in
            IfSome result (λ found.
            Some found.1 ≡ option_and_then made (slice_get (makers self.now) found.0)) }
    {
        if self.graph.is_a(from, to) {
            return None;
        }
        let plans = self.plans;
        direct(self.graph, plans.makers.as_slice(), from, to)
    }

    /// What the maker of a number makes of a type, where it takes it. No name is looked up for it.
    pub fn made_type(&self, from: u32, number: u32) -> Option<u32>
        requires from { from < length (types self.now) }
        ensures { let maker = slice_get (makers self.now) number in
            result ≡ option_and_then (made_of self.now from) maker }
    {
        let plans = self.plans;
        let maker = plans.makers.as_slice().get(number as usize)?;
        made_by(self.graph, *maker, from)
    }
}

// What a maker with these ends makes of a type, where it takes it.
fn made_by(graph: &Graph, maker: Ends, from: u32) -> Option<u32>
    requires ends { AreTypes graph.now maker }
    requires from { from < length (types graph.now) }
    ensures { result ≡ made_by graph.now from maker }
{
    let taken = maker.from?;
    if !graph.is_a(from, taken) {
        return None;
    }
    maker.to
}
