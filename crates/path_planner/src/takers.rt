// Which makers take each type.
ghost use Rattle.std.specs.Prelude.{◌≡◌, ◌<◌, IfOk, OnOk, cond, length, ◌++◌, ◌∷◌, []};
ghost use Rattle.meaning_graph.specs.Graphs.{types};
ghost use Rattle.path_planner.specs.Ends.{ends_in, takers_in, takers_of, takes, AreTypes};

use crate::route::Ends;
use object_values::{Memory, Seq};
use std::alloc::Global;
use type_graph::Graph;

/// For each type the numbers of the makers that take it, the least first.
pub(crate) fn takers(alloc: Global, graph: &Graph, makers: &[Ends]) -> Result<Seq<Seq<u32>>, Memory>
    requires made { makers.now ≡ ends_in graph.now }
    ensures { IfOk result (λ takers. takers ≡ takers_in graph.now) }
{
    let mut takers = Seq::new(alloc);
    for a in 0..graph.type_count() {
        takers.push(takers_of(alloc, graph, makers, a)?)?;
    }
    Ok(takers)
}

fn takers_of(alloc: Global, graph: &Graph, makers: &[Ends], a: u32) -> Result<Seq<u32>, Memory>
    requires made { makers.now ≡ ends_in graph.now }
    requires a { a < length (types graph.now) }
    ensures { IfOk result (λ takers. takers ≡ takers_of graph.now a) }
{
    let mut takers = Seq::new(alloc);
    for number in 0..graph.maker_count() {
        add_taker(&mut takers, graph, makers[number as usize], number, a)?;
    }
    Ok(takers)
}

// Adds the maker's number, where it takes the type.
fn add_taker(
    takers: &mut Seq<u32>,
    graph: &Graph,
    maker: Ends,
    number: u32,
    a: u32,
) -> Result<(), Memory>
    requires ends { AreTypes graph.now maker }
    requires a { a < length (types graph.now) }
    ensures { let added = takers.old ++ number ∷ [] in
        OnOk result (takers.new ≡ cond (takes graph.now a maker.from) added takers.old) }
{
    if takes(graph, maker, a) {
        takers.push(number)?;
    }
    Ok(())
}

fn takes(graph: &Graph, maker: Ends, a: u32) -> bool
    requires ends { AreTypes graph.now maker }
    requires a { a < length (types graph.now) }
    ensures { result ≡ takes graph.now a maker.from }
{
    match maker.from {
        Some(from) => graph.is_a(a, from),
        None => false,
    }
}
