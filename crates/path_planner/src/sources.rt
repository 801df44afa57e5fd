// From which types makers lead to each type.
ghost use Rattle.std.specs.Prelude.{◌≡◌, ◌<◌, ℕ, IfOk, IfNone, IfSome, OnOk, length};
ghost use Rattle.meaning_graph.specs.Graphs.{types};
ghost use Rattle.path_planner.specs.Ends.{ends_in, from_to};
ghost use Rattle.path_planner.specs.Near.{AddsAllBelow, AreSourceLists, LeadTo};

use crate::route::Ends;
use object_values::{Memory, Seq};
use std::alloc::Global;
use type_graph::Graph;

/// For each type the types from which a maker leads to it. One stands there once for each such maker.
pub(crate) fn sources(
    alloc: Global,
    graph: &Graph,
    makers: &[Ends],
) -> Result<Seq<Seq<u32>>, Memory>
    requires made { makers.now ≡ ends_in graph.now }
    ensures { IfOk result (AreSourceLists graph.now) }
{
    let mut sources = Seq::new(alloc);
    for to in 0..graph.type_count() {
        sources.push(sources_of(alloc, graph, makers, to)?)?;
    }
    Ok(sources)
}

fn sources_of(alloc: Global, graph: &Graph, makers: &[Ends], to: u32) -> Result<Seq<u32>, Memory>
    requires made { makers.now ≡ ends_in graph.now }
    ensures { IfOk result (LeadTo graph.now to) }
{
    let mut sources = Seq::new(alloc);
    for maker in makers {
        if let Some(from) = taken_for(*maker, to) {
            add_below(&mut sources, graph, from)?;
        }
    }
    Ok(sources)
}

// What the maker takes, where it makes this type.
fn taken_for(maker: Ends, to: u32) -> Option<u32>
    ensures some { IfSome result (λ from. maker ≡ from_to from to) }
    ensures none { IfNone result ((from : ℕ) → maker ≡ from_to from to → ⊥) }
{
    let from = maker.from?;
    let made = maker.to?;
    if made == to { Some(from) } else { None }
}

/// Adds the types that are this one.
pub(crate) fn add_below(sources: &mut Seq<u32>, graph: &Graph, of: u32) -> Result<(), Memory>
    requires of { of < length (types graph.now) }
    ensures { OnOk result (AddsAllBelow graph.now of sources.old sources.new) }
{
    for a in 0..graph.type_count() {
        if graph.is_a(a, of) {
            sources.push(a)?;
        }
    }
    Ok(())
}
