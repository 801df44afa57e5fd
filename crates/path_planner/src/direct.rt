// Paths of one maker, for which no distances are needed.
ghost use Rattle.std.specs.Prelude.{◌≡◌, ◌<◌, length};
ghost use Rattle.meaning_graph.specs.Graphs.{types};
ghost use Rattle.path_planner.specs.Ends.{ends_in, AreTypes};
ghost use Rattle.path_planner.specs.Direct.{IsLedByMaker, IsDirect};

use crate::route::Ends;
use type_graph::Graph;

/// The least maker that takes the one type and makes the other, with the type that it makes.
pub(crate) fn direct(graph: &Graph, makers: &[Ends], at: u32, to: u32) -> Option<(u32, u32)>
    requires made { makers.now ≡ ends_in graph.now }
    requires at { at < length (types graph.now) }
    requires to { to < length (types graph.now) }
    ensures { IsDirect graph.now at to result }
{
    for number in 0..graph.maker_count() {
        if let Some(next) = led(graph, makers[number as usize], at, to) {
            return Some((number, next));
        }
    }
    None
}

// What the maker makes of the one type, where that is the other.
fn led(graph: &Graph, maker: Ends, at: u32, to: u32) -> Option<u32>
    requires ends { AreTypes graph.now maker }
    requires at { at < length (types graph.now) }
    requires to { to < length (types graph.now) }
    ensures { IsLedByMaker graph.now maker at to result }
{
    let from = maker.from?;
    let next = maker.to?;
    if graph.is_a(at, from) && graph.is_a(next, to) {
        Some(next)
    } else {
        None
    }
}
