// The way along the distances, by the least maker numbers.
ghost use Rattle.std.specs.Prelude.{◌≡◌, ◌<◌, ℕ, IfOk, length};
ghost use Rattle.meaning_graph.specs.Graphs.{types};
ghost use Rattle.meaning_graph.specs.Paths.{chosen_path};
ghost use Rattle.path_planner.specs.Ends.{ends_in, takers_in, takers_of, AreTypes};
ghost use Rattle.path_planner.specs.Near.{IsAllNear, IsLead, IsNearer};

use object_values::{Memory, Seq};
use std::alloc::Global;
use type_graph::Graph;

/// The numbers of the types that a maker takes and makes, where they are declared.
#[derive(Clone, Copy)]
pub(crate) struct Ends {
    pub(crate) from: Option<u32>,
    pub(crate) to: Option<u32>,
}

/// The path from a type that goes one nearer at each maker, by the least number.
pub(crate) fn route(
    alloc: Global,
    graph: &Graph,
    makers: &[Ends],
    takers: &[Seq<u32>],
    near: &[Option<u32>],
    from: u32,
) -> Result<Option<Seq<u32>>, Memory>
    requires made { makers.now ≡ ends_in graph.now }
    requires takers { takers.now ≡ takers_in graph.now }
    requires sized { length near.now ≡ length (types graph.now) }
    requires from { from < length (types graph.now) }
    ensures { (to : ℕ) → IsAllNear graph.now to near.now
        → IfOk result (λ path. path ≡ chosen_path graph.now from to) }
{
    let Some(mut left) = near[from as usize] else {
        return Ok(None);
    };
    let mut at = from;
    let mut path = Seq::new(alloc);
    while left > 0 {
        left -= 1;
        let takers = takers[at as usize].as_slice();
        let Some((number, next)) = nearer(graph, makers, takers, near, at, left) else {
            // This is never so, since a type at a distance has a path.
            return Ok(None);
        };
        path.push(number)?;
        at = next;
    }
    Ok(Some(path))
}

// The least maker that takes the type and makes one at this distance, with the type that it makes.
fn nearer(
    graph: &Graph,
    makers: &[Ends],
    takers: &[u32],
    near: &[Option<u32>],
    at: u32,
    distance: u32,
) -> Option<(u32, u32)>
    requires made { makers.now ≡ ends_in graph.now }
    requires takers { takers.now ≡ takers_of graph.now at }
    requires sized { length near.now ≡ length (types graph.now) }
    requires at { at < length (types graph.now) }
    ensures { IsNearer graph.now near.now at distance result }
{
    for number in takers {
        if let Some(next) = lead(graph, makers[*number as usize], near, at, distance) {
            return Some((*number, next));
        }
    }
    None
}

// What the maker makes of the type, where that is at the distance.
fn lead(graph: &Graph, maker: Ends, near: &[Option<u32>], at: u32, distance: u32) -> Option<u32>
    requires ends { AreTypes graph.now maker }
    requires sized { length near.now ≡ length (types graph.now) }
    requires at { at < length (types graph.now) }
    ensures { IsLead graph.now maker near.now at distance result }
{
    let from = maker.from?;
    let to = maker.to?;
    if graph.is_a(at, from) && near[to as usize] == Some(distance) {
        Some(to)
    } else {
        None
    }
}
