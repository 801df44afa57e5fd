// How many makers a path from each type has, at least.
ghost use Rattle.std.specs.Prelude.{◌≡◌, ◌<◌, ◌+◌, ◌^◌, ℕ, IfOk, OnOk, length};
ghost use Rattle.meaning_graph.specs.Graphs.{types};
ghost use Rattle.type_graph.specs.Walks.{AreBelow};
ghost use Rattle.path_planner.specs.Near.{AreSourceLists, IsAllNear, IsAtLevel, Reaches};

use crate::sources::add_below;
use object_values::{Memory, Seq};
use std::alloc::Global;
use std::mem;
use type_graph::Graph;

/// The distances so far, and the types at the last one.
struct Search {
    near: Vec<Option<u32>>,
    front: Vec<u32>,
}

impl Drop for Search {
    fn drop(self) {
        let Search { near, front } = self;
        drop(near);
        drop(front);
    }
}

impl Search {
    // Gives this distance to those of the types that have none yet.
    fn reach(&mut self, numbers: &[u32], distance: u32) -> Result<(), Memory>
        requires { AreBelow (length self.old.near.items) numbers.now }
        ensures { OnOk result (Reaches distance numbers.now self.old.near.items self.old.front.items
            self.new.near.items self.new.front.items) }
    {
        for number in numbers {
            if self.near[*number as usize].is_none() {
                self.near[*number as usize] = Some(distance);
                self.front.push(*number)?;
            }
        }
        Ok(())
    }

    // Goes to the next level: to the types from which a maker leads to a type at this one.
    fn widen(
        &mut self,
        alloc: Global,
        graph: &Graph,
        sources: &[Seq<u32>],
        level: u32,
    ) -> Result<(), Memory>
        requires sources { AreSourceLists graph.now sources.now }
        requires sized { length self.old.near.items ≡ length (types graph.now) }
        requires small { level + 1 < 2 ^ 32 }
        requires at { (to : ℕ) × IsAtLevel graph.now to level self.old.near.items
            self.old.front.items }
        ensures { (to : ℕ) → IsAtLevel graph.now to level self.old.near.items self.old.front.items
            → OnOk result (IsAtLevel graph.now to (level + 1) self.new.near.items
            self.new.front.items) }
    {
        let front = mem::replace(&mut self.front, Vec::new(alloc));
        for number in &front {
            self.reach(sources[*number as usize].as_slice(), level + 1)?;
        }
        Ok(())
    }

    fn into_near(self) -> Seq<Option<u32>>
        ensures { result ≡ self.near.items }
    {
        let Search { near, front } = self;
        drop(front);
        Seq::from_vec(near)
    }
}

/// The length of the shortest paths from each type to this one, where there are paths. Each type is looked at once, with what leads to it.
pub(crate) fn distances(
    alloc: Global,
    graph: &Graph,
    sources: &[Seq<u32>],
    to: u32,
) -> Result<Seq<Option<u32>>, Memory>
    requires sources { AreSourceLists graph.now sources.now }
    requires to { to < length (types graph.now) }
    ensures { IfOk result (λ near. IsAllNear graph.now to near) }
{
    let mut first = Seq::new(alloc);
    add_below(&mut first, graph, to)?;
    let mut search = Search {
        near: vec![in alloc; None; graph.type_count() as usize]?,
        front: Vec::new(alloc),
    };
    search.reach(first.as_slice(), 0)?;
    for level in 0..graph.type_count() {
        if search.front.is_empty() {
            break;
        }
        search.widen(alloc, graph, sources, level)?;
    }
    Ok(search.into_near())
}
