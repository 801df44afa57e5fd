// What is noted of a node that was settled.
ghost use Rattle.std.specs.Prelude.{◌≡◌, ◌+◌, ◌++◌, ◌∷◌, [], None, length, map, option_map, OnOk, IfOk};
ghost use Rattle.meaning_graph.specs.Graphs.{Graph as GraphValue};
ghost use Rattle.meaning_derive.specs.Derive.{Outcomes};
ghost use Rattle.derive_walk.specs.Noting.{IsNoteOf, MayNote, all_deps, dep_now, found_or, fresh_by, is_at, tight_in, value_of_done};

use crate::done::{Done, Table};
use node_tasks::{Needed, Settled};
use object_values::{
    Copied, Fact, FactDep, Fresh, Memory, Node, Renewed, Role, Seq, SharedSeq, Value,
};
use std::alloc::Global;
use task_needs::{Counted, listed};

/// The deps of a record, one after another, and the place of the first that has the height.
struct NotedDeps {
    deps: Seq<FactDep>,
    tight: Option<u32>,
}

impl Drop for NotedDeps {
    fn drop(self) {
        let NotedDeps { deps, tight: _ } = self;
        drop(deps);
    }
}

impl NotedDeps {
    fn new(alloc: Global) -> Self
        ensures { result ≡ record { deps = []; tight = None } }
    {
        NotedDeps {
            deps: Seq::new(alloc),
            tight: None,
        }
    }

    /// Puts a dep after those that are there. More of them than can be counted want more memory than
    /// there is.
    fn put(&mut self, dep: FactDep, fits: bool) -> Result<(), Memory>
        ensures deps { OnOk result (self.new.deps ≡ self.old.deps ++ dep ∷ []) }
        ensures tight { OnOk result
            (self.new.tight ≡ found_or self.old.tight fits (length self.old.deps)) }
    {
        if fits && self.tight.is_none() {
            let Ok(place) = u32::try_from(self.deps.len()) else {
                return Err(Memory);
            };
            self.tight = Some(place);
        }
        self.deps.push(dep)
    }

    /// Puts the dep of a node, with what is seen of its result.
    fn put_node(
        &mut self,
        alloc: Global,
        done: &Table,
        below: u32,
        role: Role,
        node: Node,
    ) -> Result<(), Memory>
        ensures deps { OnOk result
            (self.new.deps ≡ self.old.deps ++ dep_now done.now role node ∷ []) }
        ensures tight { self.old.tight ≡ tight_in done.now below self.old.deps →
            OnOk result (self.new.tight ≡ tight_in done.now below self.new.deps) }
    {
        let entry = done.entry(&node);
        let fits = is_at(entry, below);
        let value = value_now(alloc, entry)?;
        self.put(FactDep { node, role, value }, fits)
    }

    /// The same of each of the nodes.
    fn put_all(
        &mut self,
        alloc: Global,
        done: &Table,
        below: u32,
        role: Role,
        nodes: Seq<Node>,
    ) -> Result<(), Memory>
        ensures deps { OnOk result
            (self.new.deps ≡ self.old.deps ++ map (dep_now done.now role) nodes) }
        ensures tight { self.old.tight ≡ tight_in done.now below self.old.deps →
            OnOk result (self.new.tight ≡ tight_in done.now below self.new.deps) }
    {
        for node in nodes.into_vec() {
            self.put_node(alloc, done, below, role, node)?;
        }
        Ok(())
    }

    /// The record, with what the node itself gave and what it comes to.
    fn into_fresh(
        self,
        alloc: Global,
        node: &Node,
        settled: &Settled,
        height: u32,
    ) -> Result<Fresh, Memory>
        ensures { IfOk result (λ fresh. fresh ≡
            fresh_by node.now self.deps settled.now height self.tight) }
    {
        let NotedDeps { deps, tight } = self;
        let present = Renewed {
            status: settled.view.status,
            messages: settled.view.messages.copy(alloc)?,
            height,
            tight,
        };
        let own_messages = settled.own_messages.copy(alloc)?;
        let fact = Fact {
            node: node.copy(alloc)?,
            deps,
            value: settled.view.value.copy(alloc)?,
            own_status: settled.own_status,
            own_messages: SharedSeq::of(own_messages)?,
        };
        Ok(Fresh { fact, present })
    }
}

/// What is noted of a node with steps that was settled over the results of its needs.
pub(crate) fn note_of(
    alloc: Global,
    done: &Table,
    node: &Node,
    needed: &Needed,
    settled: &Settled,
    height: u32,
) -> Result<Fresh, Memory>
    ensures { (g : GraphValue) (outcomes : Outcomes) →
        MayNote g outcomes done.now node.now needed.now settled.now height →
        IfOk result (IsNoteOf g outcomes done.now node.now settled.now height) }
{
    let deps = deps_of(alloc, done, needed, height.saturating_sub(1))?;
    deps.into_fresh(alloc, node, settled, height)
}

// The counted needs, and after them the reached sources.
fn deps_of(alloc: Global, done: &Table, needed: &Needed, below: u32) -> Result<NotedDeps, Memory>
    ensures deps { IfOk result (λ made. made.deps ≡ all_deps done.now needed.now) }
    ensures tight { IfOk result (λ made. made.tight ≡ tight_in done.now below made.deps) }
{
    let counted = listed(alloc, &needed.counted, &[], done)?;
    let reached = listed(alloc, &Counted::new(alloc), needed.names.as_slice(), done)?;
    let mut deps = NotedDeps::new(alloc);
    deps.put_all(alloc, done, below, Role::Needed, counted)?;
    deps.put_all(alloc, done, below, Role::Reached, reached)?;
    Ok(deps)
}

fn is_at(entry: Option<&Done>, height: u32) -> bool
    ensures { result ≡ is_at (option_map (λ d. d.now) entry.entry) height }
{
    match entry {
        Some(done) => done.height == height,
        None => false,
    }
}

// The value of a result. What has none, has no value.
fn value_now(alloc: Global, entry: Option<&Done>) -> Result<Option<Value>, Memory>
    ensures { IfOk result
        (λ value. value ≡ value_of_done (option_map (λ d. d.now) entry.entry)) }
{
    match entry {
        Some(done) => done.view.value.copy(alloc),
        None => Ok(None),
    }
}
