// What a store notes of nodes, and what they come to at present, where it may be so.
ghost use Rattle.std.specs.Prelude.{◌≡◌, ◌≢◌, [], All, IsTrue, OnOk};
ghost use Rattle.object_values.specs.declared.facts.Fresh.{Fresh as FreshValue};
ghost use Rattle.meaning_graph.specs.Grammar.{GraphText};
ghost use Rattle.meaning_records.specs.Batches.{facts_of};
ghost use Rattle.kept_tables.specs.Holdings.{MayRenew};
ghost use Rattle.odin_journal.specs.Rest.{IsReady};
ghost use Rattle.odin_store.specs.Changes.{StoreMayNote};
ghost use Rattle.odin_store.specs.OnDisk.{StoreAfter};
ghost use Rattle.validator.specs.Fitting.{FactFits};

use crate::notable::{are_notable, is_valued};
use object_values::{Fresh, Node, Renewed};
use odin_outside::Disk;
use odin_store::{Store, StoreFault};
use std::alloc::Global;
use type_graph::Graph;
use validator::fits_record;

/// Notes facts of nodes, where there are some, all of them may be noted, and all fit the graph, which is the store's and has this text. `false` where
/// nothing is noted.
pub fn note<D: Disk>(
    alloc: Global,
    store: &mut Store,
    disk: &mut D,
    graph: &Graph,
    text: &[u8],
    fresh: &[Fresh],
) -> Result<bool, StoreFault>
    requires ready { IsReady store.old.journal (D.size_of disk.old) }
    requires spelled { GraphText text.now graph.now }
    requires same { store.old.graph ≡ text.now }
    ensures left { StoreAfter store.new (D.size_of disk.new) result }
    ensures graph { OnOk result (store.new.graph ≡ store.old.graph) }
{
    if fresh.is_empty() || !are_notable(fresh) || !all_fit(graph, fresh) {
        return Ok(false);
    }
    note_some(alloc, store, disk, fresh)?;
    Ok(true)
}

// Notes some facts.
fn note_some<D: Disk>(
    alloc: Global,
    store: &mut Store,
    disk: &mut D,
    fresh: &[Fresh],
) -> Result<(), StoreFault>
    requires may { StoreMayNote store.old (D.size_of disk.old) fresh.now }
    requires some { fresh.now ≢ [] }
    ensures left { StoreAfter store.new (D.size_of disk.new) result }
    ensures graph { OnOk result (store.new.graph ≡ store.old.graph) }
{
    store.keep_nodes(alloc, disk, fresh)
}

fn all_fit(graph: &Graph, fresh: &[Fresh]) -> bool
    ensures { IsTrue result → All (FactFits graph.now) (facts_of fresh.now) }
{
    each_fits(graph, fresh)
}

fn each_fits(graph: &Graph, fresh: &[Fresh]) -> bool
    ensures { IsTrue result → All (λ (f : FreshValue). FactFits graph.now f.fact) fresh.now }
{
    fresh.iter().all(|node| fits_record(graph, &node.fact))
}

/// Says what a node comes to at present, where something is noted of it and it may come to that. `false` where it isn't said.
pub fn renew(store: &mut Store, node: &Node, present: Renewed) -> bool
    ensures journal { store.new.journal ≡ store.old.journal }
    ensures graph { store.new.graph ≡ store.old.graph }
{
    if !may_renew(store, node, &present) {
        return false;
    }
    store.renew(node, present);
    true
}

fn may_renew(store: &Store, node: &Node, present: &Renewed) -> bool
    ensures { IsTrue result → MayRenew store.now.kept node.now present.now }
{
    match store.kept().get(node) {
        Some(noted) => {
            present.height >= 1
                && present.height <= 64
                && is_valued(noted.value.is_none(), present.status)
        }
        None => false,
    }
}
