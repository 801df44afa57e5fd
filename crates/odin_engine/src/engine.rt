// The engine: its opening, and the edits of the sources.
ghost use Rattle.std.specs.Prelude.{◌≡◌, ◌+◌, length, IfOk, IfErr, OnOk};
ghost use Rattle.kept_derive.specs.Knowing.{StaysKnown};
ghost use Rattle.odin_journal.specs.Faults.{JournalFaultIsCounted};
ghost use Rattle.odin_journal.specs.Moments.{Works};
ghost use Rattle.odin_journal.specs.Rest.{IsReady};
ghost use Rattle.odin_store.specs.Held.{puts, drops};
ghost use Rattle.odin_store.specs.OnDisk.{BeginsOnce, StoreAfter, StoreIsOpen};
ghost use Rattle.odin_store.specs.Opening.{graph_record, OpensQuietStore};
ghost use Rattle.odin_store.specs.Changes.{DropBatch, MayPut, PutBatch};
ghost use Rattle.odin_store.specs.Edited.{HasFailed, HasPut, HasDropped};
ghost use Rattle.odin_engine.specs.Asked.{IsNodeOf, IsRefusedFor};
ghost use Rattle.odin_engine.specs.Engaged.{GraphStays};
ghost use Rattle.odin_engine.specs.Opened.{EngineIsNew, IsEngineOpenFault, IsSettleFault, LeavesEngineOpening, LeavesSettled, MayOpen, OpensQuietEngine, Settles};

use crate::asked::node_of_text;
use crate::fault::AskFault;
use object_values::{Node, Text};
use odin_bytes::Name;
use odin_outside::Disk;
use odin_store::laws::edits_are_told;
use odin_store::{Store, StoreFault};
use path_planner::{PlannedGraph, Plans};
use std::alloc::Global;
use std::marker::Model;
use type_graph::Graph;

/// A graph with its paths, over a store of sources, kept calls and records of nodes. Its disk is lent to it call by call: the one of the opening, as the
/// last call left it. After a fault of the disk it is used no more.
pub struct Engine {
    pub(crate) graph: Graph,
    pub(crate) plans: Plans,
    pub(crate) jobs: u32,
    pub(crate) store: Store,
}

impl Drop for Engine {
    fn drop(self) {
        let Engine {
            graph,
            plans,
            jobs: _,
            store,
        } = self;
        drop(graph);
        drop(plans);
        drop(store);
    }
}

impl Model for Engine {
    ghost use Rattle.std.specs.Prelude.{◌≡◌};
    ghost use Rattle.meaning_graph.specs.Grammar.{IsSpellable};
    ghost use Rattle.path_planner.specs.Ends.{plans_of};
    ghost use Rattle.std.specs.Coded.{codes};
    ghost use Rattle.odin_store.specs.contracts.store.Store as held;
    ghost use Rattle.odin_engine.specs.Engaged.{Engaged, IsLimit, IsStoreFor};

    ghost Value = { Engaged };

    ghost coded = { Prim.hlevel (codes, held.the_row.coded) };

    ghost view = { λ e. record { graph = e.graph; jobs = e.jobs; store = e.store } };

    ghost invariant = { λ e.
        (e.plans ≡ plans_of e.graph) × IsSpellable e.graph × IsLimit e.jobs
        × IsStoreFor e.graph e.store };
}

impl Engine {
    /// Opens the store in a file for the graph of this text, and compacts it where it is wasteful. At most so many tools run at a time, from 1 to 64.
    pub fn open<D: Disk>(
        alloc: Global,
        disk: &mut D,
        graph: Graph,
        text: &[u8],
        jobs: u32,
    ) -> Result<Engine, StoreFault>
        requires { MayOpen text.now graph jobs }
        ensures opened { IfOk result (λ engine.
            OpensQuietEngine D.told text.now disk.old disk.new engine.store) }
        ensures new { IfOk result (EngineIsNew graph jobs (D.size_of disk.new)) }
        ensures any_moment { LeavesEngineOpening D.told text.now disk.old disk.new }
        ensures refused { IfErr result (IsEngineOpenFault D.told text.now disk.old disk.new) }
        // In an empty file no store is wasteful.
        ensures empty { D.size_of disk.old ≡ 0 → IfOk result (λ engine.
            OpensQuietStore text.now (D.told disk.old) (D.told disk.new) engine.store) }
        ensures works { D.size_of disk.old ≡ 0
            → Works (72 + length (graph_record text.now)) 20 (D.told disk.old) (D.told disk.new) }
        ensures cause { JournalFaultIsCounted (D.faults disk.old) (D.faults disk.new) result }
    {
        let plans = Plans::new(alloc, &graph)?;
        let mut store = Store::open(alloc, disk, &graph, text)?;
        settle(alloc, disk, &mut store)?;
        store.kept().records_fit();
        Ok(Engine {
            graph,
            plans,
            jobs,
            store,
        })
    }

    /// Gives a source a text. `false` where it has it, and then nothing is written.
    pub fn put<D: Disk>(
        &mut self,
        alloc: Global,
        disk: &mut D,
        name: &Name,
        text: &Text,
    ) -> Result<bool, StoreFault>
        requires { MayPut self.old.store (D.size_of disk.old) text.now }
        ensures ok { IfOk result
            (HasPut D.told name.now text.now self.old.store self.new.store disk.old disk.new) }
        ensures err { IfErr result (HasFailed D.told (puts name.now text.now)
            self.old.store self.new.store disk.old disk.new) }
        ensures knows { OnOk result (StaysKnown self.old.store self.new.store) }
        ensures stays { GraphStays self.old self.new }
        ensures left { StoreAfter self.new.store (D.size_of disk.new) result }
        ensures begins { BeginsOnce (PutBatch self.old.store name.now text.now) self.old.store
            (D.told disk.old) (D.told disk.new) }
        ensures cause { JournalFaultIsCounted (D.faults disk.old) (D.faults disk.new) result }
    {
        edits_are_told::<D>();
        self.store.kept().records_fit();
        self.store.stamps_fit();
        let put = self.store.put_source(alloc, disk, name, text);
        self.store.kept().records_fit();
        put
    }

    /// Takes a source away. `false` where there is none, and then nothing is written.
    pub fn remove<D: Disk>(
        &mut self,
        alloc: Global,
        disk: &mut D,
        name: &Name,
    ) -> Result<bool, StoreFault>
        requires { StoreIsOpen self.old.store (D.size_of disk.old) }
        ensures ok { IfOk result
            (HasDropped D.told name.now self.old.store self.new.store disk.old disk.new) }
        ensures err { IfErr result (HasFailed D.told (drops name.now)
            self.old.store self.new.store disk.old disk.new) }
        ensures knows { OnOk result (StaysKnown self.old.store self.new.store) }
        ensures stays { GraphStays self.old self.new }
        ensures left { StoreAfter self.new.store (D.size_of disk.new) result }
        ensures begins { BeginsOnce (DropBatch name.now) self.old.store
            (D.told disk.old) (D.told disk.new) }
        ensures cause { JournalFaultIsCounted (D.faults disk.old) (D.faults disk.new) result }
    {
        edits_are_told::<D>();
        self.store.kept().records_fit();
        self.store.stamps_fit();
        let dropped = self.store.drop_source(alloc, disk, name);
        self.store.kept().records_fit();
        dropped
    }

    /// The node that a text asks for.
    pub fn plan(&self, alloc: Global, text: &[u8]) -> Result<Node, AskFault>
        ensures ok { IfOk result (IsNodeOf self.now.graph text.now) }
        ensures err { IfErr result (IsRefusedFor self.now.graph text.now) }
    {
        node_of_text(alloc, &self.planned(), text)
    }

    pub fn store(&self) -> &Store
        ensures { result.now ≡ self.now.store }
    {
        &self.store
    }

    pub fn graph(&self) -> &Graph
        ensures { result.now ≡ self.now.graph }
    {
        &self.graph
    }

    /// How many tools may run at once.
    pub fn jobs(&self) -> u32
        ensures { result ≡ self.now.jobs }
    {
        self.jobs
    }

    fn planned(&self) -> PlannedGraph<'_>
        ensures { result ≡ self.now.graph }
    {
        PlannedGraph::new(&self.graph, &self.plans)
    }
}

// Compacts an opened store where it is wasteful. Where a copy fits in neither place it stays as it is.
fn settle<D: Disk>(alloc: Global, disk: &mut D, store: &mut Store) -> Result<(), StoreFault>
    requires { IsReady store.old.journal (D.size_of disk.old) }
    ensures ok { OnOk result (Settles D.told store.old store.new disk.old disk.new) }
    ensures any_moment { LeavesSettled D.told store.old disk.old disk.new }
    ensures err { IfErr result (IsSettleFault store.old disk.old disk.new) }
    ensures ready { OnOk result (IsReady store.new.journal (D.size_of disk.new)) }
    ensures cause { JournalFaultIsCounted (D.faults disk.old) (D.faults disk.new) result }
{
    if store.wasteful(alloc)? {
        let _ = store.compact(alloc, disk)?;
    }
    Ok(())
}
