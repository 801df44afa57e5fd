// The store, over a disk that it is lent call by call.
ghost use Rattle.std.specs.Prelude.{◌≡◌, ◌≢◌, ◌+◌, ◌≤◌, [], length, Some, IsSome, IfOk, IfErr, OnOk, IsTrue, IsFalse};
ghost use Rattle.std.specs.FinMap as map;
ghost use Rattle.odin_journal.specs.Faults.{JournalFaultIsCounted, IsRefused};
ghost use Rattle.odin_journal.specs.Moments.{Works};
ghost use Rattle.odin_journal.specs.Rest.{IsReady};
ghost use Rattle.meaning_texts.specs.Classes.{IsName};
ghost use Rattle.meaning_texts.specs.Limits.{body_limit, graph_limit};
ghost use Rattle.meaning_derive.specs.Given.{AreSources};
ghost use Rattle.meaning_records.specs.Batches.{drop_batch, facts_of, graph_batch};
ghost use Rattle.meaning_records.specs.States.{spell_batch};
ghost use Rattle.kept_records.specs.Records.{renew_record};
ghost use Rattle.kept_tables.specs.Holdings.{MayRenew, PreparesSome};
ghost use Rattle.odin_store.specs.Held.{NotedFits, NotedPass, puts, drops, keeps, notes};
ghost use Rattle.odin_store.specs.Stamps.{AreStampedBy, AreUnchecked};

use crate::loading::{Loading, first_gate, load_records};
use kept_tables::{Kept, Prepared};
use meaning_graph::text_laws::graph_is_one;
use meaning_records::laws::{batches_read, last_were_noted, reads_in_one_way};
use object_values::{Bytes, Call, Copied, Fresh, Memory, Node, Outcome, Renewed, Sources, Text};
use odin_bytes::{Name, put_bytes, put_u8};
use odin_journal::{Journal, JournalFault};
use odin_outside::Disk;
use std::alloc::Global;
use type_graph::Graph;
use validator::laws::fitting_is_tested;

/// Sources, kept calls and records of nodes, for a graph, over a disk that is lent call by call: the one of the opening, as the last call left it. After
/// a fault of the disk it is spent. Whatever its file had, the sources are names with texts of at most 16,777,216 bytes, no record of a node counts as
/// checked after the epoch, and all that it has of nodes fits the graph of its text.
pub struct Store {
    pub(crate) journal: Journal,
    pub(crate) kept: Kept,
    pub(crate) sources: Sources,
    pub(crate) graph: Text,
    epoch: u64,
    ghost are: { AreSources sources.texts },
    ghost stamped: { AreStampedBy epoch kept.records.records },
    ghost fits: { NotedPass graph kept.tables.records },
}

impl Drop for Store {
    fn drop(self) {
        let Store {
            journal,
            kept,
            sources,
            graph,
            epoch: _,
        } = self;
        drop(journal);
        drop(kept);
        drop(sources);
        drop(graph);
    }
}

impl Store {
    ghost use Rattle.odin_store.specs.OnDisk.{BeginsOnce, HoldsOn, IsChangeFault, StoreAfter, StoreIsOpen, IsSame, KeepsNodes, LeavesChange};
    ghost use Rattle.odin_store.specs.Opening.{graph_record, IsAtStart, IsOpened, IsStoreOpenFault, LeavesOpening, MayOpenStore, OpensQuietStore};
    ghost use Rattle.odin_store.specs.Changes.{CallBatch, DropBatch, DropsSource, KeepsCall, NotesBatch, NotesWhereSome, StoreMayKeep, StoreMayNote, MayPut, PutBatch, PutsText};

    /// Opens the store in a file for a graph of this text. Where the last graph text in the file is another, this one is added. A file in which a
    /// record counts that doesn't fit the graph isn't ours.
    pub fn open<D: Disk>(
        alloc: Global,
        disk: &mut D,
        graph: &Graph,
        text: &[u8],
    ) -> Result<Store, JournalFault>
        requires { MayOpenStore graph.now text.now }
        ensures opened { IfOk result
            (OpensQuietStore text.now (D.told disk.old) (D.told disk.new)) }
        ensures any_moment { LeavesOpening text.now (D.told disk.old) (D.told disk.new) }
        ensures refused { IfErr result
            (IsStoreOpenFault text.now (D.told disk.old) (D.told disk.new)) }
        ensures first { IfOk result (IsAtStart text.now (D.size_of disk.old)) }
        ensures ready { IfOk result (λ store. IsReady store.journal (D.size_of disk.new)) }
        ensures works { D.size_of disk.old ≡ 0
            → Works (72 + length (graph_record text.now)) 20 (D.told disk.old) (D.told disk.new) }
        ensures cause { JournalFaultIsCounted (D.faults disk.old) (D.faults disk.new) result }
    {
        graph_is_one();
        reads_in_one_way();
        last_were_noted();
        let (mut journal, records) = Journal::open(alloc, disk)?;
        let start = first_gate(journal.end(), records.as_slice());
        let mut loading = load_records(alloc, graph, text, records, start)?;
        let kept = graph_text(alloc, text)?;
        if loading.has_graph() {
            let known = Store::of(journal, loading, kept);
            return Ok(known);
        }
        let payload = graph_payload(alloc, text)?;
        journal.append(alloc, disk, payload.as_slice())?;
        loading.forget_records();
        let added = Store::of(journal, loading, kept);
        Ok(added)
    }

    // What was loaded, over a journal, with no edit counted.
    fn of(journal: Journal, loading: Loading<'_>, graph: Text) -> Store
        requires sources { AreSources loading.sources.texts }
        requires unchecked { AreUnchecked loading.kept.records.records }
        requires fits { NotedFits graph loading.kept.tables.records }
        ensures journal { result.journal ≡ journal }
        ensures kept { result.kept ≡ loading.entry.kept }
        ensures sources { result.sources ≡ loading.entry.sources }
        ensures opened { IsOpened graph result }
    {
        fitting_is_tested();
        let (kept, sources) = loading.into_parts();
        Store {
            journal,
            kept,
            sources,
            graph,
            epoch: 0,
        }
    }

    /// Gives a source a text. `false` where it has it, and then nothing is written.
    pub fn put_source<D: Disk>(
        &mut self,
        alloc: Global,
        disk: &mut D,
        name: &Name,
        text: &Text,
    ) -> Result<bool, JournalFault>
        requires { MayPut self.old (D.size_of disk.old) text.now }
        ensures puts { IfOk result
            (PutsText D.told name.now text.now self.old self.new disk.old disk.new) }
        ensures any_moment { LeavesChange (puts name.now text.now) self.old
            (D.told disk.old) (D.told disk.new) }
        ensures fault { IfErr result (IsChangeFault (PutBatch self.old name.now text.now)
            (puts name.now text.now) self.old) }
        ensures same { IsRefused result → IsSame self.old self.new disk.old disk.new }
        ensures left { StoreAfter self.new (D.size_of disk.new) result }
        ensures begins { BeginsOnce (PutBatch self.old name.now text.now) self.old
            (D.told disk.old) (D.told disk.new) }
        ensures cause { JournalFaultIsCounted (D.faults disk.old) (D.faults disk.new) result }
    {
        self.before_put(disk, name, text);
        if self.has_text(name, text) {
            return Ok(false);
        }
        let (source, shared, prepared) = self.prepare_put(alloc, name, text)?;
        self.journal.append_framed(disk, prepared.framed())?;
        self.kept.commit(prepared);
        let _ = self.sources.put(source, shared);
        self.epoch += 1;
        Ok(true)
    }

    /// Takes a source away. `false` where there is none, and then nothing is written.
    pub fn drop_source<D: Disk>(
        &mut self,
        alloc: Global,
        disk: &mut D,
        name: &Name,
    ) -> Result<bool, JournalFault>
        requires { StoreIsOpen self.old (D.size_of disk.old) }
        ensures drops { IfOk result
            (DropsSource D.told name.now self.old self.new disk.old disk.new) }
        ensures any_moment { LeavesChange (drops name.now) self.old
            (D.told disk.old) (D.told disk.new) }
        ensures fault { IfErr result
            (IsChangeFault (DropBatch name.now) (drops name.now) self.old) }
        ensures same { IsRefused result → IsSame self.old self.new disk.old disk.new }
        ensures left { StoreAfter self.new (D.size_of disk.new) result }
        ensures begins { BeginsOnce (DropBatch name.now) self.old
            (D.told disk.old) (D.told disk.new) }
        ensures cause { JournalFaultIsCounted (D.faults disk.old) (D.faults disk.new) result }
    {
        self.before_drop(disk, name);
        if !self.has_source(name) {
            return Ok(false);
        }
        let payload = drop_payload(alloc, name)?;
        self.journal.append(alloc, disk, payload.as_slice())?;
        let _ = self.sources.remove(name.as_slice());
        self.epoch += 1;
        Ok(true)
    }

    /// Keeps a call with its outcome.
    pub fn keep_call<D: Disk>(
        &mut self,
        alloc: Global,
        disk: &mut D,
        call: &Call,
        outcome: &Outcome,
    ) -> Result<(), JournalFault>
        requires { StoreMayKeep self.old (D.size_of disk.old) call.now outcome.now }
        ensures keeps { OnOk result (KeepsCall call.now outcome.now self.old self.new
            (D.told disk.old) (D.told disk.new)) }
        ensures any_moment { LeavesChange (keeps call.now outcome.now) self.old
            (D.told disk.old) (D.told disk.new) }
        ensures fault { IfErr result (IsChangeFault (CallBatch self.old call.now outcome.now)
            (keeps call.now outcome.now) self.old) }
        ensures same { IsRefused result → IsSame self.old self.new disk.old disk.new }
        ensures left { StoreAfter self.new (D.size_of disk.new) result }
        ensures begins { BeginsOnce (CallBatch self.old call.now outcome.now) self.old
            (D.told disk.old) (D.told disk.new) }
        ensures cause { JournalFaultIsCounted (D.faults disk.old) (D.faults disk.new) result }
    {
        reads_in_one_way();
        let prepared = self.kept.prepare_call(alloc, call, outcome)?;
        self.journal.append_framed(disk, prepared.framed())?;
        self.kept.commit(prepared);
        Ok(())
    }

    /// Notes facts of nodes, one after another, with what each node comes to at present, which counts as checked at this epoch. Nothing is written where
    /// there are none.
    pub fn keep_nodes<D: Disk>(
        &mut self,
        alloc: Global,
        disk: &mut D,
        fresh: &[Fresh],
    ) -> Result<(), JournalFault>
        requires { StoreMayNote self.old (D.size_of disk.old) fresh.now }
        ensures notes { OnOk result
            (NotesWhereSome D.told fresh.now self.old self.new disk.old disk.new) }
        ensures any_moment { LeavesChange (notes (facts_of fresh.now)) self.old
            (D.told disk.old) (D.told disk.new) }
        ensures fault { IfErr result (IsChangeFault (NotesBatch self.old fresh.now)
            (notes (facts_of fresh.now)) self.old) }
        ensures same { IsRefused result → IsSame self.old self.new disk.old disk.new }
        ensures left { StoreAfter self.new (D.size_of disk.new) result }
        ensures begins { BeginsOnce (NotesBatch self.old fresh.now) self.old
            (D.told disk.old) (D.told disk.new) }
        ensures cause { JournalFaultIsCounted (D.faults disk.old) (D.faults disk.new) result }
    {
        reads_in_one_way();
        batches_read();
        graph_is_one();
        fitting_is_tested();
        if fresh.is_empty() {
            return Ok(());
        }
        let prepared = self.kept.prepare_nodes(alloc, fresh, self.epoch)?;
        self.journal.append_framed(disk, prepared.framed())?;
        self.kept.commit(prepared);
        Ok(())
    }

    /// Says what a node comes to at present, checked at this epoch. No file has it, so what is held stays, and it takes no memory.
    pub fn renew(&mut self, node: &Node, present: Renewed)
        requires { MayRenew self.old.kept node.now present }
        ensures renewed { self.new.kept.records.records
            ≡ renew_record node.now present self.old.epoch self.old.kept.records.records }
        ensures same { HoldsOn self.old self.new }
    {
        self.kept.renew(node, present, self.epoch);
    }

    pub fn sources(&self) -> &Sources
        ensures { result.now ≡ self.now.sources }
    {
        &self.sources
    }

    /// How many edits changed the sources since the opening.
    pub fn epoch(&self) -> u64
        ensures { result ≡ self.now.epoch }
    {
        self.epoch
    }

    pub fn kept(&self) -> &Kept
        ensures { result.now ≡ self.now.kept }
    {
        &self.kept
    }

    /// No record of a node counts as checked after the epoch, so none does at the epoch of an edit until it is renewed or noted.
    pub fn stamps_fit(&self)
        ensures { AreStampedBy self.now.epoch self.now.kept.records.records }
    {}

    /// What the store has of nodes fits the graph of its text, whatever its file had.
    pub fn facts_fit(&self)
        ensures { NotedFits self.now.graph self.now.kept.tables.records }
    {
        fitting_is_tested();
    }

    /// Where the closed gate stands that ends the records.
    pub fn end(&self) -> u64
        ensures { result ≡ self.now.journal.end }
    {
        self.journal.end()
    }

    pub fn spent(&self) -> bool
        ensures { result ≡ self.now.journal.spent }
    {
        self.journal.spent()
    }

    // Before a put writes, a crash leaves what is held, and no batch is begun.
    fn before_put<D: Disk>(&self, disk: &D, name: &Name, text: &Text)
        ensures leaves { LeavesChange (puts name.now text.now) self.now
            (D.told disk.now) (D.told disk.now) }
        ensures begins { BeginsOnce (PutBatch self.now name.now text.now) self.now
            (D.told disk.now) (D.told disk.now) }
    {}

    // Before a drop writes, a crash leaves what is held, and no batch is begun.
    fn before_drop<D: Disk>(&self, disk: &D, name: &Name)
        ensures leaves { LeavesChange (drops name.now) self.now
            (D.told disk.now) (D.told disk.now) }
        ensures begins { BeginsOnce (DropBatch name.now) self.now
            (D.told disk.now) (D.told disk.now) }
    {}

    // Whether the source has this text.
    fn has_text(&self, name: &Name, text: &Text) -> bool
        ensures yes { IsTrue result → map.get self.now.sources.texts name.now ≡ Some text.now }
        ensures no { IsFalse result → map.get self.now.sources.texts name.now ≢ Some text.now }
    {
        match self.sources.get(name.as_slice()) {
            Some(there) => there.as_slice() == text.as_slice(),
            None => false,
        }
    }

    // Whether the source is there.
    fn has_source(&self, name: &Name) -> bool
        ensures yes { IsTrue result → IsSome (map.get self.now.sources.texts name.now) }
        ensures no { IsFalse result → ¬ IsSome (map.get self.now.sources.texts name.now) }
    {
        self.sources.get(name.as_slice()).is_some()
    }

    // All that a put takes of memory: room for the name, the name, the text, which is shared, and the batch.
    fn prepare_put(
        &mut self,
        alloc: Global,
        name: &Name,
        text: &Text,
    ) -> Result<(Bytes, Text, Prepared), Memory>
        requires { length text.now ≤ body_limit }
        ensures name { IfOk result (λ made. (made.0 ≡ name.now) × IsName name.now) }
        ensures text { IfOk result (λ made. made.1 ≡ text.now) }
        ensures batch { IfOk result (λ made.
            PreparesSome (PutBatch self.old name.now text.now) self.new.kept made.2) }
        ensures notes { IfOk result (λ made. made.2.notes ≡ []) }
        ensures room { OnOk result (1 ≤ self.new.sources.spare) }
        ensures same { HoldsOn self.old self.new }
        ensures nodes { KeepsNodes self.old self.new }
    {
        self.sources.reserve()?;
        let source = Bytes::from_slice(alloc, name.as_slice())?;
        let shared = text.copy(alloc)?;
        let prepared = self.kept.prepare_text(alloc, name, text)?;
        Ok((source, shared, prepared))
    }
}

// The text of a graph, to be kept.
fn graph_text(alloc: Global, graph: &[u8]) -> Result<Text, Memory>
    ensures { IfOk result (λ text. text ≡ graph.now) }
{
    Text::of(Bytes::from_slice(alloc, graph)?)
}

// The bytes of the batch of a graph.
fn graph_payload(alloc: Global, graph: &[u8]) -> Result<Bytes, Memory>
    requires { length graph.now ≤ graph_limit }
    ensures { IfOk result (λ payload. payload ≡ spell_batch (graph_batch graph.now)) }
{
    let mut payload = Bytes::new(alloc);
    put_u8(&mut payload, 1)?;
    put_bytes(&mut payload, graph)?;
    Ok(payload)
}

// The bytes of the batch that takes a source away.
fn drop_payload(alloc: Global, name: &Name) -> Result<Bytes, Memory>
    ensures bytes { IfOk result (λ payload. payload ≡ spell_batch (drop_batch name.now)) }
    ensures named { IsName name.now }
{
    let bytes = name.as_slice();
    let mut payload = Bytes::new(alloc);
    put_u8(&mut payload, 4)?;
    put_bytes(&mut payload, bytes)?;
    Ok(payload)
}
