// What is kept, as a store that is written anew has it.
ghost use Rattle.std.specs.Prelude.{◌≡◌, ◌^◌, ◌≤◌, [], All, IfOk, OnOk, length, map, reverse};
ghost use Rattle.object_values.specs.declared.records.NodeRecord.{NodeRecord as NodeRecordValue};
ghost use Rattle.meaning_records.specs.Batches.{IsNotable, facts_of};
ghost use Rattle.meaning_records.specs.Live.{AreLive, ComeAfter, IsKeptBatch, IsLiveText, IsRecordBatch, MayBeSources};
ghost use Rattle.meaning_records.specs.Tables.{put_facts};
ghost use Rattle.kept_contents.specs.Added.{AreHeld};
ghost use Rattle.kept_contents.specs.Stocks.{values_of_contents};
ghost use Rattle.kept_notes.specs.Facts.{IsNotedIn, IsRecordIn, fresh_of};
ghost use Rattle.kept_tables.specs.Batching.{AddsLiveBatch, AddsLiveBatches, CountsLiveBatch, CountsLiveBatches, IsCopied, IsFresh};
ghost use Rattle.kept_tables.specs.Holdings.{fresh_in};
ghost use Rattle.kept_tables.specs.Live.{AreCopied, CopiesLive, IsRenumbering, ReadsAsLive, epochs_of, live_in};

use crate::kept::Kept;
use crate::live_batches::LiveBatches;
use crate::live_sizes::LiveSize;
use kept_contents::{Content, share_contents};
use meaning_records::laws::live_batches_read;
use object_values::{Bytes, Copied, Fresh, Memory, NodeRecord, Seq, Sources};
use std::alloc::Global;
use std::marker::Model;

/// The batches of a rewritten store, with all memory that the taking over of their numbers wants. Contracts see the payloads, the contents that they have,
/// and the records of nodes by the numbers of these.
pub struct LiveCopy {
    payloads: Seq<Bytes>,
    // the contents, the last one first
    added: Vec<Content>,
    notes: Vec<NodeRecord>,
}

impl Drop for LiveCopy {
    fn drop(self) {
        let LiveCopy {
            payloads,
            added,
            notes,
        } = self;
        drop(payloads);
        drop(added);
        drop(notes);
    }
}

impl Model for LiveCopy {
    ghost use Rattle.std.specs.Prelude.{reverse};
    ghost use Rattle.kept_contents.specs.Stocks.{values_of_contents};
    ghost use Rattle.kept_tables.specs.Live.{LivePayloads};

    ghost Value = { LivePayloads };

    ghost view = { λ c. record {
      payloads = c.payloads;
      contents = values_of_contents (reverse c.added.items);
      added = c.added.items;
      notes = c.notes.items;
    } };
}

impl LiveCopy {
    /// The payloads of the batches, in their order.
    pub fn payloads(&self) -> &[Bytes]
        ensures { result.now ≡ self.now.payloads }
    {
        self.payloads.as_slice()
    }

    // The contents, the last one first, and the records.
    fn into_parts(self) -> (Vec<Content>, Vec<NodeRecord>)
        ensures added { result.0.items ≡ self.added }
        ensures contents { values_of_contents (reverse self.added) ≡ self.contents }
        ensures notes { result.1.items ≡ self.notes }
    {
        let LiveCopy {
            payloads,
            added,
            notes,
        } = self;
        drop(payloads);
        (added, notes)
    }
}

impl Kept {
    /// How many bytes the payloads of a rewritten store have together. No payload is written.
    pub fn live_text(&self, alloc: Global, graph: &[u8], sources: &Sources) -> Result<u64, Memory>
        ensures { IfOk result (IsLiveText (live_in graph.now sources.now.texts self.now)) }
    {
        self.may_be_noted();
        let mut live = LiveSize::of_graph(alloc, graph)?;
        live.add_sources(alloc, sources)?;
        live.add_calls(alloc, self.calls.entries.as_slice())?;
        self.count_records(alloc, &mut live)?;
        live.total(alloc)
    }

    /// The batches of a rewritten store, with all memory that `renumber` wants.
    pub fn copy_live(
        &mut self,
        alloc: Global,
        graph: &[u8],
        sources: &Sources,
    ) -> Result<LiveCopy, Memory>
        requires { MayBeSources sources.now.texts }
        ensures live { IfOk result
            (CopiesLive (live_in graph.now sources.now.texts self.old)) }
        ensures reads { IfOk result
            (ReadsAsLive (live_in graph.now sources.now.texts self.old)) }
        ensures may { IfOk result (IsRenumbering self.new) }
        ensures tables { self.new.tables ≡ self.old.tables }
        ensures records { self.new.records ≡ self.old.records }
    {
        live_batches_read();
        self.come_one_by_one();
        self.may_be_noted();
        self.stand_as_noted();
        let (live, notes) = self.live_batches(alloc, graph, sources)?;
        let payloads = live.write_payloads(alloc)?;
        let added = self.hold_copied(alloc, live.added.as_slice())?;
        Ok(LiveCopy {
            payloads,
            added,
            notes,
        })
    }

    /// Takes over the numbers of a rewritten store: its contents, and the records of nodes by their numbers. It takes no memory.
    pub fn renumber(&mut self, copy: LiveCopy)
        requires { IsRenumbering self.old copy }
        ensures contents { self.new.tables.contents ≡ copy.contents }
        ensures calls { self.new.tables.calls ≡ self.old.tables.calls }
        ensures records { self.new.tables.records ≡ self.old.tables.records }
        ensures fresh { fresh_in self.new ≡ fresh_in self.old }
        ensures checked { map (λ (r : NodeRecordValue). r.checked) self.new.records.records
            ≡ map (λ (r : NodeRecordValue). r.checked) self.old.records.records }
    {
        let (added, notes) = copy.into_parts();
        self.contents.clear_contents();
        self.contents.push_all(added);
        self.records.replace(notes);
    }

    // The items of the batches of a rewritten store, and the records of nodes by the numbers of its contents.
    fn live_batches(
        &self,
        alloc: Global,
        graph: &[u8],
        sources: &Sources,
    ) -> Result<(LiveBatches, Vec<NodeRecord>), Memory>
        ensures live { IfOk result (λ made. AreLive (live_in graph.now sources.now.texts self.now)
            made.0.batches (values_of_contents made.0.added)) }
        ensures notes { IfOk result (λ made. AreCopied (values_of_contents made.0.added)
            (fresh_in self.now) (epochs_of self.now.records.records) made.1.items) }
    {
        let mut live = LiveBatches::of_graph(alloc, graph)?;
        live.add_sources(alloc, sources)?;
        self.add_calls(alloc, &mut live)?;
        let notes = self.add_records(alloc, &mut live)?;
        Ok((live, notes))
    }

    // A batch for each kept call.
    fn add_calls(&self, alloc: Global, live: &mut LiveBatches) -> Result<(), Memory>
        requires { IsFresh live.old.table live.old.added }
        ensures { OnOk result
            (AddsLiveBatches IsKeptBatch self.now.tables.calls live.old live.new) }
    {
        for place in 0..self.calls() {
            if let Some(kept) = self.call_at(alloc, place)? {
                live.add_call(alloc, kept)?;
            }
        }
        Ok(())
    }

    // A batch for each record of a node, and the records by the numbers of its contents.
    fn add_records(&self, alloc: Global, live: &mut LiveBatches) -> Result<Vec<NodeRecord>, Memory>
        requires { IsFresh live.old.table live.old.added }
        ensures added { OnOk result
            (AddsLiveBatches IsRecordBatch (fresh_in self.now) live.old live.new) }
        ensures notes { IfOk result (λ notes. AreCopied (values_of_contents live.new.added)
            (fresh_in self.now) (epochs_of self.now.records.records) notes.items) }
    {
        self.may_be_noted();
        let mut notes = Vec::new(alloc);
        for place in 0..self.records() {
            if let Some(kept) = self.record_at(place) {
                notes.push(self.add_record(alloc, live, kept)?)?;
            }
        }
        Ok(notes)
    }

    fn add_record(
        &self,
        alloc: Global,
        live: &mut LiveBatches,
        kept: &NodeRecord,
    ) -> Result<NodeRecord, Memory>
        requires fresh { IsFresh live.old.table live.old.added }
        requires noted { IsNotedIn self.now.tables.contents kept.now }
        ensures added { OnOk result (AddsLiveBatch (λ contents.
            IsRecordBatch contents (fresh_of self.now.tables.contents kept.now))
            live.old live.new) }
        ensures noted { IfOk result (IsCopied (values_of_contents live.new.added)
            (fresh_of self.now.tables.contents kept.now) kept.now.checked) }
    {
        let fresh = self.fresh_of(alloc, kept)?;
        live.add_record(alloc, &fresh, kept.checked)
    }

    // A batch for each record of a node, which is counted.
    fn count_records(&self, alloc: Global, live: &mut LiveSize) -> Result<(), Memory>
        requires { IsFresh live.old.table live.old.added }
        ensures { OnOk result
            (CountsLiveBatches IsRecordBatch (fresh_in self.now) live.old live.new) }
    {
        self.may_be_noted();
        // a place for records, so that it is made once
        let mut bytes = Bytes::new(alloc);
        for place in 0..self.records() {
            if let Some(kept) = self.record_at(place) {
                self.count_record(alloc, live, &mut bytes, kept)?;
            }
        }
        Ok(())
    }

    fn count_record(
        &self,
        alloc: Global,
        live: &mut LiveSize,
        bytes: &mut Bytes,
        kept: &NodeRecord,
    ) -> Result<(), Memory>
        requires fresh { IsFresh live.old.table live.old.added }
        requires noted { IsNotedIn self.now.tables.contents kept.now }
        ensures { OnOk result (CountsLiveBatch (λ contents.
            IsRecordBatch contents (fresh_of self.now.tables.contents kept.now))
            live.old live.new) }
    {
        let fresh = self.fresh_of(alloc, kept)?;
        live.add_record(alloc, bytes, &fresh)
    }

    // What a record says, with what its node comes to at present.
    fn fresh_of(&self, alloc: Global, noted: &NodeRecord) -> Result<Fresh, Memory>
        requires { IsRecordIn (length self.now.tables.contents) noted.now }
        ensures { IfOk result (λ fresh. fresh ≡ fresh_of self.now.tables.contents noted.now) }
    {
        let fact = self.fact_of(alloc, noted)?;
        let present = noted.present.copy(alloc)?;
        Ok(Fresh { fact, present })
    }

    // The kept calls may be kept one after another.
    fn come_one_by_one(&self)
        ensures { ComeAfter [] self.now.tables.calls }
    {
        let _ = self.calls.entries.len();
    }

    // What is noted of nodes may be noted.
    fn may_be_noted(&self)
        ensures may { All IsNotable (fresh_in self.now) }
        ensures noted { All (IsNotedIn self.now.tables.contents) self.now.records.records }
    {
        let _ = &self.records;
    }

    // Noted one after another, the facts stand as they are.
    fn stand_as_noted(&self)
        ensures { put_facts (facts_of (fresh_in self.now)) [] ≡ facts_of (fresh_in self.now) }
    {
        self.records.once();
    }

    // The contents of a copy, the last one first, with room for them.
    fn hold_copied(&mut self, alloc: Global, contents: &[Content]) -> Result<Vec<Content>, Memory>
        ensures same { IfOk result (λ added.
            values_of_contents (reverse added.items) ≡ values_of_contents contents.now) }
        ensures held { IfOk result (λ added. AreHeld self.new.texts added.items) }
        ensures room { IfOk result (λ added. length added.items ≤ self.new.room) }
        ensures few { IfOk result (λ added. length added.items ≤ 2 ^ 32) }
        ensures tables { self.new.tables ≡ self.old.tables }
        ensures records { self.new.records ≡ self.old.records }
    {
        let added = share_contents(alloc, &mut self.contents, contents)?;
        if added.len() > u32::MAX as usize {
            return Err(Memory);
        }
        self.contents.reserve(added.len())?;
        Ok(added)
    }
}
