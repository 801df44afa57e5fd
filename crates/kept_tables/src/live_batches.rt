// The batches of a store that is written anew: their items, before any of them is written.
ghost use Rattle.std.specs.Prelude.{◌≡◌, ◌≤◌, ◌∷◌, ◌++◌, [], List, IfOk, OnOk, drop, length, map};
ghost use Rattle.std.specs.List.{All};
ghost use Rattle.std.specs.FinMap as names;
ghost use Rattle.object_values.specs.declared.items.Item.{Item as ItemValue};
ghost use Rattle.object_values.specs.declared.items.Item.TheVariants as item_of;
ghost use Rattle.meaning_records.specs.Records.{item};
ghost use Rattle.meaning_records.specs.Batches.{IsCallBatch, IsNotable, IsPutBatch, graph_batch};
ghost use Rattle.meaning_records.specs.Live.{IsRecordBatch, IsSourceBatch};
ghost use Rattle.meaning_records.specs.States.{spell_batch};
ghost use Rattle.kept_contents.specs.Stocks.{values_of_contents};
ghost use Rattle.kept_tables.specs.Batching.{AddsLiveBatch, AddsLiveBatches, IsCopied, IsFresh, batch_of};

use crate::kept::KeptCall;
use crate::preparing::contents_of;
use kept_contents::{
    AddedContents, Content, ContentTable, number_text, stored_call, stored_outcome,
};
use kept_notes::{noted_record, number_record};
use object_values::{Bytes, Copied, Fresh, Memory, NodeRecord, Seq, Sources, Text};
use std::alloc::Global;
use store_records::{Item, write_items};

/// Batches one after another, and the contents that they have, each once: the table holds their texts.
pub(crate) struct LiveBatches {
    pub(crate) table: ContentTable,
    pub(crate) added: AddedContents,
    pub(crate) batches: Seq<Seq<Item>>,
}

impl Drop for LiveBatches {
    fn drop(self) {
        let LiveBatches {
            table,
            added,
            batches,
        } = self;
        drop(table);
        drop(added);
        drop(batches);
    }
}

impl LiveBatches {
    // The batch of a graph alone.
    pub(crate) fn of_graph(alloc: Global, graph: &[u8]) -> Result<Self, Memory>
        ensures fresh { IfOk result (λ live. IsFresh live.table live.added) }
        ensures added { IfOk result (λ live. live.added ≡ []) }
        ensures batches { IfOk result (λ live. live.batches ≡ graph_batch graph.now ∷ []) }
    {
        let mut items = Seq::new(alloc);
        items.push(Item::Graph(Bytes::from_slice(alloc, graph)?))?;
        let mut batches = Seq::new(alloc);
        batches.push(items)?;
        Ok(LiveBatches {
            table: ContentTable::new(alloc),
            added: AddedContents::new(alloc),
            batches,
        })
    }

    // A batch for each source.
    pub(crate) fn add_sources(&mut self, alloc: Global, sources: &Sources) -> Result<(), Memory>
        requires { IsFresh self.old.table self.old.added }
        ensures { OnOk result
            (AddsLiveBatches IsSourceBatch (names.entries sources.now.texts) self.old self.new) }
    {
        for place in 0..sources.len() {
            if let Some((name, text)) = sources.at(place) {
                self.add_source(alloc, name, text)?;
            }
        }
        Ok(())
    }

    fn add_source(&mut self, alloc: Global, name: &Bytes, text: &Text) -> Result<(), Memory>
        requires { IsFresh self.old.table self.old.added }
        ensures { OnOk result (AddsLiveBatch
            (λ contents. IsPutBatch contents name.now text.now) self.old self.new) }
    {
        let from = self.added.len();
        let number = number_text(alloc, &mut self.table, &mut self.added, text)?;
        let name = name.copy(alloc)?;
        self.add_batch(alloc, from, Item::Put(name, number))
    }

    // A batch for a kept call.
    pub(crate) fn add_call(&mut self, alloc: Global, kept: KeptCall) -> Result<(), Memory>
        requires { IsFresh self.old.table self.old.added }
        ensures { OnOk result (AddsLiveBatch
            (λ contents. IsCallBatch contents kept.call kept.outcome) self.old self.new) }
    {
        let from = self.added.len();
        let stored = stored_call(alloc, &mut self.table, &mut self.added, &kept.call)?;
        let given = stored_outcome(alloc, &mut self.table, &mut self.added, &kept.outcome)?;
        self.add_batch(alloc, from, Item::Kept(stored, given))
    }

    // A batch for what is noted of a node, and its record by the numbers of its contents, which was checked at this epoch.
    pub(crate) fn add_record(
        &mut self,
        alloc: Global,
        fresh: &Fresh,
        checked: Option<u64>,
    ) -> Result<NodeRecord, Memory>
        requires fresh { IsFresh self.old.table self.old.added }
        requires may { IsNotable fresh.now }
        ensures added { OnOk result (AddsLiveBatch
            (λ contents. IsRecordBatch contents fresh.now) self.old self.new) }
        ensures noted { IfOk result
            (IsCopied (values_of_contents self.new.added) fresh.now checked) }
    {
        let from = self.added.len();
        let stored = number_record(alloc, &mut self.table, &mut self.added, fresh)?;
        let noted = noted_record(alloc, &stored, fresh, checked)?;
        self.add_batch(alloc, from, Item::Node(stored))?;
        Ok(noted)
    }

    // The batch of an item, with the contents from this place on.
    fn add_batch(&mut self, alloc: Global, from: usize, last: Item) -> Result<(), Memory>
        requires { from ≤ length self.old.added }
        ensures table { self.new.table ≡ self.old.table }
        ensures added { self.new.added ≡ self.old.added }
        ensures batches { OnOk result (self.new.batches ≡ self.old.batches
            ++ batch_of (values_of_contents (drop from self.old.added)) last ∷ []) }
    {
        let mut items = contents_from(alloc, self.added.as_slice(), from)?;
        items.push(last)?;
        self.batches.push(items)
    }

    /// The payloads of the batches.
    pub(crate) fn write_payloads(&self, alloc: Global) -> Result<Seq<Bytes>, Memory>
        ensures payloads { IfOk result (λ payloads.
            payloads ≡ map spell_batch self.now.batches) }
        ensures fits { OnOk result
            (All (λ (items : List ItemValue). All item.fits items) self.now.batches) }
    {
        write_batches(alloc, self.batches.as_slice())
    }
}

// The contents from this place on.
fn contents_from(alloc: Global, contents: &[Content], from: usize) -> Result<Seq<Item>, Memory>
    requires { from ≤ length contents.now }
    ensures { IfOk result (λ items.
        items ≡ map item_of.Content (values_of_contents (drop from contents.now))) }
{
    contents_of(alloc, &contents[from..])
}

fn write_batches(alloc: Global, batches: &[Seq<Item>]) -> Result<Seq<Bytes>, Memory>
    ensures payloads { IfOk result (λ payloads. payloads ≡ map spell_batch batches.now) }
    ensures fits { OnOk result (All (λ (items : List ItemValue). All item.fits items) batches.now) }
{
    let mut payloads = Seq::new(alloc);
    for items in batches {
        payloads.push(write_items(alloc, items.as_slice())?)?;
    }
    Ok(payloads)
}
