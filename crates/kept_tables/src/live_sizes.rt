// How long the payloads of a rewritten store are. No payload is made for it, and nothing of a call is copied.
ghost use Rattle.std.specs.Prelude.{◌≡◌, ◌+◌, ◌∷◌, [], IfOk, OnOk, length};
ghost use Rattle.std.specs.FinMap as names;
ghost use Rattle.meaning_records.specs.Batches.{IsCallBatch, IsNotable, IsPutBatch, graph_batch};
ghost use Rattle.meaning_records.specs.Live.{IsKeptBatch, IsRecordBatch, IsSourceBatch};
ghost use Rattle.meaning_records.specs.States.{spell_batch};
ghost use Rattle.kept_contents.specs.Heads.{call_with};
ghost use Rattle.kept_contents.specs.Stocks.{value_of, values_of_contents};
ghost use Rattle.kept_tables.specs.Batching.{CountsLiveBatch, CountsLiveBatches, IsFresh, contents_text, counted_text};
ghost use Rattle.kept_tables.specs.Holdings.{kept_calls_of};

use crate::call_table::Entry;
use crate::item_sizes::{count_outputs, count_parts, size_of, size_of_put, size_of_rest, sum};
use kept_contents::{AddedContents, CallHead, CallKey, Content, ContentTable, number_text};
use kept_notes::number_record;
use object_values::{Bytes, CallPart, Fresh, Memory, Outcome, Sources, Text};
use std::alloc::Global;

// The bytes of a content beside those of its text: two kinds and two lengths.
const BESIDE_TEXT: u64 = 10;

// The bytes of a content beside those of its value: a kind and a length.
const BESIDE_VALUE: u64 = 5;

/// The length of batches as they come, one after another: their contents, each once, and the bytes of their other items.
pub(crate) struct LiveSize {
    pub(crate) table: ContentTable,
    pub(crate) added: AddedContents,
    pub(crate) items: u64,
}

impl Drop for LiveSize {
    fn drop(self) {
        let LiveSize {
            table,
            added,
            items: _,
        } = self;
        drop(table);
        drop(added);
    }
}

impl LiveSize {
    // Of the batch of a graph alone.
    pub(crate) fn of_graph(alloc: Global, graph: &[u8]) -> Result<Self, Memory>
        ensures fresh { IfOk result (λ live. IsFresh live.table live.added) }
        ensures added { IfOk result (λ live. live.added ≡ []) }
        ensures items { IfOk result (λ live.
            live.items ≡ length (spell_batch (graph_batch graph.now))) }
    {
        // a kind and a length
        let items = sum(graph.len() as u64, 5)?;
        Ok(LiveSize {
            table: ContentTable::new(alloc),
            added: AddedContents::new(alloc),
            items,
        })
    }

    // With a batch for each source.
    pub(crate) fn add_sources(&mut self, alloc: Global, sources: &Sources) -> Result<(), Memory>
        requires { IsFresh self.old.table self.old.added }
        ensures { OnOk result (CountsLiveBatches IsSourceBatch (names.entries sources.now.texts)
            self.old self.new) }
    {
        for place in 0..sources.len() {
            if let Some((name, text)) = sources.at(place) {
                self.add_source(alloc, name, text)?;
            }
        }
        Ok(())
    }

    fn add_source(&mut self, alloc: Global, name: &Bytes, text: &Text) -> Result<(), Memory>
        requires { IsFresh self.old.table self.old.added }
        ensures { OnOk result (CountsLiveBatch
            (λ contents. IsPutBatch contents name.now text.now) self.old self.new) }
    {
        let _ = number_text(alloc, &mut self.table, &mut self.added, text)?;
        self.items = sum(self.items, size_of_put(name)?)?;
        Ok(())
    }

    // With a batch for each kept call.
    pub(crate) fn add_calls(
        &mut self,
        alloc: Global,
        calls: &[(CallKey, Entry)],
    ) -> Result<(), Memory>
        requires { IsFresh self.old.table self.old.added }
        ensures { OnOk result
            (CountsLiveBatches IsKeptBatch (kept_calls_of calls.now) self.old self.new) }
    {
        // a place for the records of short things, so that it is made once
        let mut record = Bytes::new(alloc);
        for kept in calls {
            let (key, entry) = kept;
            let parts = key.parts.as_slice();
            self.add_call(alloc, &mut record, &entry.head, parts, &entry.outcome)?;
        }
        Ok(())
    }

    fn add_call(
        &mut self,
        alloc: Global,
        record: &mut Bytes,
        head: &CallHead,
        parts: &[CallPart],
        outcome: &Outcome,
    ) -> Result<(), Memory>
        requires { IsFresh self.old.table self.old.added }
        ensures { let call = call_with head.now parts.now in OnOk result (CountsLiveBatch
            (λ contents. IsCallBatch contents call outcome.now) self.old self.new) }
    {
        let parts = count_parts(alloc, &mut self.table, &mut self.added, parts)?;
        let outputs = outcome.outputs.as_slice();
        let outputs = count_outputs(alloc, &mut self.table, &mut self.added, outputs)?;
        let rest = size_of_rest(record, head, outcome)?;
        self.items = sum(self.items, sum(sum(parts, outputs)?, rest)?)?;
        Ok(())
    }

    // With a batch for what is noted of a node.
    pub(crate) fn add_record(
        &mut self,
        alloc: Global,
        record: &mut Bytes,
        fresh: &Fresh,
    ) -> Result<(), Memory>
        requires fresh { IsFresh self.old.table self.old.added }
        requires may { IsNotable fresh.now }
        ensures { OnOk result (CountsLiveBatch
            (λ contents. IsRecordBatch contents fresh.now) self.old self.new) }
    {
        let stored = number_record(alloc, &mut self.table, &mut self.added, fresh)?;
        // a kind comes first
        let size = sum(1, size_of(record, &stored)?)?;
        self.items = sum(self.items, size)?;
        Ok(())
    }

    // How long they are together.
    pub(crate) fn total(&self, alloc: Global) -> Result<u64, Memory>
        ensures { IfOk result (λ size. size ≡ counted_text self.now) }
    {
        let contents = size_of_contents(alloc, self.added.as_slice())?;
        sum(self.items, contents)
    }
}

// How long contents are.
fn size_of_contents(alloc: Global, contents: &[Content]) -> Result<u64, Memory>
    ensures { IfOk result (λ size. size ≡ contents_text (values_of_contents contents.now)) }
{
    let mut record = Bytes::new(alloc);
    let mut size = 0;
    for content in contents {
        size = sum(size, size_of_content(&mut record, content)?)?;
    }
    Ok(size)
}

fn size_of_content(record: &mut Bytes, content: &Content) -> Result<u64, Memory>
    ensures { IfOk result (λ size. size ≡ contents_text (value_of content.now ∷ [])) }
{
    match content {
        Content::Text(shared) => sum(shared.text.len() as u64, BESIDE_TEXT),
        Content::Other(value) => sum(size_of(record, value)?, BESIDE_VALUE),
    }
}
