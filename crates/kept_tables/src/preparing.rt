// Batches, made whole with all memory that their taking in wants.
ghost use Rattle.std.specs.Prelude.{◌≡◌, ◌≤◌, ◌∷◌, [], All, Some, length, map, IfOk, OnOk};
ghost use Rattle.object_values.specs.declared.items.Item.TheVariants.{Node};
ghost use Rattle.object_values.specs.declared.views.Value.TheVariants.{Simple};
ghost use Rattle.meaning_texts.specs.Limits.{body_limit};
ghost use Rattle.meaning_records.specs.Batches.{AreRecordsOf, IsCallBatch, IsNotable, IsNotesBatch, IsPutBatch, needed_values};
ghost use Rattle.meaning_records.specs.Tables.{IsCallOf, IsShort, IsText, IsOutcomeOf};
ghost use Rattle.kept_contents.specs.Held.{IsHeld};
ghost use Rattle.kept_contents.specs.Stocks.{IsGrownFrom, values_of_contents};
ghost use Rattle.kept_contents.specs.Added.{AddsAll, AddsOne, AddsTexts, AreHeld, contents_with, texts_of_outputs, texts_of_parts};
ghost use Rattle.kept_notes.specs.Facts.{IsNotedIn};
ghost use Rattle.kept_notes.specs.Numbered.{notes_of};
ghost use Rattle.kept_tables.specs.Holdings.{HasNotes, MakesBatch, MayKeep, MayKeepSome, PreparesSome, items_of_contents, items_with};

use crate::kept::Kept;
use crate::prepared::Prepared;
use kept_contents::{AddedContents, Content, HeldCall, number_text, stored_call, stored_outcome};
use kept_notes::number_records;
use object_values::{Call, Copied, Fresh, Memory, NodeRecord, Outcome, Seq, StoredRecord, Text};
use odin_bytes::Name;
use std::alloc::Global;
use store_records::{Item, StoredCall, StoredOutcome, write_batch};

impl Kept {
    /// The batch that gives a source a text.
    pub fn prepare_text(
        &mut self,
        alloc: Global,
        name: &Name,
        text: &Text,
    ) -> Result<Prepared, Memory>
        requires { length text.now ≤ body_limit }
        ensures ok { IfOk result
            (PreparesSome (IsPutBatch self.old.tables.contents name.now text.now) self.new) }
        ensures notes { IfOk result (λ batch. batch.notes ≡ []) }
        ensures same { self.new.tables ≡ self.old.tables }
        ensures records { self.new.records.records ≡ self.old.records.records }
    {
        let mut added = AddedContents::new(alloc);
        let number = self.number_text(alloc, &mut added, text)?;
        let name = name.copy(alloc)?.into_bytes();
        let rest = one_item(alloc, Item::Put(name, number))?;
        self.prepare(alloc, added, rest, None, Vec::new(alloc))
    }

    /// The batch that keeps a call with its outcome.
    pub fn prepare_call(
        &mut self,
        alloc: Global,
        call: &Call,
        outcome: &Outcome,
    ) -> Result<Prepared, Memory>
        requires { MayKeep self.old.tables call.now outcome.now }
        ensures ok { IfOk result
            (PreparesSome (IsCallBatch self.old.tables.contents call.now outcome.now) self.new) }
        ensures notes { IfOk result (λ batch. batch.notes ≡ []) }
        ensures same { self.new.tables ≡ self.old.tables }
        ensures records { self.new.records.records ≡ self.old.records.records }
    {
        let held = self.hold(alloc, call)?;
        let mut added = AddedContents::new(alloc);
        let stored = self.stored_call(alloc, &mut added, call)?;
        let given = self.stored_outcome(alloc, &mut added, outcome)?;
        let kept = (held, outcome.copy(alloc)?);
        let rest = one_item(alloc, Item::Kept(stored, given))?;
        self.prepare(alloc, added, rest, Some(kept), Vec::new(alloc))
    }

    /// The batch that notes what is to be noted of nodes, one after another: they count as checked at the epoch. Of none it is empty, which no store has
    /// as a batch.
    pub fn prepare_nodes(
        &mut self,
        alloc: Global,
        fresh: &[Fresh],
        epoch: u64,
    ) -> Result<Prepared, Memory>
        requires { All IsNotable fresh.now }
        ensures ok { IfOk result
            (PreparesSome (IsNotesBatch self.old.tables.contents fresh.now) self.new) }
        ensures notes { IfOk result (HasNotes epoch self.new fresh.now) }
        ensures same { self.new.tables ≡ self.old.tables }
        ensures records { self.new.records.records ≡ self.old.records.records }
    {
        let mut added = AddedContents::new(alloc);
        let (stored, notes) = self.number_records(alloc, &mut added, fresh, epoch)?;
        let rest = node_items(alloc, stored)?;
        self.prepare(alloc, added, rest, None, notes)
    }

    // A call whose inputs' texts are held from now on.
    fn hold(&mut self, alloc: Global, call: &Call) -> Result<HeldCall, Memory>
        ensures held { IfOk result (IsHeld self.new.heads self.new.texts) }
        ensures call { IfOk result (λ held. held.call ≡ call.now) }
        ensures same { self.new.tables ≡ self.old.tables }
        ensures records { self.new.records ≡ self.old.records }
    {
        let call = call.copy(alloc)?;
        HeldCall::hold(alloc, &mut self.contents, &mut self.heads, call)
    }

    // The number of a text, which is added where neither the file nor the batch has it.
    fn number_text(
        &mut self,
        alloc: Global,
        added: &mut AddedContents,
        text: &Text,
    ) -> Result<u32, Memory>
        requires { AreHeld self.old.texts added.old }
        ensures number { IfOk result (λ n.
            IsText (contents_with self.old.tables.contents added.new) n text.now) }
        ensures adds { OnOk result (AddsOne self.old.tables.contents (Simple text.now)
            (values_of_contents added.old) (values_of_contents added.new)) }
        ensures held { OnOk result (AreHeld self.new.texts added.new) }
        ensures same { self.new.tables ≡ self.old.tables }
        ensures records { self.new.records ≡ self.old.records }
    {
        number_text(alloc, &mut self.contents, added, text)
    }

    // A call by the numbers of its inputs.
    fn stored_call(
        &mut self,
        alloc: Global,
        added: &mut AddedContents,
        call: &Call,
    ) -> Result<StoredCall, Memory>
        requires { AreHeld self.old.texts added.old }
        ensures call { IfOk result (λ stored.
            IsCallOf (contents_with self.old.tables.contents added.new) stored call.now) }
        ensures adds { OnOk result
            (AddsTexts self.old.tables.contents (texts_of_parts call.now.parts)
            (values_of_contents added.old) (values_of_contents added.new)) }
        ensures held { OnOk result (AreHeld self.new.texts added.new) }
        ensures same { self.new.tables ≡ self.old.tables }
        ensures heads { self.new.heads ≡ self.old.heads }
        ensures texts { IsGrownFrom self.old.texts self.new.texts }
        ensures records { self.new.records ≡ self.old.records }
    {
        stored_call(alloc, &mut self.contents, added, call)
    }

    // An outcome by the numbers of its outputs.
    fn stored_outcome(
        &mut self,
        alloc: Global,
        added: &mut AddedContents,
        outcome: &Outcome,
    ) -> Result<StoredOutcome, Memory>
        requires { AreHeld self.old.texts added.old }
        ensures outcome { IfOk result (λ stored.
            IsOutcomeOf (contents_with self.old.tables.contents added.new) stored outcome.now) }
        ensures adds { OnOk result
            (AddsTexts self.old.tables.contents (texts_of_outputs outcome.now.outputs)
            (values_of_contents added.old) (values_of_contents added.new)) }
        ensures held { OnOk result (AreHeld self.new.texts added.new) }
        ensures same { self.new.tables ≡ self.old.tables }
        ensures heads { self.new.heads ≡ self.old.heads }
        ensures texts { IsGrownFrom self.old.texts self.new.texts }
        ensures records { self.new.records ≡ self.old.records }
    {
        stored_outcome(alloc, &mut self.contents, added, outcome)
    }

    // What is to be noted by the numbers of its values, as the file is to have it and as it is in memory.
    fn number_records(
        &mut self,
        alloc: Global,
        added: &mut AddedContents,
        fresh: &[Fresh],
        epoch: u64,
    ) -> Result<(Seq<StoredRecord>, Vec<NodeRecord>), Memory>
        requires added { AreHeld self.old.texts added.old }
        requires may { All IsNotable fresh.now }
        ensures stored { IfOk result (λ made.
            AreRecordsOf (contents_with self.old.tables.contents added.new) made.0 fresh.now) }
        ensures notes { IfOk result (λ made.
            made.1.items ≡ notes_of (Some epoch) made.0 fresh.now) }
        ensures adds { OnOk result (AddsAll self.old.tables.contents (needed_values fresh.now)
            (values_of_contents added.old) (values_of_contents added.new)) }
        ensures held { OnOk result (AreHeld self.new.texts added.new) }
        ensures same { self.new.tables ≡ self.old.tables }
        ensures records { self.new.records ≡ self.old.records }
    {
        number_records(alloc, &mut self.contents, added, fresh, epoch)
    }

    // The batch of these contents and the items after them.
    fn prepare(
        &mut self,
        alloc: Global,
        added: AddedContents,
        rest: Seq<Item>,
        call: Option<(HeldCall, Outcome)>,
        notes: Vec<NodeRecord>,
    ) -> Result<Prepared, Memory>
        requires held { AreHeld self.old.texts added }
        requires call { MayKeepSome self.old call }
        requires short { All IsShort (values_of_contents added) }
        requires notes { All (IsNotedIn (contents_with self.old.tables.contents added))
            notes.items }
        ensures made { IfOk result (MakesBatch added rest call notes.items self.new) }
        ensures same { self.new.tables ≡ self.old.tables }
        ensures records { self.new.records.records ≡ self.old.records.records }
    {
        let items = items_of(alloc, added.as_slice(), rest)?;
        let payload = write_batch(alloc, items.as_slice())?;
        let few = self.contents.len().checked_add(added.len());
        if few.is_none_or(|few| few > u32::MAX as usize) {
            return Err(Memory);
        }
        self.contents.reserve(added.len())?;
        self.calls.reserve()?;
        self.records.reserve(notes.len())?;
        // Taken from the end, the last one first, each content is moved into the tables in its order, and none is copied.
        let mut added = added.into_vec();
        added.reverse();
        Ok(Prepared {
            payload,
            added,
            call,
            notes,
        })
    }
}

// The items of contents, and the items after them.
fn items_of(alloc: Global, added: &[Content], rest: Seq<Item>) -> Result<Seq<Item>, Memory>
    ensures { IfOk result (λ items. items ≡ items_with added.now rest) }
{
    let mut items = contents_of(alloc, added)?;
    for item in rest.into_vec() {
        items.push(item)?;
    }
    Ok(items)
}

fn one_item(alloc: Global, item: Item) -> Result<Seq<Item>, Memory>
    ensures { IfOk result (λ items. items ≡ item ∷ []) }
{
    let mut items = Seq::new(alloc);
    items.push(item)?;
    Ok(items)
}

fn node_items(alloc: Global, stored: Seq<StoredRecord>) -> Result<Seq<Item>, Memory>
    ensures { IfOk result (λ items. items ≡ map Node stored) }
{
    let mut items = Seq::new(alloc);
    for record in stored.into_vec() {
        items.push(Item::Node(record))?;
    }
    Ok(items)
}

pub(crate) fn contents_of(alloc: Global, added: &[Content]) -> Result<Seq<Item>, Memory>
    ensures { IfOk result (λ items. items ≡ items_of_contents added.now) }
{
    let mut items = Seq::new(alloc);
    for content in added {
        items.push(Item::Content(content.value(alloc)?))?;
    }
    Ok(items)
}
