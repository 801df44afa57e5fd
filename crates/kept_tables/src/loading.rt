// Items of the file, taken in as they are read.
ghost use Rattle.std.specs.Prelude.{◌≡◌, ◌≤◌, ◌↔◌, [], All, IfNone, IfOk, IfSome, IsTrue, OnSome, length};
ghost use Rattle.object_values.specs.declared.views.Part.{Part as PartValue};
ghost use Rattle.meaning_texts.specs.Classes.{IsName};
ghost use Rattle.meaning_texts.specs.Limits.{body_limit};
ghost use Rattle.object_values.specs.declared.items.Item.TheVariants as item;
ghost use Rattle.meaning_records.specs.Tables.{Tables, IsShort, Loads};
ghost use Rattle.kept_notes.specs.Loaded.{loaded_record};
ghost use Rattle.kept_records.specs.Records.{put_record};
ghost use Rattle.kept_tables.specs.Loading.{TakesInItem, records_after};

use crate::kept::Kept;
use crate::loaded::Loaded;
use kept_notes::loaded_record;
use meaning_records::laws::reached_stand_last;
use object_values::{BODY_LIMIT, Bytes, Copied, Memory, Part, StoredRecord, Value};
use odin_bytes::is_name;
use std::alloc::Global;
use store_records::{Item, StoredCall, StoredOutcome};

// Whether no simple value and no part is longer than the limit.
fn is_short(value: &Value) -> bool
    ensures { IsTrue result ↔ IsShort value.now }
{
    match value {
        Value::Simple(text) => text.len() <= BODY_LIMIT,
        Value::List(_) => true,
        Value::Compound(parts) => are_short(parts.as_slice()),
    }
}

// Whether the bytes are a name.
#[tactic(auto, using(crate::proofs::LoadLemmas::name_decides))]
fn has_name(bytes: &Bytes) -> bool
    ensures { IsTrue result ↔ IsName bytes.now }
{
    is_name(bytes.as_slice())
}

fn are_short(parts: &[Part]) -> bool
    ensures { IsTrue result ↔ All (λ (p : PartValue). length p.body ≤ body_limit) parts.now }
{
    parts.iter().all(|part| part.body.len() <= BODY_LIMIT)
}

impl Kept {
    // Takes an item in, and gives what it brings. `None` where it may not come after these tables.
    pub(crate) fn take_in(&mut self, alloc: Global, item: Item) -> Result<Option<Loaded>, Memory>
        ensures some { IfOk result (λ read.
            IfSome read (TakesInItem item self.old.tables self.new.tables)) }
        ensures none { IfOk result (λ read. IfNone read
            ((new : Tables) → ¬ Loads self.old.tables item new)) }
        ensures records { IfOk result (λ read. OnSome read
            (self.new.records.records ≡ records_after item self.old.records.records)) }
    {
        match item {
            Item::Graph(text) => Ok(Some(self.take_graph(text))),
            Item::Content(value) => self.take_content(alloc, value),
            Item::Put(name, number) => self.take_put(alloc, name, number),
            Item::Dropped(name) => Ok(self.take_dropped(name)),
            Item::Kept(call, outcome) => self.take_call(alloc, call, outcome),
            Item::Node(record) => self.take_node(alloc, record),
        }
    }

    // What was noted of nodes is forgotten.
    fn take_graph(&mut self, text: Bytes) -> Loaded
        ensures taken { TakesInItem (item.Graph text) self.old.tables self.new.tables result }
        ensures records { self.new.records.records ≡ [] }
    {
        self.forget_records();
        Loaded::Graph(text)
    }

    fn take_content(&mut self, alloc: Global, value: Value) -> Result<Option<Loaded>, Memory>
        ensures some { IfOk result (λ read. IfSome read
            (TakesInItem (item.Content value) self.old.tables self.new.tables)) }
        ensures none { IfOk result (λ read. IfNone read (¬ IsShort value)) }
        ensures records { self.new.records ≡ self.old.records }
    {
        if !is_short(&value) {
            return Ok(None);
        }
        self.add_content(alloc, value)?;
        Ok(Some(Loaded::Content))
    }

    fn take_put(&self, alloc: Global, name: Bytes, number: u32) -> Result<Option<Loaded>, Memory>
        ensures some { IfOk result (λ read. IfSome read
            (TakesInItem (item.Put name number) self.now.tables self.now.tables)) }
        ensures none { IfOk result (λ read. IfNone read
            ((new : Tables) → ¬ Loads self.now.tables (item.Put name number) new)) }
    {
        if !has_name(&name) {
            return Ok(None);
        }
        match self.text(number) {
            Some(text) => {
                let text = text.copy(alloc)?;
                Ok(Some(Loaded::Put(name, text)))
            }
            None => Ok(None),
        }
    }

    fn take_dropped(&self, name: Bytes) -> Option<Loaded>
        ensures some { IfSome result
            (TakesInItem (item.Dropped name) self.now.tables self.now.tables) }
        ensures none { IfNone result
            ((new : Tables) → ¬ Loads self.now.tables (item.Dropped name) new) }
    {
        if !has_name(&name) {
            return None;
        }
        Some(Loaded::Dropped(name))
    }

    fn take_call(
        &mut self,
        alloc: Global,
        stored: StoredCall,
        given: StoredOutcome,
    ) -> Result<Option<Loaded>, Memory>
        ensures some { IfOk result (λ read. IfSome read
            (TakesInItem (item.Kept stored given) self.old.tables self.new.tables)) }
        ensures none { IfOk result (λ read. IfNone read
            ((new : Tables) → ¬ Loads self.old.tables (item.Kept stored given) new)) }
        ensures records { self.new.records ≡ self.old.records }
    {
        let Some(held) = self.call_of(alloc, stored)? else {
            return Ok(None);
        };
        let Some(outcome) = self.outcome_of(alloc, given)? else {
            return Ok(None);
        };
        if !self.may_take(&held, &outcome) {
            return Ok(None);
        }
        self.keep(held, outcome)?;
        Ok(Some(Loaded::CallKept))
    }

    fn take_node(&mut self, alloc: Global, stored: StoredRecord) -> Result<Option<Loaded>, Memory>
        ensures some { IfOk result (λ read. IfSome read
            (TakesInItem (item.Node stored) self.old.tables self.new.tables)) }
        ensures none { IfOk result (λ read. IfNone read
            ((new : Tables) → ¬ Loads self.old.tables (item.Node stored) new)) }
        ensures records { IfOk result (λ read. OnSome read (self.new.records.records
            ≡ put_record (loaded_record stored) self.old.records.records)) }
    {
        reached_stand_last();
        self.contents_are_short();
        if !self.may_note(&stored) {
            return Ok(None);
        }
        let noted = loaded_record(alloc, stored)?;
        let place = self.note(noted)?;
        self.records_fit();
        Ok(Some(Loaded::Noted(place)))
    }
}
