// Records of nodes: each is looked for by its node, and says what it says by the numbers of contents.
ghost use Rattle.std.specs.Prelude.{◌≡◌, ◌↔◌, ◌≤◌, [], None, All, IfNone, IfOk, IfSome, IsTrue, OnOk, Some, length, option_map, slice_get};
ghost use Rattle.kept_notes.specs.Facts.{IsNotedIn, IsRecordIn, fact_of, facts_of};
ghost use Rattle.kept_notes.specs.Loaded.{MayBeLoaded};
ghost use Rattle.kept_records.specs.Records.{EachNodeOnce, put_record, put_records, record_of, renew_record};
ghost use Rattle.kept_tables.specs.Holdings.{MayRenew, fresh_in, with_notes};
ghost use Rattle.meaning_records.specs.Batches.{IsNotable};
ghost use Rattle.meaning_records.specs.Tables.{IsShort, with_fact, without_records};

use crate::kept::Kept;
use kept_notes::{fact_of, may_note};
use object_values::{Fact, Memory, Node, NodeRecord, Renewed, StoredRecord};
use std::alloc::Global;

impl Kept {
    /// The record of a node. It takes no memory.
    pub fn get(&self, node: &Node) -> Option<&NodeRecord>
        ensures is { option_map (λ r. r.now) result ≡ record_of node.now self.now.records.records }
        ensures named { IfSome result (λ r.
            IsRecordIn (length self.now.tables.contents) r.now) }
    {
        self.records.get(node)
    }

    /// The place of the record of a node, as `record_at` counts. It takes no memory.
    pub fn place_of(&self, node: &Node) -> Option<u64>
        ensures some { IfSome result (λ place. slice_get self.now.records.records place
            ≡ record_of node.now self.now.records.records) }
        ensures none { IfNone result (record_of node.now self.now.records.records ≡ None) }
    {
        match self.records.place_of(node) {
            None => None,
            Some(place) => Some(place as u64),
        }
    }

    /// How many nodes have a record.
    pub fn records(&self) -> u64
        ensures { result ≡ length self.now.records.records }
    {
        self.records.len() as u64
    }

    /// The record at a place, from 0, in the order in which the nodes were first noted. `None` from place `records()` on.
    pub fn record_at(&self, place: u64) -> Option<&NodeRecord>
        ensures is { option_map (λ r. r.now) result ≡ slice_get self.now.records.records place }
        ensures named { IfSome result (λ r.
            IsRecordIn (length self.now.tables.contents) r.now) }
    {
        self.records.at(place as usize)
    }

    /// The records are the facts of the tables over their contents, each node has one at most, what a record names is a content, and each may be noted.
    pub fn records_fit(&self)
        ensures says { self.now.tables.records
            ≡ facts_of self.now.tables.contents self.now.records.records }
        ensures once { EachNodeOnce self.now.records.records }
        ensures named { All (IsRecordIn (length self.now.tables.contents))
            self.now.records.records }
        ensures may { All IsNotable (fresh_in self.now) }
    {
        self.records.once();
    }

    /// Forgets all records. All else stays, and it takes no memory.
    pub fn forget_records(&mut self)
        ensures tables { self.new.tables ≡ without_records self.old.tables }
        ensures records { self.new.records.records ≡ [] }
        ensures record_room { self.old.records.room ≤ self.new.records.room }
        ensures texts { self.new.texts ≡ self.old.texts }
        ensures heads { self.new.heads ≡ self.old.heads }
        ensures room { self.new.room ≡ self.old.room }
        ensures call_room { self.new.call_room ≡ self.old.call_room }
    {
        self.records.forget();
    }

    /// Says what was settled of a node at an epoch, which no file has: the tables stay. It takes no memory.
    pub fn renew(&mut self, node: &Node, present: Renewed, epoch: u64)
        requires { MayRenew self.old node.now present }
        ensures renewed { self.new.records.records
            ≡ renew_record node.now present epoch self.old.records.records }
        ensures record_room { self.new.records.room ≡ self.old.records.room }
        ensures tables { self.new.tables ≡ self.old.tables }
        ensures texts { self.new.texts ≡ self.old.texts }
        ensures heads { self.new.heads ≡ self.old.heads }
        ensures room { self.new.room ≡ self.old.room }
        ensures call_room { self.new.call_room ≡ self.old.call_room }
    {
        self.records.renew(node, present, epoch);
    }

    /// What a record says. It shares the bytes of texts and of parts.
    pub fn fact_of(&self, alloc: Global, noted: &NodeRecord) -> Result<Fact, Memory>
        requires { IsRecordIn (length self.now.tables.contents) noted.now }
        ensures { IfOk result (λ fact. fact ≡ fact_of self.now.tables.contents noted.now) }
    {
        fact_of(alloc, &self.contents, noted)
    }

    // Whether a record that the file has may be noted.
    pub(crate) fn may_note(&self, stored: &StoredRecord) -> bool
        ensures { IsTrue result ↔ MayBeLoaded self.now.tables.contents stored.now }
    {
        may_note(&self.contents, stored)
    }

    // No content is too long.
    pub(crate) fn contents_are_short(&self)
        ensures { All IsShort self.now.tables.contents }
    {
        let _ = &self.contents;
    }

    // Notes the records of a batch, for which there is room, one after another.
    pub(crate) fn add_notes(&mut self, notes: Vec<NodeRecord>)
        requires noted { All (IsNotedIn self.old.tables.contents) notes.items }
        requires room { length notes.items ≤ self.old.records.room }
        ensures tables { self.new.tables ≡ with_notes self.old.tables notes.items }
        ensures records { self.new.records.records
            ≡ put_records notes.items self.old.records.records }
        ensures texts { self.new.texts ≡ self.old.texts }
        ensures heads { self.new.heads ≡ self.old.heads }
        ensures call_room { self.new.call_room ≡ self.old.call_room }
    {
        self.records.put_all(notes);
    }

    // Notes a record, in the place of that of its node, and gives that place.
    pub(crate) fn note(&mut self, noted: NodeRecord) -> Result<u64, Memory>
        requires { IsNotedIn self.old.tables.contents noted }
        ensures tables { OnOk result (self.new.tables
            ≡ with_fact (fact_of self.old.tables.contents noted) self.old.tables) }
        ensures records { OnOk result
            (self.new.records.records ≡ put_record noted self.old.records.records) }
        ensures at { IfOk result (λ place.
            slice_get self.new.records.records place ≡ Some noted) }
    {
        self.records.reserve(1)?;
        let place = self.records.put(noted);
        Ok(place as u64)
    }
}
