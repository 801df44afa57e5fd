// The records of nodes.
ghost use Rattle.std.specs.Prelude.{◌≡◌, ◌<◌, ◌≤◌, ◌+◌, ◌-◌, ◌⊎◌, ◌∷◌, ◌++◌, [], IfNone, IfSome, IsSome, None, OnOk, Some, length, option_map, slice_get, vec_capacity, vec_len};
ghost use Rattle.kept_records.specs.Laws.{nodes_of};
ghost use Rattle.kept_records.specs.Records.{EachNodeOnce, node_at, put_record, put_records, record_of, renew_record};

use crate::sought::SoughtNode;
use content_store::Marks;
use object_values::{Memory, Node, NodeRecord, Renewed};
use std::alloc::Global;
use std::marker::Model;

/// Records of nodes, in the order in which their nodes were first noted. A node has one record at most, which is found in one look.
pub struct RecordTable {
    records: Vec<NodeRecord>,
    marks: Marks,
}

impl Drop for RecordTable {
    fn drop(self) {
        let RecordTable { records, marks } = self;
        drop(records);
        drop(marks);
    }
}

impl Model for RecordTable {
    ghost use Rattle.std.specs.Prelude.{◌-◌, min, vec_capacity, vec_len};
    ghost use Rattle.content_store.specs.Marks.{room_of};
    ghost use Rattle.kept_records.specs.Records.{RecordStock};
    ghost use Rattle.kept_records.specs.NodeMarks.{IsNodeIndex};

    ghost Value = { RecordStock };

    ghost view = { λ t. record {
      records = t.records.items;
      room = min (vec_capacity t.records - vec_len t.records) (room_of t.marks);
    } };

    ghost invariant = { λ t. IsNodeIndex t.records.items t.marks };
}

impl RecordTable {
    pub fn new(alloc: Global) -> Self
        ensures { result.records ≡ [] }
    {
        RecordTable {
            records: Vec::new(alloc),
            marks: Marks::new(alloc),
        }
    }

    pub fn len(&self) -> usize
        ensures { result ≡ length self.now.records }
    {
        self.records.len()
    }

    /// The record of a node.
    pub fn get(&self, node: &Node) -> Option<&NodeRecord>
        ensures { option_map (λ r. r.now) result ≡ record_of node.now self.now.records }
    {
        match self.place_of(node) {
            Some(place) => self.at(place),
            None => None,
        }
    }

    /// The place of the record of a node, from 0. It is found in one look.
    pub fn place_of(&self, node: &Node) -> Option<usize>
        ensures some { IfSome result (λ i. node_at self.now.records i ≡ Some node.now) }
        ensures kept { IfSome result
            (λ i. record_of node.now self.now.records ≡ slice_get self.now.records i) }
        ensures none { IfNone result (record_of node.now self.now.records ≡ None) }
    {
        let sought = SoughtNode {
            records: self.records.as_slice(),
            node,
        };
        match self.marks.find(&sought) {
            Some(place) => Some(place as usize),
            None => None,
        }
    }

    /// The record at a place, from 0.
    pub fn at(&self, place: usize) -> Option<&NodeRecord>
        ensures { option_map (λ r. r.now) result ≡ slice_get self.now.records place }
    {
        self.records.get(place)
    }

    /// Makes room for records of so many more nodes. After want of memory there is room for as many as before, or more.
    pub fn reserve(&mut self, more: usize) -> Result<(), Memory>
        ensures room { OnOk result (more ≤ self.new.room) }
        ensures least { self.old.room ≤ self.new.room }
        ensures same { self.new.records ≡ self.old.records }
    {
        self.records.reserve(more)?;
        self.marks.reserve_more(more)
    }

    /// Notes the record of a node, in the place of the one that it had, which is let go, and gives its place. It takes no memory.
    pub fn put(&mut self, noted: NodeRecord) -> usize
        requires { IsSome (record_of noted.node self.old.records) ⊎ (0 < self.old.room) }
        ensures put { self.new.records ≡ put_record noted self.old.records }
        ensures room { self.old.room ≤ self.new.room + 1 }
        ensures kept { IsSome (record_of noted.node self.old.records)
            → self.new.room ≡ self.old.room }
        ensures at { slice_get self.new.records result ≡ Some noted }
    {
        match self.place_of(&noted.node) {
            Some(place) => {
                self.records[place] = noted;
                place
            }
            None => {
                let place = self.records.len();
                self.add(noted);
                place
            }
        }
    }

    /// Notes records one after another. It takes no memory.
    pub fn put_all(&mut self, noted: Vec<NodeRecord>)
        requires { length noted.items ≤ self.old.room }
        ensures { self.new.records ≡ put_records noted.items self.old.records }
    {
        for record in noted {
            let _ = self.put(record);
        }
    }

    /// Says what was settled of a node at an epoch. It takes no memory.
    pub fn renew(&mut self, node: &Node, present: Renewed, epoch: u64)
        requires { IsSome (record_of node.now self.old.records) }
        ensures renewed { self.new.records
            ≡ renew_record node.now present epoch self.old.records }
        ensures room { self.new.room ≡ self.old.room }
    {
        if let Some(place) = self.place_of(node) {
            let kept = &mut self.records[place];
            kept.present = present;
            kept.checked = Some(epoch);
        }
    }

    /// Forgets all records. The room stays.
    pub fn forget(&mut self)
        ensures forgotten { self.new.records ≡ [] }
        ensures room { self.old.room ≤ self.new.room }
    {
        self.records.clear();
        self.marks.clear();
    }

    /// Takes records of the same nodes in place of those that stand. It takes no memory.
    pub fn replace(&mut self, records: Vec<NodeRecord>)
        requires { nodes_of records.items ≡ nodes_of self.old.records }
        ensures { self.new.records ≡ records.items }
    {
        self.records = records;
    }

    /// Each node stands there once.
    pub fn once(&self)
        ensures { EachNodeOnce self.now.records }
    {
        let _ = &self.records;
    }

    // Puts the record of a node that has none after the others.
    fn add(&mut self, noted: NodeRecord)
        requires new { record_of noted.node self.old.records ≡ None }
        requires room { 0 < self.old.room }
        ensures records { self.new.records ≡ self.old.records ++ noted ∷ [] }
        ensures room { self.old.room ≤ self.new.room + 1 }
    {
        let place = self.records.len() as u64;
        self.marks.add(
            &SoughtNode {
                records: self.records.as_slice(),
                node: &noted.node,
            },
            place,
        );
        push_within(&mut self.records, noted);
    }
}

// Adds a record for which there is room.
fn push_within(records: &mut Vec<NodeRecord>, noted: NodeRecord)
    requires { 0 < vec_capacity records.old - vec_len records.old }
    ensures items { records.new.items ≡ records.old.items ++ noted ∷ [] }
    ensures room { vec_capacity records.old - vec_len records.old
        ≤ (vec_capacity records.new - vec_len records.new) + 1 }
{
    let _ = records.push(noted);
}
