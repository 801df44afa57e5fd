// Tables that are lent to be looked at.
ghost use Rattle.std.specs.Prelude.{◌≡◌, ◌↔◌, ◌+◌, ◌<◌, None, All, IfNone, IfOk, IfSome, IsTrue, Some, length, option_map, slice_get};
ghost use Rattle.kept_notes.specs.Facts.{IsRecordIn, facts_of};
ghost use Rattle.kept_records.specs.Records.{EachNodeOnce, record_of};
ghost use Rattle.kept_tables.specs.Holdings.{fresh_in};
ghost use Rattle.meaning_records.specs.Batches.{IsNotable};
ghost use Rattle.meaning_records.specs.Numbers.{number_of};
ghost use Rattle.meaning_records.specs.Tables.{kept_outcome};

use crate::kept::Kept;
use object_values::{Call, Memory, Node, NodeRecord, Outcome, Value};
use odin_outside::Steps;
use std::alloc::Global;
use std::sync::ledger::Ledger;

/// Tables that are lent to be looked at, and are never handed out. Each look for a call is counted, and
/// each for a node.
#[derive(Drop)]
pub struct Looks<'a> {
    pub(crate) kept: &'a Kept,
}

impl<'a> Looks<'a> {
    /// The outcome that is kept of a call, by one step.
    pub fn outcome<L: Ledger>(
        &self,
        alloc: Global,
        call: &Call,
        steps: &mut Steps<L>,
    ) -> Result<Option<Outcome>, Memory>
        ensures found { IfOk result (λ found.
            found ≡ kept_outcome self.now.kept.now.tables.calls call.now) }
        ensures counted { steps.new ≡ steps.old + 1 }
    {
        steps.tick();
        self.kept.outcome(alloc, call)
    }

    /// The number of a value that is a content. It takes no memory.
    pub fn id_of(&self, value: &Value) -> Result<Option<u64>, Memory>
        ensures { result ≡ Ok (number_of value.now self.now.kept.now.tables.contents) }
    {
        self.kept.id_of(value)
    }

    /// The place of the record of a node, by one step. It takes no memory.
    pub fn find<L: Ledger>(&self, node: &Node, steps: &mut Steps<L>) -> Option<u64>
        ensures some { IfSome result (λ place. slice_get self.now.kept.now.records.records place
            ≡ record_of node.now self.now.kept.now.records.records) }
        ensures none { IfNone result
            (record_of node.now self.now.kept.now.records.records ≡ None) }
        ensures counted { steps.new ≡ steps.old + 1 }
    {
        steps.tick();
        self.kept.place_of(node)
    }

    /// The record at a place. Who has a place has looked the node up: no step is taken.
    pub fn record_at(&self, place: u64) -> Option<&'a NodeRecord>
        ensures is { option_map (λ r. r.now) result
            ≡ slice_get self.now.kept.now.records.records place }
        ensures named { IfSome result (λ r.
            IsRecordIn (length self.now.kept.now.tables.contents) r.now) }
    {
        self.kept.record_at(place)
    }

    /// What `Kept::records_fit` says.
    pub fn records_fit(&self)
        ensures says { self.now.kept.now.tables.records
            ≡ facts_of self.now.kept.now.tables.contents self.now.kept.now.records.records }
        ensures once { EachNodeOnce self.now.kept.now.records.records }
        ensures named { All (IsRecordIn (length self.now.kept.now.tables.contents))
            self.now.kept.now.records.records }
        ensures may { All IsNotable (fresh_in self.now.kept.now) }
    {
        self.kept.records_fit();
    }

    /// Whether the content of a number is this value. It takes no memory.
    pub fn is(&self, id: u64, value: &Value) -> bool
        ensures { IsTrue result
            ↔ (slice_get self.now.kept.now.tables.contents id ≡ Some value.now) }
    {
        self.kept.is(id, value)
    }

    /// How many contents there are.
    pub fn contents(&self) -> u64
        ensures { result ≡ length self.now.kept.now.tables.contents }
    {
        self.kept.contents()
    }

    /// The value that is the content of a number.
    pub fn value(&self, alloc: Global, id: u64) -> Result<Value, Memory>
        requires { id < length self.now.kept.now.tables.contents }
        ensures { IfOk result (λ value.
            slice_get self.now.kept.now.tables.contents id ≡ Some value) }
    {
        self.kept.value(alloc, id)
    }
}
