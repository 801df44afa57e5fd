// The tables of what is kept.
ghost use Rattle.std.specs.Prelude.{◌≡◌, ◌↔◌, [], List, ℕ, ◌+◌, ◌<◌, All, length, reverse, slice_get, option_map, is_some, Some, IfOk, IfSome, IfNone, IsTrue, OnOk};
ghost use Rattle.object_values.specs.declared.calls.Call.{Call as CallValue};
ghost use Rattle.object_values.specs.declared.calls.Outcome.{Outcome as OutcomeValue};
ghost use Rattle.meaning_records.specs.Numbers.{number_of};
ghost use Rattle.meaning_records.specs.Tables.{IsShort, IsText, IsCallOf, IsOutcomeOf, kept_outcome, with_call, with_content};
ghost use Rattle.kept_records.specs.Records.{put_records};
ghost use Rattle.kept_tables.specs.Loading.{LoadsItem, LoadsNothing, RemembersItem};
ghost use Rattle.kept_contents.specs.Held.{IsHeld};
ghost use Rattle.kept_tables.specs.Holdings.{IsCommitted, IsKept, IsPrepared, MayAdd, MayCome, MayKeep, held_calls_of, with_calls, with_contents};

use crate::call_table::{CallTable, Entry};
use crate::calls::is_well_formed;
use crate::loaded::Loaded;
use crate::looks::Looks;
use crate::outcomes::fits;
use crate::prepared::Prepared;
use kept_contents::{Content, ContentTable, Heads, HeldCall, SoughtKey, call_of, outcome_of};
use kept_records::RecordTable;
use object_values::{Call, Copied, Memory, Outcome, Text, Value};
use std::alloc::Global;
use std::marker::Model;
use store_records::{Item, Recorded, StoredCall, StoredOutcome};

/// What is kept: contents, each once, the calls with their outcomes, and the records of nodes. A call is looked up by its key, a record by its node.
/// Contracts see its `Tables`, and what it holds of them in memory.
pub struct Kept {
    pub(crate) contents: ContentTable,
    pub(crate) heads: Heads,
    pub(crate) calls: CallTable,
    pub(crate) records: RecordTable,
}

impl Drop for Kept {
    fn drop(self) {
        let Kept {
            contents,
            heads,
            calls,
            records,
        } = self;
        drop(contents);
        drop(heads);
        drop(calls);
        drop(records);
    }
}

impl Model for Kept {
    ghost use Rattle.std.specs.Prelude.{All};
    ghost use Rattle.kept_notes.specs.Facts.{facts_of};
    ghost use Rattle.kept_tables.specs.Calls.{IsCallIndex, room_of};
    ghost use Rattle.kept_tables.specs.Holdings.{AreNotedIn, Holding, IsKeptIn, kept_calls_of};

    ghost Value = { Holding };

    ghost view = { λ k. record {
      tables = record {
        contents = k.contents.contents;
        calls = kept_calls_of k.calls.entries.items;
        records = facts_of k.contents.contents k.records.records;
      };
      texts = k.contents.texts;
      heads = k.heads;
      records = k.records;
      room = k.contents.room;
      call_room = room_of k.calls;
    } };

    ghost invariant = { λ k. (All (IsKeptIn k.heads k.contents.texts) k.calls.entries.items
        × IsCallIndex k.contents.texts k.calls)
        × AreNotedIn k.contents.contents k.records.records };
}

/// A kept call with its outcome.
#[derive(Drop)]
pub struct KeptCall {
    pub call: Call,
    pub outcome: Outcome,
}

impl Kept {
    pub fn new(alloc: Global) -> Self
        ensures contents { result.tables.contents ≡ [] }
        ensures calls { result.tables.calls ≡ [] }
        ensures records { result.tables.records ≡ [] }
        ensures noted { result.records.records ≡ [] }
    {
        Kept {
            contents: ContentTable::new(alloc),
            heads: Heads::new(alloc),
            calls: CallTable::new(alloc),
            records: RecordTable::new(alloc),
        }
    }

    /// Takes in the item that stands at a place of a payload, and gives what it brings and the place after it. `None` where no item stands there that
    /// may come after what is kept, as far as the tables tell. After `None` or want of memory the tables are used no more.
    pub fn load_item(
        &mut self,
        alloc: Global,
        payload: &Text,
        at: usize,
    ) -> Result<Option<(Loaded, usize)>, Memory>
        ensures some { IfOk result (λ read. IfSome read (λ given.
            LoadsItem payload.now at given.1 given.0 self.old.tables self.new.tables)) }
        ensures none { IfOk result (λ read. IfNone read
            (LoadsNothing payload.now at self.old.tables)) }
        ensures records { IfOk result (λ read. IfSome read (λ given.
            RemembersItem payload.now at given.1 self.old.records.records self.new.records.records)) }
    {
        let Some((item, end)) = Item::take(alloc, payload, at)? else {
            return Ok(None);
        };
        match self.take_in(alloc, item)? {
            Some(loaded) => Ok(Some((loaded, end))),
            None => Ok(None),
        }
    }

    /// How many calls are kept.
    pub fn calls(&self) -> u64
        ensures { result ≡ length self.now.tables.calls }
    {
        self.calls.entries.len() as u64
    }

    /// The call at a place, from 0, in the order in which they were kept. `None` from place `calls()` on.
    pub fn call_at(&self, alloc: Global, place: u64) -> Result<Option<KeptCall>, Memory>
        ensures { IfOk result (λ found.
            option_map (λ k. (k.call, k.outcome)) found ≡ slice_get self.now.tables.calls place) }
    {
        match self.calls.entries.get(place as usize) {
            Some(kept) => {
                let call = kept.1.head.call(alloc, &kept.0.parts)?;
                let outcome = kept.1.outcome.copy(alloc)?;
                Ok(Some(KeptCall { call, outcome }))
            }
            None => Ok(None),
        }
    }

    /// How many contents there are.
    pub fn contents(&self) -> u64
        ensures { result ≡ length self.now.tables.contents }
    {
        self.contents.len() as u64
    }

    /// The number of a value that is a content. It takes no memory. A text is found by one look, a list or a compound by its hash.
    pub fn id_of(&self, value: &Value) -> Result<Option<u64>, Memory>
        ensures { result ≡ Ok (number_of value.now self.now.tables.contents) }
    {
        Ok(self.contents.number_of_value(value))
    }

    /// Whether the content of a number is this value. It takes no memory.
    pub fn is(&self, id: u64, value: &Value) -> bool
        ensures { IsTrue result ↔ (slice_get self.now.tables.contents id ≡ Some value.now) }
    {
        self.contents.is(id, value)
    }

    /// The value that is the content of a number. It shares the bytes of texts and of parts.
    pub fn value(&self, alloc: Global, id: u64) -> Result<Value, Memory>
        requires { id < length self.now.tables.contents }
        ensures { IfOk result (λ value. slice_get self.now.tables.contents id ≡ Some value) }
    {
        self.contents.value(alloc, id)
    }

    /// The outcome that is kept of a call.
    pub fn outcome(&self, alloc: Global, call: &Call) -> Result<Option<Outcome>, Memory>
        ensures { IfOk result (λ found. found ≡ kept_outcome self.now.tables.calls call.now) }
    {
        match self.find(call) {
            Some(outcome) => Ok(Some(outcome.copy(alloc)?)),
            None => Ok(None),
        }
    }

    // The outcome that is kept of a call, by one look.
    fn find(&self, call: &Call) -> Option<&Outcome>
        ensures { option_map (λ o. o.now) result
            ≡ kept_outcome self.now.tables.calls call.now }
    {
        let Some(sought) = SoughtKey::of(&self.contents, &self.heads, call) else {
            return None;
        };
        match self.calls.get(&self.contents, sought) {
            Some(kept) => Some(&kept.outcome),
            None => None,
        }
    }

    /// Each kept call is well formed, and its outcome fits it.
    pub fn fit(&self)
        ensures { All IsKept self.now.tables.calls }
    {
        let _ = &self.calls;
    }

    /// Lends the tables.
    pub fn looks(&self) -> Looks<'_>
        ensures { result.kept.now ≡ self.now }
    {
        Looks { kept: self }
    }

    /// Takes a batch in that these tables prepared. It takes no memory.
    pub fn commit(&mut self, prepared: Prepared)
        requires { IsPrepared self.old prepared }
        ensures tables { IsCommitted self.old prepared self.new.tables }
        ensures records { self.new.records.records
            ≡ put_records prepared.notes self.old.records.records }
    {
        let (added, call, notes) = prepared.into_parts();
        self.add_contents(added);
        self.add_notes(notes);
        self.add_call(call);
    }

    // Adds contents whose texts are held, the last of the list first.
    fn add_contents(&mut self, added: Vec<Content>)
        requires { MayCome self.old added.items }
        ensures tables { self.new.tables ≡ with_contents self.old.tables (reverse added.items) }
        ensures texts { self.new.texts ≡ self.old.texts }
        ensures heads { self.new.heads ≡ self.old.heads }
        ensures records { self.new.records ≡ self.old.records }
        ensures room { self.new.call_room ≡ self.old.call_room }
    {
        self.contents.push_all(added);
    }

    // Keeps the call of a batch, where it has one.
    fn add_call(&mut self, call: Option<(HeldCall, Outcome)>)
        requires { MayAdd self.old call }
        ensures tables { self.new.tables ≡ with_calls self.old.tables (held_calls_of call) }
        ensures records { self.new.records ≡ self.old.records }
    {
        match call {
            Some((held, outcome)) => self.add_kept(held, outcome),
            None => {}
        }
    }

    // Keeps a call for which there is room.
    fn add_kept(&mut self, held: HeldCall, outcome: Outcome)
        requires held { IsHeld self.old.heads self.old.texts held }
        requires may { MayKeep self.old.tables held.call outcome }
        requires room { 0 < self.old.call_room }
        ensures tables { self.new.tables ≡ with_call held.call outcome self.old.tables }
        ensures records { self.new.records ≡ self.old.records }
    {
        let (key, head) = held.into_parts();
        self.calls
            .push(&self.contents, key, Entry { head, outcome });
    }

    // The text that is the content of a number.
    pub(crate) fn text(&self, number: u32) -> Option<&Text>
        ensures some { IfSome result (λ text. IsText self.now.tables.contents number text.now) }
        ensures none { IfNone result
            ((text : List ℕ) → ¬ IsText self.now.tables.contents number text) }
    {
        self.contents.text(number)
    }

    pub(crate) fn add_content(&mut self, alloc: Global, value: Value) -> Result<(), Memory>
        requires { IsShort value }
        ensures tables { OnOk result (self.new.tables ≡ with_content value self.old.tables) }
        ensures records { self.new.records ≡ self.old.records }
    {
        self.contents.add(alloc, value)
    }

    pub(crate) fn call_of(
        &mut self,
        alloc: Global,
        stored: StoredCall,
    ) -> Result<Option<HeldCall>, Memory>
        ensures some { IfOk result (λ found.
            IfSome found (λ held. IsCallOf self.old.tables.contents stored held.call)) }
        ensures held { IfOk result (λ found.
            IfSome found (IsHeld self.new.heads self.new.texts)) }
        ensures none { IfOk result (λ found. IfNone found
            ((call : CallValue) → ¬ IsCallOf self.old.tables.contents stored call)) }
        ensures same { self.new.tables ≡ self.old.tables }
        ensures records { self.new.records ≡ self.old.records }
    {
        call_of(alloc, &self.contents, &mut self.heads, stored)
    }

    pub(crate) fn outcome_of(
        &self,
        alloc: Global,
        stored: StoredOutcome,
    ) -> Result<Option<Outcome>, Memory>
        ensures some { IfOk result (λ found.
            IfSome found (IsOutcomeOf self.now.tables.contents stored)) }
        ensures none { IfOk result (λ found. IfNone found
            ((outcome : OutcomeValue) → ¬ IsOutcomeOf self.now.tables.contents stored outcome)) }
    {
        outcome_of(alloc, &self.contents, stored)
    }

    /// Whether a call may be kept with this outcome: it is well formed, the outcome fits it, and it isn't kept.
    pub fn may_keep(&self, call: &Call, outcome: &Outcome) -> bool
        ensures { IsTrue result ↔ MayKeep self.now.tables call.now outcome.now }
    {
        is_well_formed(call) && fits(call, outcome) && !self.has(call)
    }

    // Whether a call is kept.
    fn has(&self, call: &Call) -> bool
        ensures { result ≡ is_some (kept_outcome self.now.tables.calls call.now) }
    {
        self.find(call).is_some()
    }

    // Whether a call that is held may be kept with this outcome, by one look.
    pub(crate) fn may_take(&self, held: &HeldCall, outcome: &Outcome) -> bool
        requires { IsHeld self.now.heads self.now.texts held.now }
        ensures { IsTrue result ↔ MayKeep self.now.tables held.now.call outcome.now }
    {
        is_well_formed(&held.call) && fits(&held.call, outcome) && !self.has_held(held)
    }

    fn has_held(&self, held: &HeldCall) -> bool
        requires { IsHeld self.now.heads self.now.texts held.now }
        ensures { result ≡ is_some (kept_outcome self.now.tables.calls held.now.call) }
    {
        let sought = SoughtKey::of_held(held);
        self.calls.get(&self.contents, sought).is_some()
    }

    // Keeps a call that isn't kept.
    pub(crate) fn keep(&mut self, held: HeldCall, outcome: Outcome) -> Result<(), Memory>
        requires held { IsHeld self.old.heads self.old.texts held }
        requires may { MayKeep self.old.tables held.call outcome }
        ensures tables { OnOk result
            (self.new.tables ≡ with_call held.call outcome self.old.tables) }
        ensures records { self.new.records ≡ self.old.records }
    {
        self.calls.reserve()?;
        self.add_kept(held, outcome);
        Ok(())
    }
}
