// The loading of a store's records, one after another, for the graph of a text.
ghost use Rattle.std.specs.Prelude.{◌≡◌, ◌-◌, [], IfOk, IfErr, IfSome, IfNone, IsTrue, IsFalse, OnSome, Some, false, true};
ghost use Rattle.meaning_records.specs.Images.{gate_after};
ghost use Rattle.meaning_records.specs.States.{nothing};
ghost use Rattle.meaning_records.specs.Tables.{without_records};
ghost use Rattle.odin_store.specs.declared.loading.Ground.TheVariants as ground_is;
ghost use Rattle.odin_store.specs.Loading.{FitsAt, HasRead, HeldFit, IsForSame, IsGround, IsPast, IsRecordLoadFault, Loads, LoadsNot, MayNote, MayTakeIn, NotesAt, Past, Refuses, StaysUnchecked, TakesIn, TakesItem, TakesNoItem, TellsLast, TellsUnfit, UnfitAt, after_graph, no_past, records_size, state_of};
ghost use Rattle.odin_store.specs.Stamps.{AreUnchecked};

use crate::fitting::fits_noted;
use kept_tables::{Kept, Loaded};
use meaning_records::laws::reads_in_one_way;
use object_values::{Memory, Seq, Sources, Text};
use odin_journal::JournalFault;
use std::alloc::Global;
use type_graph::Graph;

/// The last graph so far, as far as it tells what counts of the records of nodes.
#[derive(Clone, Copy, Drop)]
pub enum Ground {
    /// There is none, so nothing may be noted.
    Nothing,
    /// That of another text: what is noted doesn't count.
    Other,
    /// That of the text, with the gate of the first record since that doesn't fit.
    This(Option<u64>),
}

/// What was loaded so far. A record is tested as it is noted: all that was noted isn't held.
pub struct Loading<'a> {
    graph: &'a Graph,
    text: &'a [u8],
    kept: Kept,
    sources: Sources,
    ground: Ground,
    // the gate of the payload that comes next
    gate: u64,
}

impl Drop for Loading<'_> {
    fn drop(self) {
        let Loading {
            graph: _,
            text: _,
            kept,
            sources,
            ground: _,
            gate: _,
        } = self;
        drop(kept);
        drop(sources);
    }
}

impl<'a> Loading<'a> {
    pub fn new(alloc: Global, graph: &'a Graph, text: &'a [u8], gate: u64) -> Self
        ensures nothing { state_of result no_past ≡ nothing }
        ensures past { IsPast result no_past }
        ensures graph { result.graph.now ≡ graph.now }
        ensures text { result.text.now ≡ text.now }
        ensures gate { result.gate ≡ gate }
        ensures unchecked { AreUnchecked result.kept.records.records }
        ensures fit { HeldFit result }
    {
        Loading {
            graph,
            text,
            kept: Kept::new(alloc),
            sources: Sources::new(alloc),
            ground: Ground::Nothing,
            gate,
        }
    }

    /// Whether the last graph is that of the text.
    pub fn has_graph(&self) -> bool
        ensures { TellsLast self.now result }
    {
        matches!(self.ground, Ground::This(_))
    }

    /// The gate of the first record that counts and doesn't fit.
    fn unfit(&self) -> Option<u64>
        ensures { (past : Past) → IsPast self.now past → TellsUnfit self.now result past }
    {
        match self.ground {
            Ground::This(unfit) => unfit,
            _ => None,
        }
    }

    /// Forgets all that was noted of nodes.
    pub fn forget_records(&mut self)
        ensures tables { self.new.kept.tables ≡ without_records self.old.kept.tables }
        ensures records { self.new.kept.records.records ≡ [] }
        ensures sources { self.new.sources ≡ self.old.sources }
    {
        self.kept.forget_records();
    }

    /// The tables and the sources.
    pub fn into_parts(self) -> (Kept, Sources)
        ensures kept { result.0 ≡ self.entry.kept }
        ensures sources { result.1 ≡ self.entry.sources }
    {
        let Loading {
            graph: _,
            text: _,
            kept,
            sources,
            ground: _,
            gate: _,
        } = self;
        (kept, sources)
    }

    // Takes the item in that stands at a place, and gives the place after it.
    fn load_item(
        &mut self,
        alloc: Global,
        payload: &Text,
        at: usize,
    ) -> Result<Option<usize>, Memory>
        requires { HeldFit self.old }
        ensures some { IfOk result (λ read. IfSome read (λ end.
            TakesItem payload.now at end self.old self.new)) }
        ensures none { IfOk result (λ read. IfNone read (TakesNoItem payload.now at self.old)) }
        ensures unchecked { IfOk result (λ read.
            OnSome read (StaysUnchecked self.old self.new)) }
        ensures fit { IfOk result (λ read. OnSome read (HeldFit self.new)) }
        ensures same { IsForSame self.old self.new }
        ensures gate { self.new.gate ≡ self.old.gate }
    {
        let Some((loaded, end)) = self.kept.load_item(alloc, payload, at)? else {
            return Ok(None);
        };
        self.kept.records_fit();
        if !self.take_in(alloc, loaded)? {
            return Ok(None);
        }
        Ok(Some(end))
    }

    // Takes in what an item brings, if it may come.
    fn take_in(&mut self, alloc: Global, loaded: Loaded) -> Result<bool, Memory>
        requires { MayTakeIn loaded self.old }
        ensures taken { IfOk result (λ taken. IsTrue taken → TakesIn loaded self.old self.new) }
        ensures refused { IfOk result (λ taken. IsFalse taken → Refuses loaded self.old) }
        ensures fit { IfOk result (λ taken. IsTrue taken → HeldFit self.new) }
        ensures same { IsForSame self.old self.new }
        ensures gate { self.new.gate ≡ self.old.gate }
        ensures kept { self.new.kept ≡ self.old.kept }
    {
        match loaded {
            Loaded::Graph(last) => {
                self.ground = ground_of(self.graph, self.text, last.as_slice());
                Ok(true)
            }
            Loaded::Content => Ok(true),
            Loaded::Put(name, text) => {
                self.sources.reserve()?;
                let _ = self.sources.put(name, text);
                Ok(true)
            }
            Loaded::Dropped(name) => Ok(self.sources.remove(name.as_slice()).is_some()),
            Loaded::CallKept => Ok(true),
            Loaded::Noted(place) => self.note(alloc, place),
        }
    }

    // Notes the record at a place, if there is a graph before it. It is tested where it counts and all before it fit.
    fn note(&mut self, alloc: Global, place: u64) -> Result<bool, Memory>
        requires { MayNote place self.old }
        ensures noted { IfOk result (λ noted. IsTrue noted
            → NotesAt place self.old.kept.tables.records self.old self.new) }
        ensures none { IfOk result (λ noted. IsFalse noted
            → self.old.ground ≡ ground_is.Nothing) }
        ensures fit { IfOk result (λ noted. IsTrue noted → HeldFit self.new) }
        ensures same { IsForSame self.old self.new }
        ensures gate { self.new.gate ≡ self.old.gate }
        ensures kept { self.new.kept ≡ self.old.kept }
        ensures sources { self.new.sources ≡ self.old.sources }
    {
        match self.ground {
            Ground::Nothing => Ok(false),
            Ground::Other => Ok(true),
            Ground::This(Some(_)) => Ok(true),
            Ground::This(None) => {
                if !self.fits_at(alloc, place)? {
                    self.ground = Ground::This(Some(self.gate));
                }
                Ok(true)
            }
        }
    }

    // Whether the record at a place fits.
    fn fits_at(&self, alloc: Global, place: u64) -> Result<bool, Memory>
        requires may { MayNote place self.now }
        requires counts { self.now.ground ≡ ground_is.This None }
        ensures fits { IfOk result (λ fits. IsTrue fits → FitsAt place self.now) }
        ensures unfit { IfOk result (λ fits. IsFalse fits → UnfitAt place self.now) }
    {
        self.kept.records_fit();
        match self.kept.record_at(place) {
            Some(noted) => fits_noted(alloc, self.graph, &self.kept, noted),
            None => Ok(false),
        }
    }

    // Takes a payload in. Where it doesn't read, what was loaded is used no more.
    fn load(&mut self, alloc: Global, payload: &Text) -> Result<bool, Memory>
        requires { HeldFit self.old }
        ensures read { IfOk result (λ reads. IsTrue reads → Loads payload.now self.old self.new) }
        ensures unread { IfOk result (λ reads. IsFalse reads → LoadsNot payload.now self.old) }
        ensures same { IsForSame self.old self.new }
        ensures gate { IfOk result (λ reads. IsTrue reads
            → self.new.gate ≡ gate_after self.old.gate payload.now) }
        ensures unchecked { IfOk result (λ reads. IsTrue reads
            → StaysUnchecked self.old self.new) }
        ensures fit { IfOk result (λ reads. IsTrue reads → HeldFit self.new) }
    {
        reads_in_one_way();
        let mut at = 0;
        'items: while at < payload.len() {
            let Some(end) = self.load_item(alloc, payload, at)? else {
                return Ok(false);
            };
            at = end;
        }
        self.gate = gate_behind(self.gate, payload)?;
        Ok(!payload.is_empty())
    }
}

// What the text of a last graph tells.
fn ground_of(graph: &Graph, text: &[u8], last: &[u8]) -> Ground
    ensures { IsGround graph.now text.now (after_graph last.now) result }
{
    if last == text {
        Ground::This(None)
    } else {
        Ground::Other
    }
}

// The gate after a payload. No file is so long that there is none.
fn gate_behind(gate: u64, payload: &Text) -> Result<u64, Memory>
    ensures { IfOk result (λ next. next ≡ gate_after gate payload.now) }
{
    match gate.checked_add(5) {
        Some(start) => start.checked_add(payload.len() as u64).ok_or(Memory),
        None => Err(Memory),
    }
}

/// What these records make of nothing, the first one first, for the graph of a text, where all that counts fits. Each is let go once it is loaded. The
/// gate of the first stands at `start`.
pub fn load_records<'a>(
    alloc: Global,
    graph: &'a Graph,
    text: &'a [u8],
    records: Seq<Text>,
    start: u64,
) -> Result<Loading<'a>, JournalFault>
    ensures read { IfOk result (HasRead graph.now text.now records) }
    ensures fault { IfErr result (IsRecordLoadFault graph.now text.now records start) }
{
    let mut loading = Loading::new(alloc, graph, text, start);
    // Taken from the end, each record is let go once it is loaded, so that no two forms of the whole file are held.
    let mut left = records.into_vec();
    left.reverse();
    'records: while let Some(payload) = left.pop() {
        let unfit = loading.unfit();
        let gate = loading.gate;
        if !loading.load(alloc, &payload)? {
            return Err(JournalFault::NotOurs(unfit.unwrap_or(gate)));
        }
    }
    match loading.unfit() {
        Some(at) => Err(JournalFault::NotOurs(at)),
        None => Ok(loading),
    }
}

/// The gate of the first of these records, where the closed gate after them all stands at `end`.
pub fn first_gate(end: u64, records: &[Text]) -> u64
    ensures { result ≡ end - records_size records.now }
{
    let mut gate = end;
    for record in records {
        gate = gate.saturating_sub(record.len() as u64).saturating_sub(5);
    }
    gate
}
