// Kept calls in their order, which are found by the marks of their keys.
ghost use Rattle.std.specs.Prelude.{◌≡◌, ◌<◌, ◌-◌, ◌∷◌, ◌++◌, [], None, OnOk, option_map, vec_capacity, vec_len};
ghost use Rattle.std.specs.Map.{lookup};
ghost use Rattle.content_store.specs.Marks.{KeepsNumbers};
ghost use Rattle.kept_contents.specs.Borrowed.{as_key};
ghost use Rattle.kept_contents.specs.contracts.keys.CallKeyPartialEq.TheImpl.{ghosts as key_eq};
ghost use Rattle.kept_tables.specs.Calls.{IsCallIndex, key_of_sought, room_of};

use content_store::{Mark, Marks, Sought};
use kept_contents::{CallHead, CallKey, ContentTable, SoughtKey};
use object_values::{CallPart, Memory, Outcome};
use std::alloc::Global;

/// What is kept under the key of a call.
pub(crate) struct Entry {
    pub(crate) head: CallHead,
    pub(crate) outcome: Outcome,
}

impl Drop for Entry {
    fn drop(self) {
        let Entry { head, outcome } = self;
        drop(head);
        drop(outcome);
    }
}

/// Kept calls under their keys, in the order in which they were kept. A quick hash leads to a call;
/// the digest of its key is taken only where another kept call has the same hash.
pub(crate) struct CallTable {
    pub(crate) entries: Vec<(CallKey, Entry)>,
    pub(crate) marks: Marks,
}

impl Drop for CallTable {
    fn drop(self) {
        let CallTable { entries, marks } = self;
        drop(entries);
        drop(marks);
    }
}

impl CallTable {
    pub(crate) fn new(alloc: Global) -> Self
        ensures { result.entries.items ≡ [] }
    {
        CallTable {
            entries: Vec::new(alloc),
            marks: Marks::new(alloc),
        }
    }

    /// What is kept under a key of texts that this table holds.
    pub(crate) fn get(&self, table: &ContentTable, key: SoughtKey<'_>) -> Option<&Entry>
        requires { IsCallIndex table.now.texts self.now }
        ensures { option_map (λ e. e.now) result
            ≡ lookup (key_eq.eq (as_key key.entry)) self.now.entries.items }
    {
        let sought = SoughtCall {
            entries: self.entries.as_slice(),
            table,
            head: key.head,
            hash: key.hash,
            parts: key.parts,
        };
        match self.marks.find(&sought) {
            Some(number) => {
                let kept = &self.entries[number as usize];
                Some(&kept.1)
            }
            None => None,
        }
    }

    /// Makes room for one more.
    pub(crate) fn reserve(&mut self) -> Result<(), Memory>
        ensures entries { self.new.entries.items ≡ self.old.entries.items }
        ensures marks { KeepsNumbers self.old.marks self.new.marks }
        ensures room { OnOk result (0 < room_of self.new) }
    {
        self.entries.reserve(1)?;
        self.marks.reserve()
    }

    /// Keeps a call that isn't kept. It takes no memory.
    pub(crate) fn push(&mut self, table: &ContentTable, key: CallKey, entry: Entry)
        requires index { IsCallIndex table.now.texts self.old }
        requires fresh { lookup (key_eq.eq key) self.old.entries.items ≡ None }
        requires room { 0 < room_of self.old }
        ensures entries { self.new.entries.items ≡ self.old.entries.items ++ (key, entry) ∷ [] }
        ensures index { IsCallIndex table.now.texts self.new }
    {
        let number = self.entries.len() as u64;
        self.marks.add(
            &SoughtCall {
                entries: self.entries.as_slice(),
                table,
                head: key.head,
                hash: key.hash,
                parts: key.parts.as_slice(),
            },
            number,
        );
        push_within(&mut self.entries, (key, entry));
    }
}

// Adds an entry for which there is room.
fn push_within(entries: &mut Vec<(CallKey, Entry)>, entry: (CallKey, Entry))
    requires { 0 < vec_capacity entries.old - vec_len entries.old }
    ensures { entries.new.items ≡ entries.old.items ++ entry ∷ [] }
{
    let _ = entries.push(entry);
}

/// A call that is looked for by its key.
struct SoughtCall<'a> {
    entries: &'a [(CallKey, Entry)],
    table: &'a ContentTable,
    head: u64,
    hash: u64,
    parts: &'a [CallPart],
}

impl Drop for SoughtCall<'_> {
    fn drop(self) {
        let SoughtCall {
            entries: _,
            table: _,
            head: _,
            hash: _,
            parts: _,
        } = self;
    }
}

impl<'a> SoughtCall<'a> {
    fn key(&self) -> SoughtKey<'a>
        ensures { as_key result ≡ key_of_sought self.now }
    {
        SoughtKey {
            head: self.head,
            hash: self.hash,
            parts: self.parts,
        }
    }
}

impl Sought for SoughtCall<'_> {
    ghost use Rattle.std.specs.Prelude.{Some};
    ghost use Rattle.kept_contents.specs.Keys.{marks_of};
    ghost use Rattle.kept_tables.specs.Calls.{key_at, key_of_sought};

    ghost marks = { λ s. marks_of s.table.now.texts (key_of_sought s) };

    ghost is_at = { λ s i. key_at s.entries.now i ≡ Some (key_of_sought s) };

    fn levels(&self) -> usize {
        2
    }

    fn mark(&self, level: usize) -> Mark {
        let key = self.key();
        key.mark(self.table, level)
    }

    fn is_at(&self, number: u64) -> bool {
        match self.entries.get(number as usize) {
            Some(kept) => self.key().is(&kept.0),
            None => false,
        }
    }
}
