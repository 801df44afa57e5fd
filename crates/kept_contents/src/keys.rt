// The keys of kept calls.
ghost use Rattle.std.specs.Prelude.{◌≡◌, ◌<◌, IfNone, IfSome, Some, slice_get};
ghost use Rattle.kept_contents.specs.Borrowed.{as_key, key_of};
ghost use Rattle.kept_contents.specs.Keys.{IsKeyOf, IsUnheld, marks_of};

use crate::heads::Heads;
use crate::held::HeldCall;
use crate::inputs::{digest_with_head, hash_parts, hash_with_head};
use crate::table::ContentTable;
use content_store::Mark;
use object_values::{Call, CallPart, Seq};

/// The key of a kept call: the number of its head, a quick hash of its inputs, and these.
#[derive(PartialEq, Eq)]
pub struct CallKey {
    pub head: u64,
    pub hash: u64,
    pub parts: Seq<CallPart>,
}

impl Drop for CallKey {
    fn drop(self) {
        let CallKey {
            head: _,
            hash: _,
            parts,
        } = self;
        drop(parts);
    }
}

/// A key whose inputs are borrowed: nothing is copied.
#[derive(Clone, Copy)]
pub struct SoughtKey<'a> {
    pub head: u64,
    pub hash: u64,
    pub parts: &'a [CallPart],
}

impl<'a> SoughtKey<'a> {
    /// The key of a call. `None` where its head or a text of its inputs isn't held.
    pub fn of(table: &ContentTable, heads: &Heads, call: &'a Call) -> Option<Self>
        ensures some { IfSome result (λ q. IsKeyOf heads.now table.now.texts (as_key q) call.now) }
        ensures none { IfNone result (IsUnheld heads.now table.now.texts call.now) }
    {
        let parts = call.parts.as_slice();
        let Some(head) = heads.find(call) else {
            return None;
        };
        match hash_parts(table, parts) {
            Some(hash) => Some(SoughtKey { head, hash, parts }),
            None => None,
        }
    }

    /// The key of a call that is held.
    pub fn of_held(held: &'a HeldCall) -> Self
        ensures { as_key result ≡ key_of held.now }
    {
        SoughtKey {
            head: held.head,
            hash: held.hash,
            parts: held.call.parts.as_slice(),
        }
    }

    /// A mark, from the cheapest on: the second one is taken of the texts' numbers in this table.
    pub fn mark(&self, table: &ContentTable, level: usize) -> Mark
        requires { level < 2 }
        ensures { slice_get (marks_of table.now.texts (as_key self.now)) level ≡ Some result }
    {
        match level {
            0 => Mark::Quick(hash_with_head(self.head, self.hash)),
            _ => Mark::Digest(digest_with_head(table, self.head, self.parts)),
        }
    }
}

impl SoughtKey<'_> {
    ghost use Rattle.kept_contents.specs.contracts.keys.CallKeyPartialEq.TheImpl.{ghosts as key_eq};

    /// Whether it is this key.
    pub fn is(&self, key: &CallKey) -> bool
        ensures { result ≡ key_eq.eq (as_key self.now) key.now }
    {
        self.head == key.head && self.hash == key.hash && self.parts == key.parts.as_slice()
    }
}
