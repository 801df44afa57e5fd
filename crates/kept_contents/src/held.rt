// Calls that are held, with what tells them apart.
ghost use Rattle.std.specs.Prelude.{◌≡◌, IfOk, Some};
ghost use Rattle.kept_contents.specs.Borrowed.{key_of};
ghost use Rattle.kept_contents.specs.Heads.{AreMore, head_of, place_of_head};
ghost use Rattle.kept_contents.specs.Held.{IsHeld};
ghost use Rattle.kept_contents.specs.Stocks.{IsGrownFrom};

use crate::head::CallHead;
use crate::heads::Heads;
use crate::inputs::hold_parts;
use crate::keys::CallKey;
use crate::table::ContentTable;
use object_values::{Call, Memory};
use std::alloc::Global;

/// A call with the number of its head and a quick hash of its inputs.
pub struct HeldCall {
    pub head: u64,
    pub hash: u64,
    pub call: Call,
}

impl Drop for HeldCall {
    fn drop(self) {
        let HeldCall {
            head: _,
            hash: _,
            call,
        } = self;
        drop(call);
    }
}

impl HeldCall {
    /// A call whose head and whose inputs' texts are held from now on.
    pub fn hold(
        alloc: Global,
        table: &mut ContentTable,
        heads: &mut Heads,
        call: Call,
    ) -> Result<Self, Memory>
        ensures held { IfOk result (IsHeld heads.new table.new.texts) }
        ensures call { IfOk result (λ held. held.call ≡ call) }
        ensures more { AreMore heads.old heads.new }
        ensures contents { table.new.contents ≡ table.old.contents }
        ensures texts { IsGrownFrom table.old.texts table.new.texts }
    {
        let hash = hold_parts(alloc, table, call.parts.as_slice())?;
        HeldCall::of(alloc, heads, hash, call)
    }

    // A call with the hash of its inputs, whose head is held from now on.
    pub(crate) fn of(
        alloc: Global,
        heads: &mut Heads,
        hash: u64,
        call: Call,
    ) -> Result<Self, Memory>
        ensures head { IfOk result
            (λ held. place_of_head (head_of call) heads.new ≡ Some held.head) }
        ensures hash { IfOk result (λ held. held.hash ≡ hash) }
        ensures call { IfOk result (λ held. held.call ≡ call) }
        ensures more { AreMore heads.old heads.new }
    {
        let head = heads.hold(alloc, &call)?;
        Ok(HeldCall { head, hash, call })
    }

    /// The key and the head, without memory.
    pub fn into_parts(self) -> (CallKey, CallHead)
        ensures key { result.0 ≡ key_of self }
        ensures head { result.1 ≡ head_of self.call }
    {
        let HeldCall { head, hash, call } = self;
        let Call {
            tool,
            version,
            words,
            params,
            parts,
            outs,
        } = call;
        let key = CallKey { head, hash, parts };
        let head = CallHead {
            tool,
            version,
            words,
            params,
            outs,
        };
        (key, head)
    }
}
