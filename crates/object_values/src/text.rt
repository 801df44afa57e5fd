// Texts that share the buffer of which they are parts.
ghost use Rattle.std.specs.Prelude.{◌≡◌, ◌↔◌, ◌≤◌, [], length, IsTrue, IfOk};
ghost use Rattle.std.specs.List.{slice_range};

use sequences::{Bytes, Copied, Memory};
use std::alloc::Global;
use std::hash::{Hash, Hasher};
use std::marker::Model;
use std::rc::RcSlice;

/// Bytes that never change, which contracts see as their list: a buffer, or a part of one. A copy is a count: it shares the buffer.
pub struct Text {
    buffer: RcSlice<u8>,
    from: usize,
    to: usize,
}

// By hand: a drop is one call, where a derived one is opened field by field at each early return.
impl Drop for Text {
    fn drop(self) {
        let Text {
            buffer,
            from: _,
            to: _,
        } = self;
        drop(buffer);
    }
}

impl Model for Text {
    ghost use Rattle.std.specs.Prelude.{ℕ, List, ◌≤◌, length};
    ghost use Rattle.std.specs.List.{slice_range};
    ghost use Rattle.std.specs.Rc.{rc_slice_items};

    ghost Value = { List ℕ };

    ghost view = { λ t. slice_range (rc_slice_items t.buffer) t.from t.to };

    ghost invariant = { λ t. (t.from ≤ t.to) × (t.to ≤ length (rc_slice_items t.buffer)) };
}

impl Text {
    /// The same bytes. Long ones are moved, so that only the count beside them takes memory.
    pub fn of(bytes: Bytes) -> Result<Self, Memory>
        ensures { IfOk result (λ text. text ≡ bytes) }
    {
        let to = bytes.len();
        Ok(Text {
            buffer: RcSlice::from_vec(bytes.into_vec()?)?,
            from: 0,
            to,
        })
    }

    pub fn as_slice(&self) -> &[u8]
        ensures { result.now ≡ self.now }
    {
        &self.buffer.as_slice()[self.from..self.to]
    }

    pub fn len(&self) -> usize
        ensures { result ≡ length self.now }
    {
        self.to - self.from
    }

    /// The bytes from one place to another. No byte is copied, and the buffer stays as long as any part of it.
    pub fn part(&self, from: usize, to: usize) -> Result<Self, Memory>
        requires from { from ≤ to }
        requires to { to ≤ length self.now }
        ensures { IfOk result (λ part. part ≡ slice_range self.now from to) }
    {
        Ok(Text {
            buffer: self.buffer.clone()?,
            from: self.from + from,
            to: self.from + to,
        })
    }

    pub fn is_empty(&self) -> bool
        ensures { IsTrue result ↔ (self.now ≡ []) }
    {
        self.as_slice().is_empty()
    }
}

impl Copied for Text {
    fn copy(&self, _alloc: Global) -> Result<Self, Memory> {
        Ok(Text {
            buffer: self.buffer.clone()?,
            from: self.from,
            to: self.to,
        })
    }
}

impl PartialEq for Text {
    ghost use Rattle.std.specs.Cmp.Lexicographic.{pointwise, nat_list_eq_equiv};
    ghost use Rattle.std.specs.Cmp.{partial_equiv_from_equiv};
    ghost use Rattle.std.specs.Prelude.{nat_eq};

    ghost eq = { pointwise nat_eq };

    ghost laws = { partial_equiv_from_equiv nat_list_eq_equiv };

    fn eq(&self, other: &Self) -> bool {
        self.as_slice() == other.as_slice()
    }
}

impl Eq for Text {
    ghost use Rattle.std.specs.Cmp.Lexicographic.{nat_list_eq_equiv};

    ghost laws = { nat_list_eq_equiv };
}

impl Hash for Text {
    ghost use Rattle.std.specs.Hash.{same_Alike};
    ghost use Rattle.std.specs.Cmp.Lexicographic.{bytes_decides};
    ghost use Rattle.sequences.specs.Fed.{bytes_fed};

    ghost hash_input = { bytes_fed };

    ghost respects_eq = { (same_Alike bytes_fed bytes_decides).fed };

    fn hash<H: Hasher>(&self, state: &mut H) {
        state.write_usize(self.len());
        state.write(self.as_slice());
    }
}
