// Bytes that grow at their end. Short ones lie in the value itself, so that a name takes no block of memory of its own.
ghost use Rattle.std.specs.Prelude.{◌≡◌, ◌↔◌, ◌∷◌, ◌++◌, [], length, take, IsTrue, OnOk, OnErr, IfOk};

use crate::copied::Copied;
use crate::exact::Exact;
use crate::memory::Memory;
use smallvec::SmallVec;
use std::alloc::Global;
use std::cmp::Ordering;
use std::hash::{Hash, Hasher};
use std::marker::Model;

/// How many bytes lie in the value: more than most names have.
const SHORT: usize = 24;

/// Bytes, of whatever text they are, which contracts see as their list.
pub struct Bytes {
    bytes: SmallVec<u8, SHORT>,
}

// By hand: a drop is one call, where a derived one is opened field by field at each early return.
impl Drop for Bytes {
    fn drop(self) {
        let Bytes { bytes } = self;
        drop(bytes);
    }
}

impl Model for Bytes {
    ghost use Rattle.std.specs.Prelude.{ℕ, List};

    ghost Value = { List ℕ };

    ghost view = { λ b. b.bytes.items };
}

impl Bytes {
    pub fn new(alloc: Global) -> Self
        ensures { result ≡ [] }
    {
        Bytes {
            bytes: SmallVec::new(alloc),
        }
    }

    pub fn from_slice(alloc: Global, bytes: &[u8]) -> Result<Self, Memory>
        ensures { IfOk result (λ made. made ≡ bytes.now) }
    {
        Ok(Bytes {
            bytes: SmallVec::from_slice(alloc, bytes)?,
        })
    }

    /// The same bytes, without memory.
    pub fn from_vec(bytes: Vec<u8>) -> Self
        ensures { result ≡ bytes.items }
    {
        Bytes {
            bytes: SmallVec::from_vec(bytes),
        }
    }

    /// The same bytes. Only short ones take memory.
    pub fn into_vec(self) -> Result<Vec<u8>, Memory>
        ensures { IfOk result (λ made. made.items ≡ self) }
    {
        let Bytes { bytes } = self;
        Ok(bytes.into_vec()?)
    }

    pub fn as_slice(&self) -> &[u8]
        ensures { result.now ≡ self.now }
    {
        self.bytes.as_slice()
    }

    pub fn len(&self) -> usize
        ensures { result ≡ length self.now }
    {
        self.bytes.len()
    }

    pub fn is_empty(&self) -> bool
        ensures { IsTrue result ↔ (self.now ≡ []) }
    {
        self.as_slice().is_empty()
    }

    /// Adds a byte at the end.
    pub fn push(&mut self, byte: u8) -> Result<(), Memory>
        ensures ok { OnOk result (self.new ≡ self.old ++ byte ∷ []) }
        ensures err { OnErr result (self.new ≡ self.old) }
    {
        self.bytes.push(byte)?;
        Ok(())
    }

    /// Keeps the first bytes, and no more than this many.
    pub fn truncate(&mut self, len: usize)
        ensures { self.new ≡ take len self.old }
    {
        self.bytes.truncate(len);
    }

    /// Takes all bytes out. The memory stays for later ones.
    pub fn clear(&mut self)
        ensures { self.new ≡ [] }
    {
        self.bytes.clear();
    }

    /// Makes room for just so many bytes more. That is a hint: contracts see the bytes alone, so no clause tells of the room.
    pub fn reserve_exact(&mut self, more: usize) -> Result<(), Memory>
        ensures { self.new ≡ self.old }
    {
        self.bytes.reserve_exact(more)?;
        Ok(())
    }

    /// Adds bytes at the end.
    pub fn extend_from_slice(&mut self, bytes: &[u8]) -> Result<(), Memory>
        ensures ok { OnOk result (self.new ≡ self.old ++ bytes.now) }
        ensures err { OnErr result (self.new ≡ self.old) }
    {
        self.bytes.extend_from_slice(bytes)?;
        Ok(())
    }
}

impl Copied for Bytes {
    fn copy(&self, alloc: Global) -> Result<Self, Memory> {
        Bytes::from_slice(alloc, self.as_slice())
    }
}

impl PartialEq for Bytes {
    ghost use Rattle.std.specs.Cmp.Lexicographic.{pointwise, nat_list_eq_equiv};
    ghost use Rattle.std.specs.Cmp.{partial_equiv_from_equiv};
    ghost use Rattle.std.specs.Prelude.{nat_eq};

    ghost eq = { pointwise nat_eq };

    ghost laws = { partial_equiv_from_equiv nat_list_eq_equiv };

    fn eq(&self, other: &Self) -> bool {
        self.as_slice() == other.as_slice()
    }
}

impl Eq for Bytes {
    ghost use Rattle.std.specs.Cmp.Lexicographic.{nat_list_eq_equiv};

    ghost laws = { nat_list_eq_equiv };
}

impl PartialOrd for Bytes {
    ghost use Rattle.std.specs.Cmp.Lexicographic.{slice_cmp, texts_po};
    ghost use Rattle.std.specs.Prelude.{Some};
    ghost use Rattle.std.specs.Ordering.{nat_cmp};

    ghost partial_cmp = { λ xs ys. Some (slice_cmp nat_cmp xs ys) };

    ghost laws = { texts_po };

    fn partial_cmp(&self, other: &Self) -> Option<Ordering> {
        Some(self.cmp(other))
    }
}

impl Ord for Bytes {
    ghost use Rattle.std.specs.Cmp.Lexicographic.{slice_cmp, nat_list_cmp_total, texts_ties};
    ghost use Rattle.std.specs.Ordering.{nat_cmp};
    ghost use Rattle.std.specs.Prelude.{refl};

    ghost cmp = { slice_cmp nat_cmp };

    ghost total = { nat_list_cmp_total };

    ghost matches_partial_cmp = { λ xs ys. refl };

    ghost matches_eq = { texts_ties };

    fn cmp(&self, other: &Self) -> Ordering {
        self.as_slice().cmp(&other.as_slice())
    }
}

impl Hash for Bytes {
    ghost use Rattle.std.specs.Hash.{same_Alike};
    ghost use Rattle.std.specs.Cmp.Lexicographic.{bytes_decides};
    ghost use Rattle.sequences.specs.Fed.{bytes_fed};

    ghost hash_input = { bytes_fed };

    ghost respects_eq = { (same_Alike bytes_fed bytes_decides).fed };

    fn hash<H: Hasher>(&self, state: &mut H) {
        state.write_usize(self.len());
        state.write(self.as_slice());
    }
}

impl Exact for Bytes {
    ghost use Rattle.std.specs.Cmp.Lexicographic.{bytes_decides};

    ghost exact = { bytes_decides };
}
