// A list that grows at its end.
ghost use Rattle.std.specs.Prelude.{◌≡◌, ◌↔◌, ◌+◌, ◌∷◌, ◌++◌, [], List, length, take, IsTrue, OnOk, OnErr};

use crate::copied::Copied;
use crate::memory::Memory;
use std::alloc::Global;
use std::cmp::Ordering;
use std::hash::{Hash, Hasher};
use std::marker::Model;

/// A list over a `Vec`, which contracts see as the list of its items.
pub struct Seq<T> {
    items: Vec<T>,
}

// By hand: a drop is one call, where a derived one is opened field by field at each early return.
impl<T: Drop> Drop for Seq<T> {
    fn drop(self) {
        let Seq { items } = self;
        drop(items);
    }
}

impl<T> Model for Seq<T> {
    ghost Value = { List T };

    ghost view = { λ s. s.items.items };
}

impl<T> Seq<T> {
    pub fn new(alloc: Global) -> Self
        ensures { result ≡ [] }
    {
        Seq {
            items: Vec::new(alloc),
        }
    }

    /// The same items, without memory.
    pub fn from_vec(items: Vec<T>) -> Self
        ensures { result ≡ items.items }
    {
        Seq { items }
    }

    /// The same items, without memory.
    pub fn into_vec(self) -> Vec<T>
        ensures { result.items ≡ self }
    {
        let Seq { items } = self;
        items
    }

    pub fn as_slice(&self) -> &[T]
        ensures { result.now ≡ self.now }
    {
        &self.items
    }

    pub fn len(&self) -> usize
        ensures { result ≡ length self.now }
    {
        self.items.len()
    }

    pub fn is_empty(&self) -> bool
        ensures { IsTrue result ↔ (self.now ≡ []) }
    {
        self.items.is_empty()
    }
}

impl<T: Drop> Seq<T> {
    /// Adds an item at the end.
    pub fn push(&mut self, item: T) -> Result<(), Memory>
        ensures ok { OnOk result (self.new ≡ self.old ++ item ∷ []) }
        ensures err { OnErr result (self.new ≡ self.old) }
    {
        self.items.push(item)?;
        Ok(())
    }

    /// Keeps the first items, and no more than this many.
    pub fn truncate(&mut self, len: usize)
        ensures { self.new ≡ take len self.old }
    {
        self.items.truncate(len);
    }

    /// Takes all items out. The memory stays for later ones.
    pub fn clear(&mut self)
        ensures { self.new ≡ [] }
    {
        self.items.clear();
    }
}

impl<T: Copied> Copied for Seq<T> {
    fn copy(&self, alloc: Global) -> Result<Self, Memory> {
        Ok(Seq {
            items: T::copy_all(alloc, &self.items)?,
        })
    }
}

impl<T: PartialEq> PartialEq for Seq<T> {
    ghost use Rattle.std.specs.Cmp.Lexicographic.{pointwise, lists_per};

    ghost eq = { λ x y. pointwise T.eq x y };

    ghost laws = { lists_per T.laws };

    fn eq(&self, other: &Self) -> bool {
        self.as_slice() == other.as_slice()
    }
}

impl<T: Eq> Eq for Seq<T> {
    ghost use Rattle.std.specs.Cmp.Lexicographic.{lists_equiv};

    ghost laws = { lists_equiv T.Eq.laws };
}

impl<T: PartialOrd> PartialOrd for Seq<T> {
    ghost use Rattle.std.specs.Cmp.Lexicographic.{slice_partial_cmp, lists_po};

    ghost partial_cmp = { λ x y. slice_partial_cmp T.partial_cmp x y };

    ghost laws = { lists_po T.PartialOrd.laws };

    fn partial_cmp(&self, other: &Self) -> Option<Ordering> {
        self.as_slice().partial_cmp(&other.as_slice())
    }
}

impl<T: Ord> Ord for Seq<T> {
    ghost use Rattle.std.specs.Cmp.Lexicographic.{slice_cmp, lists_total, lists_agrees, lists_ties};

    ghost cmp = { λ x y. slice_cmp T.cmp x y };

    ghost total = { lists_total T.total };

    ghost matches_partial_cmp = { λ x y. lists_agrees T.matches_partial_cmp x y };

    ghost matches_eq = { λ x y. lists_ties T.cmp T.matches_eq x y };

    fn cmp(&self, other: &Self) -> Ordering {
        self.as_slice().cmp(&other.as_slice())
    }
}

impl<T: Hash> Hash for Seq<T> {
    ghost use Rattle.std.specs.Hash as fed;
    ghost use Rattle.std.specs.Hash.{items_Alike};

    ghost hash_input = { λ v. fed.slice T.hash_input v };

    ghost respects_eq = { (items_Alike (record { fed = T.respects_eq })).fed };

    fn hash<H: Hasher>(&self, state: &mut H) {
        self.as_slice().hash(state);
    }
}
