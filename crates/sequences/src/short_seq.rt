// A list of few items, which grows at its end. The first ones lie in the value itself, so that such a list takes no block of memory of its own.
ghost use Rattle.std.specs.Prelude.{◌≡◌, ◌↔◌, ◌∷◌, ◌++◌, [], List, length, IsTrue, OnOk, OnErr, IfOk};

use crate::copied::Copied;
use crate::exact::Exact;
use crate::memory::Memory;
use smallvec::SmallVec;
use std::alloc::Global;
use std::hash::{Hash, Hasher};
use std::marker::Model;

/// How many items lie in the value.
const FEW: usize = 2;

/// A list that is mostly short, which contracts see as the list of its items.
pub struct ShortSeq<T> {
    items: SmallVec<T, FEW>,
}

// By hand: a drop is one call, where a derived one is opened field by field at each early return.
impl<T: Drop> Drop for ShortSeq<T> {
    fn drop(self) {
        let ShortSeq { items } = self;
        drop(items);
    }
}

impl<T> Model for ShortSeq<T> {
    ghost Value = { List T };

    ghost view = { λ s. s.items.items };
}

impl<T> ShortSeq<T> {
    pub fn as_slice(&self) -> &[T]
        ensures { result.now ≡ self.now }
    {
        self.items.as_slice()
    }

    pub fn len(&self) -> usize
        ensures { result ≡ length self.now }
    {
        self.items.len()
    }

    pub fn is_empty(&self) -> bool
        ensures { IsTrue result ↔ (self.now ≡ []) }
    {
        self.as_slice().is_empty()
    }
}

impl<T: Default + Drop> ShortSeq<T> {
    pub fn new(alloc: Global) -> Self
        ensures { result ≡ [] }
    {
        ShortSeq {
            items: SmallVec::new(alloc),
        }
    }

    /// Adds an item at the end.
    pub fn push(&mut self, item: T) -> Result<(), Memory>
        ensures ok { OnOk result (self.new ≡ self.old ++ item ∷ []) }
        ensures err { OnErr result (self.new ≡ self.old) }
    {
        self.items.push(item)?;
        Ok(())
    }
}

impl<T: Copied + Default> ShortSeq<T> {
    /// Equal items.
    pub fn of(alloc: Global, items: &[T]) -> Result<Self, Memory>
        ensures { IfOk result (λ made. made ≡ items.now) }
    {
        let mut copies = SmallVec::with_capacity(alloc, items.len())?;
        for item in items {
            copies.push(item.copy(alloc)?)?;
        }
        Ok(ShortSeq { items: copies })
    }
}

impl<T: Copied + Default> Copied for ShortSeq<T> {
    fn copy(&self, alloc: Global) -> Result<Self, Memory> {
        ShortSeq::of(alloc, self.as_slice())
    }
}

impl<T: PartialEq> PartialEq for ShortSeq<T> {
    ghost use Rattle.std.specs.Cmp.Lexicographic.{pointwise, lists_per};

    ghost eq = { λ x y. pointwise T.eq x y };

    ghost laws = { lists_per T.laws };

    fn eq(&self, other: &Self) -> bool {
        self.as_slice() == other.as_slice()
    }
}

impl<T: Eq> Eq for ShortSeq<T> {
    ghost use Rattle.std.specs.Cmp.Lexicographic.{lists_equiv};

    ghost laws = { lists_equiv T.Eq.laws };
}

impl<T: Hash> Hash for ShortSeq<T> {
    ghost use Rattle.std.specs.Hash as fed;
    ghost use Rattle.std.specs.Hash.{items_Alike};

    ghost hash_input = { λ v. fed.slice T.hash_input v };

    ghost respects_eq = { (items_Alike (record { fed = T.respects_eq })).fed };

    fn hash<H: Hasher>(&self, state: &mut H) {
        self.as_slice().hash(state);
    }
}

impl<T: Exact> Exact for ShortSeq<T> {
    ghost use Rattle.std.specs.Cmp.Lexicographic.{pointwise_decides};

    ghost exact = { pointwise_decides T.exact };
}
