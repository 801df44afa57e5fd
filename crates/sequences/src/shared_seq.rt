// Lists that share their items.
ghost use Rattle.std.specs.Prelude.{◌≡◌, ◌↔◌, [], List, length, IsTrue, IfOk};

use crate::copied::Copied;
use crate::exact::Exact;
use crate::memory::Memory;
use crate::seq::Seq;
use std::alloc::Global;
use std::hash::{Hash, Hasher};
use std::marker::Model;
use std::rc::RcSlice;

/// A list that never changes, which contracts see as the list of its items. A copy is a count: it shares them. An empty one takes no memory.
pub struct SharedSeq<T> {
    items: Option<RcSlice<T>>,
}

// By hand: a drop is one call, where a derived one is opened field by field at each early return.
impl<T: Drop> Drop for SharedSeq<T> {
    fn drop(self) {
        let SharedSeq { items } = self;
        drop(items);
    }
}

impl<T> Model for SharedSeq<T> {
    ghost use Rattle.std.specs.Prelude.{List, []};
    ghost use Rattle.std.specs.Option.{option_map_or};
    ghost use Rattle.std.specs.Rc.{rc_slice_items};

    ghost Value = { List T };

    ghost view = { λ s. option_map_or rc_slice_items s.items [] };
}

impl<T> SharedSeq<T> {
    pub fn new() -> Self
        ensures { result ≡ [] }
    {
        SharedSeq { items: None }
    }

    pub fn as_slice(&self) -> &[T]
        ensures { result.now ≡ self.now }
    {
        match &self.items {
            Some(items) => items.as_slice(),
            None => &[],
        }
    }

    pub fn len(&self) -> usize
        ensures { result ≡ length self.now }
    {
        self.as_slice().len()
    }

    pub fn is_empty(&self) -> bool
        ensures { IsTrue result ↔ (self.now ≡ []) }
    {
        self.as_slice().is_empty()
    }
}

impl<T: Drop> SharedSeq<T> {
    /// The same list once more: a copy for which no allocator is at hand.
    pub fn share(&self) -> Result<Self, Memory>
        ensures { IfOk result (λ shared. shared ≡ self.now) }
    {
        match &self.items {
            Some(items) => Ok(SharedSeq {
                items: Some(items.clone()?),
            }),
            None => Ok(SharedSeq::new()),
        }
    }

    /// The same items. They are moved, so that only the count beside them takes memory.
    pub fn of(items: Seq<T>) -> Result<Self, Memory>
        ensures { IfOk result (λ shared. shared ≡ items) }
    {
        if items.is_empty() {
            return Ok(SharedSeq::new());
        }
        Ok(SharedSeq {
            items: Some(RcSlice::from_vec(items.into_vec())?),
        })
    }
}

impl<T: Drop> Copied for SharedSeq<T> {
    fn copy(&self, _alloc: Global) -> Result<Self, Memory> {
        self.share()
    }
}

impl<T: PartialEq> PartialEq for SharedSeq<T> {
    ghost use Rattle.std.specs.Cmp.Lexicographic.{pointwise, lists_per};

    ghost eq = { λ x y. pointwise T.eq x y };

    ghost laws = { lists_per T.laws };

    fn eq(&self, other: &Self) -> bool {
        self.as_slice() == other.as_slice()
    }
}

impl<T: Eq> Eq for SharedSeq<T> {
    ghost use Rattle.std.specs.Cmp.Lexicographic.{lists_equiv};

    ghost laws = { lists_equiv T.Eq.laws };
}

impl<T: Hash> Hash for SharedSeq<T> {
    ghost use Rattle.std.specs.Hash as fed;
    ghost use Rattle.std.specs.Hash.{items_Alike};

    ghost hash_input = { λ v. fed.slice T.hash_input v };

    ghost respects_eq = { (items_Alike (record { fed = T.respects_eq })).fed };

    fn hash<H: Hasher>(&self, state: &mut H) {
        self.as_slice().hash(state);
    }
}

impl<T: Exact> Exact for SharedSeq<T> {
    ghost use Rattle.std.specs.Cmp.Lexicographic.{pointwise_decides};

    ghost exact = { pointwise_decides T.exact };
}
