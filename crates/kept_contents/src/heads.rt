// The heads of kept calls, each once and by number.
ghost use Rattle.std.specs.Prelude.{◌≡◌, ◌<◌, ◌-◌, ◌∷◌, ◌++◌, [], IfOk, Some, vec_capacity, vec_len};
ghost use Rattle.kept_contents.specs.Heads.{AreMore, head_of, place_of_head};

use crate::head::{CallHead, digest_head, hash_head};
use content_store::{Mark, Marks, Sought};
use object_values::{Call, Memory};
use std::alloc::Global;
use std::marker::Model;

/// Heads of calls, each once, numbered from 0 in the order in which they came. A quick hash leads
/// to a head; a digest is taken only where another head has the same hash.
pub struct Heads {
    heads: Vec<CallHead>,
    marks: Marks,
}

impl Drop for Heads {
    fn drop(self) {
        let Heads { heads, marks } = self;
        drop(heads);
        drop(marks);
    }
}

impl Model for Heads {
    ghost use Rattle.std.specs.Prelude.{List};
    ghost use Rattle.kept_contents.specs.declared.head.CallHead.{CallHead as HeadValue};
    ghost use Rattle.kept_contents.specs.Heads.{IsHeadIndex};

    ghost Value = { List HeadValue };

    ghost view = { λ h. h.heads.items };

    ghost invariant = { λ h. IsHeadIndex h.heads.items h.marks };
}

impl Heads {
    pub fn new(alloc: Global) -> Self
        ensures { result ≡ [] }
    {
        Heads {
            heads: Vec::new(alloc),
            marks: Marks::new(alloc),
        }
    }

    /// The number of a call's head.
    pub fn find(&self, call: &Call) -> Option<u64>
        ensures { result ≡ place_of_head (head_of call.now) self.now }
    {
        self.marks.find(&SoughtHead {
            heads: self.heads.as_slice(),
            call,
        })
    }

    /// The number of a call's head, which is held from now on.
    pub fn hold(&mut self, alloc: Global, call: &Call) -> Result<u64, Memory>
        ensures number { IfOk result (λ n. place_of_head (head_of call.now) self.new ≡ Some n) }
        ensures more { AreMore self.old self.new }
    {
        if let Some(number) = self.find(call) {
            return Ok(number);
        }
        let head = CallHead::of(alloc, call)?;
        self.heads.reserve(1)?;
        self.marks.reserve()?;
        let number = self.heads.len() as u64;
        self.marks.add(
            &SoughtHead {
                heads: self.heads.as_slice(),
                call,
            },
            number,
        );
        push_within(&mut self.heads, head);
        Ok(number)
    }
}

// Adds a head for which there is room.
fn push_within(heads: &mut Vec<CallHead>, head: CallHead)
    requires { 0 < vec_capacity heads.old - vec_len heads.old }
    ensures { heads.new.items ≡ heads.old.items ++ head ∷ [] }
{
    let _ = heads.push(head);
}

/// The head of a call, which is looked for among others: nothing of it is copied.
struct SoughtHead<'a> {
    heads: &'a [CallHead],
    call: &'a Call,
}

impl Drop for SoughtHead<'_> {
    fn drop(self) {
        let SoughtHead { heads: _, call: _ } = self;
    }
}

impl Sought for SoughtHead<'_> {
    ghost use Rattle.std.specs.Prelude.{Some, slice_get};
    ghost use Rattle.kept_contents.specs.Heads.{head_of, marks_of};

    ghost marks = { λ s. marks_of (head_of s.call.now) };

    ghost is_at = { λ s i. slice_get s.heads.now i ≡ Some (head_of s.call.now) };

    fn levels(&self) -> usize {
        2
    }

    fn mark(&self, level: usize) -> Mark {
        match level {
            0 => Mark::Quick(hash_head(self.call)),
            _ => Mark::Digest(digest_head(self.call)),
        }
    }

    fn is_at(&self, number: u64) -> bool {
        match self.heads.get(number as usize) {
            Some(head) => head.is_of(self.call),
            None => false,
        }
    }
}
