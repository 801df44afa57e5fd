// A body that is looked for, with its marks.
ghost use Rattle.std.specs.Prelude.{◌≡◌};
ghost use Rattle.content_store.specs.BodyMarks.{hash_of, hash_of_ends};

use crate::keying::Keying;
use crate::marks::{Mark, Sought};
use object_values::Text;
use std::hash::{FoldHasher, Hasher};
use std::marker::PhantomData;

// How many bytes at either end are told apart at once.
const END: usize = 64;

/// A body that is looked for among others. It is marked by its ends, by all of its bytes, and by its
/// key. Versions of one file often differ in the middle alone: then the quick hash of all tells them
/// apart, and the key isn't taken.
pub(crate) struct SoughtBody<'a, K: Keying> {
    pub(crate) bodies: &'a [Text],
    pub(crate) body: &'a [u8],
    pub(crate) keying: PhantomData<K>,
}

impl<K: Keying> Drop for SoughtBody<'_, K> {
    fn drop(self) {
        let SoughtBody {
            bodies: _,
            body: _,
            keying: _,
        } = self;
    }
}

impl<K: Keying> Sought for SoughtBody<'_, K> {
    ghost use Rattle.std.specs.Prelude.{Some, slice_get};
    ghost use Rattle.content_store.specs.BodyMarks.{marks_of};

    ghost marks = { λ s. marks_of K.key_of s.body.now };

    ghost is_at = { λ s i. slice_get s.bodies.now i ≡ Some s.body.now };

    fn levels(&self) -> usize {
        3
    }

    fn mark(&self, level: usize) -> Mark {
        match level {
            0 => Mark::Quick(ends_hash(self.body)),
            1 => Mark::Quick(text_hash(self.body)),
            _ => Mark::Digest(K::key(self.body)),
        }
    }

    fn is_at(&self, number: u64) -> bool {
        match self.bodies.get(number as usize) {
            Some(text) => text.as_slice() == self.body,
            None => false,
        }
    }
}

// A hash of the length and of the ends: it costs the same for each body.
fn ends_hash(body: &[u8]) -> u64
    ensures { result ≡ hash_of_ends body.now }
{
    let mut hasher = FoldHasher::default();
    hasher.write_u64(body.len() as u64);
    hasher.write(&body[..END.min(body.len())]);
    hasher.write(&body[body.len().saturating_sub(END)..]);
    hasher.finish()
}

// A hash of all bytes that is many times as quick as a digest.
fn text_hash(body: &[u8]) -> u64
    ensures { result ≡ hash_of body.now }
{
    let mut hasher = FoldHasher::default();
    hasher.write(body);
    hasher.finish()
}
