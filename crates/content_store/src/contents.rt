// Bodies by number.
ghost use Rattle.std.specs.Prelude.{◌≡◌, ◌<◌, ◌∷◌, ◌++◌, [], IfOk, None, OnErr, OnOk, Some, length, slice_get};
ghost use Rattle.content_store.specs.Bodies.{EachBodyOnce, place_of_body, with_body};

use crate::keying::Keying;
use crate::marks::Marks;
use crate::sought::SoughtBody;
use object_values::{Bytes, Copied, Memory, Text};
use std::alloc::Global;
use std::marker::{Model, PhantomData};

/// Bodies, each once, numbered from 0 in the order in which they came. A body that is alone with its
/// length and its ends is found by these; a quick hash of all its bytes, and then its key, is taken
/// only where others have the same. What is found is compared byte by byte.
pub struct Contents<K: Keying> {
    bodies: Vec<Text>,
    marks: Marks,
    keying: PhantomData<K>,
}

impl<K: Keying> Drop for Contents<K> {
    fn drop(self) {
        let Contents {
            bodies,
            marks,
            keying: _,
        } = self;
        drop(bodies);
        drop(marks);
    }
}

impl<K: Keying> Model for Contents<K> {
    ghost use Rattle.content_store.specs.Bodies.{Bodies};
    ghost use Rattle.std.specs.Prelude.{slice_get};
    ghost use Rattle.content_store.specs.BodyMarks.{marks_of};
    ghost use Rattle.content_store.specs.Marks.{IsIndex};

    ghost Value = { Bodies };

    ghost view = { λ c. c.bodies.items };

    ghost invariant = { λ c. IsIndex (slice_get c.bodies.items) (marks_of K.key_of) c.marks };
}

impl<K: Keying> Contents<K> {
    pub fn new(alloc: Global) -> Self
        ensures { result ≡ [] }
    {
        Contents {
            bodies: Vec::new(alloc),
            marks: Marks::new(alloc),
            keying: PhantomData,
        }
    }

    pub fn len(&self) -> u64
        ensures { result ≡ length self.now }
    {
        self.bodies.len() as u64
    }

    /// The body that has the number.
    pub fn text(&self, id: u64) -> &Text
        requires { id < length self.now }
        ensures { Some result.now ≡ slice_get self.now id }
    {
        &self.bodies[id as usize]
    }

    /// The bytes of the body that has the number.
    pub fn get(&self, id: u64) -> &[u8]
        requires { id < length self.now }
        ensures { Some result.now ≡ slice_get self.now id }
    {
        self.text(id).as_slice()
    }

    /// The number of the body.
    pub fn find(&self, body: &[u8]) -> Option<u64>
        ensures { result ≡ place_of_body body.now self.now }
    {
        self.marks.find(&SoughtBody::<K> {
            bodies: self.bodies.as_slice(),
            body,
            keying: PhantomData,
        })
    }

    /// The number of the body, which is shared where it is new and then has the next number.
    pub fn intern(&mut self, alloc: Global, body: &Text) -> Result<u64, Memory>
        ensures number { IfOk result (λ id. place_of_body body.now self.new ≡ Some id) }
        ensures bodies { OnOk result (self.new ≡ with_body body.now self.old) }
        ensures err { OnErr result (self.new ≡ self.old) }
    {
        if let Some(id) = self.find(body.as_slice()) {
            return Ok(id);
        }
        let copy = body.copy(alloc)?;
        self.add(copy)
    }

    /// The same for bytes, which are copied where they are new.
    pub fn intern_slice(&mut self, alloc: Global, body: &[u8]) -> Result<u64, Memory>
        ensures number { IfOk result (λ id. place_of_body body.now self.new ≡ Some id) }
        ensures bodies { OnOk result (self.new ≡ with_body body.now self.old) }
        ensures err { OnErr result (self.new ≡ self.old) }
    {
        if let Some(id) = self.find(body) {
            return Ok(id);
        }
        let copy = Text::of(Bytes::from_slice(alloc, body)?)?;
        self.add(copy)
    }

    /// Each body stands there once.
    pub fn once(&self)
        ensures { EachBodyOnce self.now }
    {
        let _ = &self.bodies;
    }

    // Puts a body that stands nowhere after the others.
    #[tactic(auto, using(crate::proofs::BodyLemmas::place_new))]
    fn add(&mut self, body: Text) -> Result<u64, Memory>
        requires { place_of_body body self.old ≡ None }
        ensures number { IfOk result (λ id. place_of_body body self.new ≡ Some id) }
        ensures bodies { OnOk result (self.new ≡ self.old ++ body ∷ []) }
        ensures err { OnErr result (self.new ≡ self.old) }
    {
        let next = self.len();
        self.bodies.reserve(1)?;
        self.marks.reserve()?;
        self.marks.add(
            &SoughtBody::<K> {
                bodies: self.bodies.as_slice(),
                body: body.as_slice(),
                keying: PhantomData,
            },
            next,
        );
        self.bodies.push(body)?;
        Ok(next)
    }
}
