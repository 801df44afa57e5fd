// Numbers by marks, the quickest first.
ghost use Rattle.std.specs.Prelude.{◌≡◌, ◌↔◌, ◌<◌, ◌≤◌, ◌+◌, ◌-◌, ◌%◌, ◌^◌, ◌∷◌, ◌++◌, [], List, ℕ, All, IfNone, IfSome, IsTrue, None, OnOk, Some, length, slice_get, vec_capacity, vec_len};
ghost use Rattle.std.specs.HashMap.{Updates, spare};
ghost use Rattle.content_store.specs.declared.marks.Mark.{Mark as MarkValue};
ghost use Rattle.content_store.specs.Marks.{Finds, KeepsNumbers, first_free, leads, room_of};

use object_values::Memory;
use std::alloc::Global;
use std::collections::HashMap;
use std::hash::Hash;

/// A mark of a thing. Things that differ may have the same.
#[derive(Clone, Copy)]
pub enum Mark {
    /// A quick hash: whoever wants to can make things that have the same.
    Quick(u64),
    /// A digest: nobody is known to find two things that have the same.
    Digest([u8; 32]),
}

/// What is looked for among numbered things.
pub trait Sought {
    /// Its marks, the cheapest first.
    ghost marks: { Self → List MarkValue };

    /// Whether the thing of a number is it.
    ghost is_at: { Self → ℕ → Type 0 };

    fn levels(&self) -> usize
        ensures { result ≡ length (marks self.now) };

    fn mark(&self, level: usize) -> Mark
        requires { level < length (marks self.now) }
        ensures { slice_get (marks self.now) level ≡ Some result };

    fn is_at(&self, number: u64) -> bool
        ensures { IsTrue result ↔ is_at self.now number };
}

/// The numbers of things by their marks. A mark leads to the first thing that has it, and what finds
/// its mark taken goes by the next one. So a mark is taken of a thing only where another one has all
/// cheaper ones; the things of which others have all marks are compared one by one.
pub struct Marks {
    // by 32 bits of a quick hash: the hash of the table tells these apart, whatever hashes are picked
    quick: HashMap<u32, u64>,
    digests: HashMap<[u8; 32], u64>,
    // the numbers of the things of which others have all marks
    clashing: Vec<u64>,
}

impl Drop for Marks {
    fn drop(self) {
        let Marks {
            quick,
            digests,
            clashing,
        } = self;
        drop(quick);
        drop(digests);
        drop(clashing);
    }
}

impl Marks {
    pub fn new(alloc: Global) -> Self
        ensures { (marks : List MarkValue) (i : ℕ) → ¬ Finds result marks i }
    {
        Marks {
            quick: HashMap::new(alloc),
            digests: HashMap::new(alloc),
            clashing: Vec::new(alloc),
        }
    }

    /// The number of what is sought.
    pub fn find<S: Sought>(&self, sought: &S) -> Option<u64>
        ensures some { IfSome result (S.is_at sought.now) }
        ensures none { IfNone result
            ((i : ℕ) → Finds self.now (S.marks sought.now) i → ¬ S.is_at sought.now i) }
    {
        for level in 0..sought.levels() {
            let Some(number) = self.number_at(sought.mark(level)) else {
                return None;
            };
            if sought.is_at(number) {
                return Some(number);
            }
        }
        find_among(self.clashing.as_slice(), sought)
    }

    /// Makes room for one more.
    pub fn reserve(&mut self) -> Result<(), Memory>
        ensures room { OnOk result (0 < room_of self.new) }
        ensures kept { KeepsNumbers self.old self.new }
    {
        self.reserve_more(1)
    }

    /// Makes room for so many more. None is lost where memory is wanting.
    pub fn reserve_more(&mut self, more: usize) -> Result<(), Memory>
        ensures room { OnOk result (more ≤ room_of self.new) }
        ensures least { room_of self.old ≤ room_of self.new }
        ensures kept { KeepsNumbers self.old self.new }
    {
        self.quick.reserve(more)?;
        self.digests.reserve(more)?;
        self.clashing.reserve(more)?;
        Ok(())
    }

    /// Forgets all numbers. The room stays.
    pub fn clear(&mut self)
        ensures forgotten { (marks : List MarkValue) (i : ℕ) → ¬ Finds self.new marks i }
        ensures room { room_of self.old ≤ room_of self.new }
    {
        self.quick.clear();
        self.digests.clear();
        self.clashing.clear();
    }

    /// Adds a number of what has these marks. It takes no memory.
    pub fn add<S: Sought>(&mut self, sought: &S, number: u64)
        requires { 0 < room_of self.old }
        ensures added { Finds self.new (S.marks sought.now) number }
        ensures kept { KeepsNumbers self.old self.new }
        ensures room { room_of self.old ≤ room_of self.new + 1 }
    {
        match self.free_mark(sought) {
            Some(mark) => self.put(mark, number),
            None => push_within(&mut self.clashing, number),
        }
    }

    // The number that a mark leads to.
    fn number_at(&self, mark: Mark) -> Option<u64>
        ensures { result ≡ leads self.now mark }
    {
        match mark {
            Mark::Quick(hash) => self.quick.get(&low_bits(hash)).copied(),
            Mark::Digest(digest) => self.digests.get(&digest).copied(),
        }
    }

    // The first mark that leads nowhere.
    fn free_mark<S: Sought>(&self, sought: &S) -> Option<Mark>
        ensures { result ≡ first_free (leads self.now) (S.marks sought.now) }
    {
        for level in 0..sought.levels() {
            let mark = sought.mark(level);
            if self.number_at(mark).is_none() {
                return Some(mark);
            }
        }
        None
    }

    // Lets a mark that leads nowhere lead to the number.
    fn put(&mut self, mark: Mark, number: u64)
        requires room { 0 < room_of self.old }
        requires free { leads self.old mark ≡ None }
        ensures there { leads self.new mark ≡ Some number }
        ensures kept { (other : MarkValue) (i : ℕ) → leads self.old other ≡ Some i
            → leads self.new other ≡ Some i }
        ensures clashing { self.new.clashing.items ≡ self.old.clashing.items }
        ensures less { room_of self.old ≤ room_of self.new + 1 }
    {
        match mark {
            Mark::Quick(hash) => insert_within(&mut self.quick, low_bits(hash), number),
            Mark::Digest(digest) => insert_within(&mut self.digests, digest, number),
        }
    }
}

fn low_bits(hash: u64) -> u32
    ensures { result ≡ hash % 2 ^ 32 }
{
    (hash % (1 << 32)) as u32
}

// The first of the numbers at which what is sought stands.
fn find_among<S: Sought>(numbers: &[u64], sought: &S) -> Option<u64>
    ensures some { IfSome result (S.is_at sought.now) }
    ensures none { IfNone result (All (λ i. ¬ S.is_at sought.now i) numbers.now) }
{
    for number in numbers {
        if sought.is_at(*number) {
            return Some(*number);
        }
    }
    None
}

// Puts in an entry for which there is room.
fn insert_within<K: Eq + Hash + Drop>(map: &mut HashMap<K, u64>, key: K, number: u64)
    requires { 0 < spare map.old }
    ensures updates { Updates K.eq map.old map.new key (Some number) }
    ensures room { spare map.old ≤ spare map.new + 1 }
{
    let _ = map.insert(key, number);
}

// Adds a number for which there is room.
fn push_within(numbers: &mut Vec<u64>, number: u64)
    requires { 0 < vec_capacity numbers.old - vec_len numbers.old }
    ensures items { numbers.new.items ≡ numbers.old.items ++ number ∷ [] }
    ensures room { vec_capacity numbers.old - vec_len numbers.old
        ≤ (vec_capacity numbers.new - vec_len numbers.new) + 1 }
{
    let _ = numbers.push(number);
}
