// What types each type is, as rows of bits: a row is closed by those of its supertypes, a word at a time.
ghost use Rattle.std.specs.Prelude.{◌≡◌, ℕ, ◌+◌, ◌*◌, ◌<◌, ◌≤◌, false, length, nat_eq, IfOk, slice_index_or};
ghost use Rattle.std.specs.List.{list_any};
ghost use Rattle.meaning_texts.specs.Limits.{declaration_limit};
ghost use Rattle.type_graph.specs.Walks.{AreAllBelow, AreBelow};
ghost use Rattle.type_graph.specs.Rows.{AreFor, RowsAreClosed, IsCloser, IsOwn, HasAbove, HasAllAbove, RowsGrow, Ored, RowsAreApart, IsTransitive, Passes, answer, bit};

use object_values::{Memory, Seq};
use std::alloc::Global;

/// After so many rounds over the rows they are closed in another way, which takes the same time in whatever order types are declared.
const ROUNDS: u32 = 4;

/// A row for each type, with a bit for each type. A word has 64 bits, and each row has as many words.
pub(crate) struct Rows {
    count: usize,
    width: usize,
    words: Vec<u64>,
}

impl Drop for Rows {
    fn drop(self) {
        let Rows {
            count: _,
            width: _,
            words,
        } = self;
        drop(words);
    }
}

impl Rows {
    /// The rows of types with these supertypes.
    pub(crate) fn closed(alloc: Global, supers: &[Seq<usize>]) -> Result<Self, Memory>
        requires supers { AreAllBelow supers.now }
        requires few { length supers.now ≤ declaration_limit + 1 }
        ensures { IfOk result (RowsAreClosed supers.now) }
    {
        let count = supers.len();
        let width = count / 64 + 1;
        let mut words = vec![in alloc; 0; count * width]?;
        mark_own(words.as_mut_slice(), width, count);
        close(words.as_mut_slice(), width, supers);
        Ok(Rows {
            count,
            width,
            words,
        })
    }

    /// How many types there are.
    pub(crate) fn count(&self) -> usize
        ensures { result ≡ self.now.count }
    {
        self.count
    }

    /// Whether the first type is the second.
    pub(crate) fn has(&self, a: usize, b: usize) -> bool
        requires fits { AreFor self.now.count self.now.width self.now.words.items }
        requires lower { a < self.now.count }
        requires upper { b < self.now.count }
        ensures { result ≡ answer self.now a b }
    {
        has_bit(self.words.as_slice(), self.width, self.count, a, b)
    }

    /// Whether one of the first types is the other one.
    pub(crate) fn any_has(&self, starts: &[usize], number: usize) -> bool
        requires fits { AreFor self.now.count self.now.width self.now.words.items }
        requires starts { AreBelow self.now.count starts.now }
        requires number { number < self.now.count }
        ensures { result ≡ list_any (λ start. answer self.now start number) starts.now }
    {
        for start in starts {
            if self.has(*start, number) {
                return true;
            }
        }
        false
    }
}

// Whether the row of the one type has the other.
fn has_bit(words: &[u64], width: usize, count: usize, a: usize, b: usize) -> bool
    requires fits { AreFor count width words.now }
    requires lower { a < count }
    requires upper { b < count }
    ensures { result ≡ nat_eq (bit width words.now a b) 1 }
{
    (words[a * width + b / 64] >> (b % 64)) & 1 == 1
}

// Each type is itself.
fn mark_own(words: &mut [u64], width: usize, count: usize)
    requires fits { AreFor count width words.old }
    requires none { (place : ℕ) → slice_index_or words.old place 0 ≡ 0 }
    ensures { IsOwn count width words.new }
{
    for number in 0..count {
        words[number * width + number / 64] |= 1 << (number % 64);
    }
}

// Goes over the rows until none grows. Where there are no loops, few rounds are enough if supertypes mostly stand before or mostly after
// their types. Where they are not, the rows are closed through each type.
fn close(words: &mut [u64], width: usize, supers: &[Seq<usize>])
    requires supers { AreAllBelow supers.now }
    requires fits { AreFor (length supers.now) width words.old }
    requires own { IsOwn (length supers.now) width words.old }
    ensures { IsCloser supers.now width words.new }
{
    for _round in 0..ROUNDS {
        if !go_round(words, width, supers) {
            return;
        }
    }
    add_through_all(words, width, supers);
}

// Adds the row of each type to those that have the type.
fn add_through_all(words: &mut [u64], width: usize, supers: &[Seq<usize>])
    requires fits { AreFor (length supers.now) width words.old }
    ensures grows { RowsGrow supers.now width words.old words.new }
    ensures passes { IsTransitive (length supers.now) width words.new }
{
    for through in 0..supers.len() {
        add_through(words, width, supers.len(), through);
    }
}

// Adds the row of one type to those that have the type.
fn add_through(words: &mut [u64], width: usize, count: usize, through: usize)
    requires fits { AreFor count width words.old }
    requires through { through < count }
    ensures { Passes count width through count words.old words.new }
{
    for number in 0..count {
        if has_bit(words, width, count, number, through) {
            add_row(words, width, number * width, through * width);
        }
    }
}

// Goes over the rows from the first to the last, and back. Whether a row grew.
fn go_round(words: &mut [u64], width: usize, supers: &[Seq<usize>]) -> bool
    requires supers { AreAllBelow supers.now }
    requires fits { AreFor (length supers.now) width words.old }
    ensures grows { RowsGrow supers.now width words.old words.new }
    ensures adds { HasAllAbove supers.now width words.old words.new }
    ensures same { result ≡ false → words.new ≡ words.old }
{
    let mut grew = false;
    for number in 0..supers.len() {
        if add_above(words, width, supers, number) {
            grew = true;
        }
    }
    for passed in 0..supers.len() {
        if add_above(words, width, supers, supers.len() - 1 - passed) {
            grew = true;
        }
    }
    grew
}

// Adds the rows of its supertypes to that of a type. Whether it grew.
fn add_above(words: &mut [u64], width: usize, supers: &[Seq<usize>], number: usize) -> bool
    requires supers { AreAllBelow supers.now }
    requires number { number < length supers.now }
    requires fits { AreFor (length supers.now) width words.old }
    ensures grows { RowsGrow supers.now width words.old words.new }
    ensures adds { HasAbove supers.now width number words.old words.new }
    ensures same { result ≡ false → words.new ≡ words.old }
{
    let mut grew = false;
    for above in supers[number].as_slice() {
        if add_row(words, width, number * width, *above * width) {
            grew = true;
        }
    }
    grew
}

// Adds the row at a place to that at another one. Whether that grew.
fn add_row(words: &mut [u64], width: usize, into: usize, from: usize) -> bool
    requires into { into + width ≤ length words.old }
    requires from { from + width ≤ length words.old }
    requires apart { RowsAreApart width into from }
    ensures ored { Ored width into from words.old words.new }
    ensures same { result ≡ false → words.new ≡ words.old }
{
    let mut grew = false;
    for place in 0..width {
        let old = words[into + place];
        let new = old | words[from + place];
        if new != old {
            words[into + place] = new;
            grew = true;
        }
    }
    grew
}
