// A block of pairs: some names in a row with their texts.
ghost use Rattle.std.specs.Prelude.{◌≡◌, ◌≤◌, ◌<◌, ◌+◌, ◌++◌, [], length, take, drop, vec_len, vec_capacity, slice_index_or, slice_set, IfOk, IfErr, OnOk, OnErr};
ghost use Rattle.std.specs.List.{insert, remove};
ghost use Rattle.object_values.specs.Places.{Pairs};

use crate::text::Text;
use sequences::{Bytes, Copied, Memory};
use std::alloc::Global;
use std::marker::Model;
use std::mem;

/// Pairs in a row, no more than it was made for: an insert takes no memory. Contracts see the pairs.
pub(crate) struct Block {
    pairs: Vec<(Bytes, Text)>,
}

impl Drop for Block {
    fn drop(self) {
        let Block { pairs } = self;
        drop(pairs);
    }
}

impl Model for Block {
    ghost use Rattle.std.specs.Prelude.{◌≤◌, vec_capacity};
    ghost use Rattle.object_values.specs.Places.{Pairs};

    ghost Value = { Pairs };

    ghost view = { λ b. b.pairs.items };

    ghost invariant = { λ b. 2 ≤ vec_capacity b.pairs };
}

impl Block {
    /// With room for so many pairs, and for two at least.
    pub(crate) fn new(alloc: Global, room: usize) -> Result<Self, Memory>
        ensures { IfOk result (λ made. made ≡ []) }
    {
        Ok(Block {
            pairs: Vec::with_capacity(alloc, room.max(2))?,
        })
    }

    pub(crate) fn as_slice(&self) -> &[(Bytes, Text)]
        ensures { result.now ≡ self.now }
    {
        self.pairs.as_slice()
    }

    pub(crate) fn len(&self) -> usize
        ensures { result ≡ length self.now }
    {
        self.pairs.len()
    }

    /// Gives the pair at a place another text, and gives the one that it had.
    pub(crate) fn set_text(&mut self, place: usize, text: Text) -> Text
        requires { place < length self.old }
        ensures before { let pair = slice_index_or self.old place ([], []) in result ≡ pair.1 }
        ensures set { let pair = slice_index_or self.old place ([], []) in
            self.new ≡ slice_set self.old place (pair.0, text) }
    {
        mem::replace(&mut self.pairs[place].1, text)
    }

    /// Takes the pair at a place out, and gives its text.
    pub(crate) fn remove(&mut self, place: usize) -> Text
        requires { place < length self.old }
        ensures before { let pair = slice_index_or self.old place ([], []) in result ≡ pair.1 }
        ensures removed { self.new ≡ remove self.old place }
    {
        self.pairs.remove(place).1
    }

    /// Adds the pair at a place. It is given back where the block is full.
    pub(crate) fn insert(&mut self, place: usize, pair: (Bytes, Text)) -> Result<(), (Bytes, Text)>
        requires { place ≤ length self.old }
        ensures ok { OnOk result (self.new ≡ insert self.old place pair) }
        ensures back { IfErr result (λ back. back ≡ pair) }
        ensures same { OnErr result (self.new ≡ self.old) }
        ensures full { OnErr result (2 ≤ length self.old) }
    {
        if self.pairs.len() == self.pairs.capacity() {
            return Err(pair);
        }
        insert_within(&mut self.pairs, place, pair);
        Ok(())
    }

    /// Adds the pair at a place, and moves the last pairs into an empty block: half of them, or as many as fit.
    #[tactic(auto, using(crate::proofs::BlockLemmas::insert_front, crate::proofs::BlockLemmas::insert_end))]
    pub(crate) fn split(&mut self, place: usize, pair: (Bytes, Text), empty: Block) -> Block
        requires many { 2 ≤ length self.old }
        requires place { place ≤ length self.old }
        requires empty { empty ≡ [] }
        ensures parts { self.new ++ result ≡ insert self.old place pair }
        ensures first { 1 ≤ length self.new }
        ensures last { 1 ≤ length result }
    {
        let mut rest = empty;
        let moved = (self.pairs.len() / 2).min(rest.pairs.capacity() - 1);
        let kept = self.pairs.len() - moved;
        move_end(&mut self.pairs, kept, &mut rest.pairs);
        if place <= kept {
            insert_within(&mut self.pairs, place, pair);
        } else {
            insert_within(&mut rest.pairs, place - kept, pair);
        }
        rest
    }

    /// The same pairs, with no room for more.
    pub(crate) fn copy(&self, alloc: Global) -> Result<Self, Memory>
        ensures { IfOk result (λ copy. copy ≡ self.now) }
    {
        let mut copy = Block::new(alloc, self.pairs.len())?;
        for (name, text) in &self.pairs {
            copy.pairs.push((name.copy(alloc)?, text.copy(alloc)?))?;
        }
        Ok(copy)
    }
}

/// Inserts an item in a list that has room for it.
pub(crate) fn insert_within<T: Drop>(list: &mut Vec<T>, place: usize, item: T)
    requires place { place ≤ length list.old.items }
    requires room { vec_len list.old < vec_capacity list.old }
    ensures items { list.new.items ≡ insert list.old.items place item }
    ensures room { vec_capacity list.old ≤ vec_capacity list.new }
{
    let _ = list.insert(place, item);
}

// Moves the pairs from a place on into an empty list that has room for them.
fn move_end(from: &mut Vec<(Bytes, Text)>, kept: usize, to: &mut Vec<(Bytes, Text)>)
    requires kept { kept ≤ length from.old.items }
    requires empty { to.old.items ≡ [] }
    requires room { length from.old.items ≤ kept + vec_capacity to.old }
    ensures kept { from.new.items ≡ take kept from.old.items }
    ensures moved { to.new.items ≡ drop kept from.old.items }
    ensures same { vec_capacity from.new ≡ vec_capacity from.old }
    ensures room { vec_capacity to.old ≤ vec_capacity to.new }
{
    while from.len() > kept {
        if let Some(pair) = from.pop() {
            let _ = to.push(pair);
        }
    }
    to.reverse();
}
