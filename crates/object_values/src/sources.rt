// Sources: texts by name, in the order of the names' bytes.
ghost use Rattle.std.specs.Prelude.{◌≡◌, ◌≤◌, ◌<◌, ◌∷◌, [], ◌⊎◌, Some, IfOk, IsSome, length, option_map, slice_get, slice_index_or, slice_set, vec_len, vec_capacity, OnOk};
ghost use Rattle.std.specs.List.{insert};
ghost use Rattle.std.specs.FinMap as map;
ghost use Rattle.object_values.specs.Blocks.{AreFilled, IsSpare, joined, joined_without, text_at};
ghost use Rattle.object_values.specs.Texts.{no_texts, entry_at};

use crate::block::{Block, insert_within};
use crate::places::{block_of, place_of};
use crate::text::Text;
use sequences::{Bytes, Memory};
use std::alloc::Global;
use std::marker::Model;

/// The room of the first blocks. Later ones have room for about the root of the count: then blocks are short, and so is their list.
const ROOM: usize = 128;

/// A finite map from names to texts. Contracts see the texts, and the room reserved for more.
pub struct Sources {
    blocks: Vec<Block>,
    // For the half of a block that has no room for a name more.
    spare: Option<Block>,
    count: usize,
}

impl Drop for Sources {
    fn drop(self) {
        let Sources {
            blocks,
            spare,
            count: _,
        } = self;
        drop(blocks);
        drop(spare);
    }
}

impl Model for Sources {
    ghost use Rattle.std.specs.Prelude.{◌-◌, vec_len, vec_capacity};
    ghost use Rattle.std.specs.FinMap.{from_sorted};
    ghost use Rattle.object_values.specs.Blocks.{joined, room_left, AreBlocks};
    ghost use Rattle.object_values.specs.Texts.{SourceStock, stock_code};

    ghost Value = { SourceStock };

    ghost coded = { stock_code };

    ghost view = { λ s. record { texts = from_sorted (joined s.blocks.items); spare = room_left (vec_capacity s.blocks - vec_len s.blocks) s.spare s.count } };

    ghost invariant = { λ s. AreBlocks s.blocks.items s.spare s.count };
}

impl Sources {
    pub fn new(alloc: Global) -> Self
        ensures { result.texts ≡ no_texts }
    {
        Sources {
            blocks: Vec::new(alloc),
            spare: None,
            count: 0,
        }
    }

    pub fn len(&self) -> usize
        ensures { result ≡ map.len self.now.texts }
    {
        self.count
    }

    pub fn get(&self, name: &[u8]) -> Option<&Text>
        ensures { option_map (λ text. text.now) result ≡ map.get self.now.texts name.now }
    {
        let block = block_of(&self.blocks, name)?;
        let pairs = self.blocks[block].as_slice();
        match place_of(pairs, name) {
            Ok(place) => Some(&pairs[place].1),
            Err(_) => None,
        }
    }

    /// The name and the text at a place, from 0, in the order of the names.
    pub fn at(&self, place: usize) -> Option<(&Bytes, &Text)>
        ensures { option_map (λ p. (p.0.now, p.1.now)) result ≡ entry_at self.now.texts place }
    {
        let (name, text) = pair_at(&self.blocks, place)?;
        Some((name, text))
    }

    /// Makes room for a name more.
    pub fn reserve(&mut self) -> Result<(), Memory>
        ensures ok { OnOk result (1 ≤ self.new.spare) }
        ensures same { self.new.texts ≡ self.old.texts }
    {
        if self.count == usize::MAX {
            return Err(Memory);
        }
        self.blocks.reserve(1)?;
        if self.spare.is_none() {
            let alloc = *self.blocks.allocator();
            self.spare = Some(Block::new(alloc, self.count.isqrt().max(ROOM))?);
        }
        Ok(())
    }

    /// Gives the name a text, and the text that it had before. It takes no memory: the text is made, and the room reserved.
    pub fn put(&mut self, name: Bytes, text: Text) -> Option<Text>
        requires { (1 ≤ self.old.spare) ⊎ IsSome (map.get self.old.texts name) }
        ensures before { result ≡ map.get self.old.texts name }
        ensures put { self.new.texts ≡ map.insert self.old.texts name text }
    {
        let Some(block) = block_of(&self.blocks, name.as_slice()) else {
            self.count += 1;
            add_first(&mut self.blocks, &mut self.spare, (name, text));
            return None;
        };
        match place_of(self.blocks[block].as_slice(), name.as_slice()) {
            Ok(place) => Some(self.blocks[block].set_text(place, text)),
            Err(place) => {
                self.count += 1;
                add(
                    &mut self.blocks,
                    &mut self.spare,
                    block,
                    place,
                    (name, text),
                );
                None
            }
        }
    }

    /// Takes the name out, and gives the text that it had.
    pub fn remove(&mut self, name: &[u8]) -> Option<Text>
        ensures before { result ≡ map.get self.old.texts name.now }
        ensures removed { self.new.texts ≡ map.remove self.old.texts name.now }
    {
        let block = block_of(&self.blocks, name)?;
        match place_of(self.blocks[block].as_slice(), name) {
            Ok(place) => {
                self.count -= 1;
                Some(take_out(&mut self.blocks, block, place))
            }
            Err(_) => None,
        }
    }

    /// The same texts, which are shared, with no room for more.
    pub fn copy(&self, alloc: Global) -> Result<Self, Memory>
        ensures { IfOk result (λ copy. copy.texts ≡ self.now.texts) }
    {
        let mut blocks = Vec::new(alloc);
        blocks.reserve_exact(self.blocks.len())?;
        for block in &self.blocks {
            blocks.push(block.copy(alloc)?)?;
        }
        Ok(Sources {
            blocks,
            spare: None,
            count: self.count,
        })
    }
}

// The pair at a place among those of all blocks.
fn pair_at(blocks: &[Block], place: usize) -> Option<&(Bytes, Text)>
    ensures { option_map (λ pair. pair.now) result ≡ slice_get (joined blocks.now) place }
{
    let mut left = place;
    for block in blocks {
        if left < block.len() {
            return Some(&block.as_slice()[left]);
        }
        left -= block.len();
    }
    None
}

// Makes the spare block the first one, with the pair.
fn add_first(blocks: &mut Vec<Block>, spare: &mut Option<Block>, pair: (Bytes, Text))
    requires none { blocks.old.items ≡ [] }
    requires room { vec_len blocks.old < vec_capacity blocks.old }
    requires spare { spare.old ≡ Some [] }
    ensures added { blocks.new.items ≡ (pair ∷ []) ∷ [] }
    ensures spare { IsSpare spare.new }
{
    if let Some(mut first) = spare.take() {
        let _ = first.insert(0, pair);
        let _ = blocks.push(first);
    }
}

// Adds the pair at a place of a block. Where that is full, half of it becomes a block of its own.
fn add(
    blocks: &mut Vec<Block>,
    spare: &mut Option<Block>,
    at: usize,
    place: usize,
    pair: (Bytes, Text),
)
    requires room { vec_len blocks.old < vec_capacity blocks.old }
    requires spare { spare.old ≡ Some [] }
    requires at { at < length blocks.old.items }
    requires place { place ≤ length (slice_index_or blocks.old.items at []) }
    ensures added { let block = insert (slice_index_or blocks.old.items at []) place pair in
        joined blocks.new.items ≡ joined (slice_set blocks.old.items at block) }
    ensures filled { AreFilled blocks.old.items → AreFilled blocks.new.items }
    ensures spare { IsSpare spare.new }
{
    let block = &mut blocks[at];
    let Err(pair) = block.insert(place, pair) else {
        return;
    };
    if let Some(empty) = spare.take() {
        let rest = block.split(place, pair, empty);
        insert_within(blocks, at + 1, rest);
    }
}

// Takes a pair out, and its block where it has no other.
fn take_out(blocks: &mut Vec<Block>, at: usize, place: usize) -> Text
    requires at { at < length blocks.old.items }
    requires place { place < length (slice_index_or blocks.old.items at []) }
    ensures before { result ≡ text_at blocks.old.items at place }
    ensures removed { joined blocks.new.items ≡ joined_without blocks.old.items at place }
    ensures filled { AreFilled blocks.old.items → AreFilled blocks.new.items }
{
    let block = &mut blocks[at];
    let text = block.remove(place);
    if block.len() == 0 {
        drop(blocks.remove(at));
    }
    text
}
