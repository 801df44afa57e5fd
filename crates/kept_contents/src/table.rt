// The contents of a journal, and how a text is found among them.
ghost use Rattle.std.specs.Prelude.{◌≡◌, ◌↔◌, IsTrue, ℕ, List, ◌+◌, ◌<◌, ◌≤◌, ◌^◌, ◌∷◌, ◌++◌, [], IfNone, IfOk, IfSome, None, OnErr, OnOk, Some, length, replicate, reverse, slice_get, slice_set};
ghost use Rattle.object_values.specs.declared.views.Value.TheVariants.{Simple};
ghost use Rattle.meaning_records.specs.Tables.{IsText, IsNoText};
ghost use Rattle.meaning_records.specs.Numbers.{number_of};
ghost use Rattle.kept_contents.specs.Index.{digest_of};
ghost use Rattle.kept_contents.specs.Stocks.{IsGrownFrom, IsHeldIn, IsOther, value_of};
ghost use Rattle.kept_contents.specs.Added.{AreHeld, contents_with};
ghost use Rattle.content_store.specs.Bodies.{place_of_body};

use crate::index::OtherIndex;
use crate::shared::{Content, Shared};
use crate::within::push_within;
use content_store::{Contents, ShaKeys};
use object_values::{Copied, Memory, Text, Value};
use std::alloc::Global;
use std::marker::Model;

/// The contents of a journal in order, and all texts that were held, each once. Contracts see the contents, the texts by their numbers in memory, and for how
/// many contents more there is room.
pub struct ContentTable {
    contents: Vec<Content>,
    texts: Contents<ShaKeys>,
    // of each text its number as a content, where it is one
    numbers: Vec<Option<u32>>,
    // the numbers of lists and compounds
    others: OtherIndex,
}

impl Drop for ContentTable {
    fn drop(self) {
        let ContentTable {
            contents,
            texts,
            numbers,
            others,
        } = self;
        drop(contents);
        drop(texts);
        drop(numbers);
        drop(others);
    }
}

impl Model for ContentTable {
    ghost use Rattle.std.specs.Prelude.{◌-◌, All, min, vec_len, vec_capacity};
    ghost use Rattle.kept_contents.specs.Index.{IsIndexed, room_of};
    ghost use Rattle.kept_contents.specs.Stocks.{ContentStock, IsNumbered, IsHeldIn, values_of_contents};

    ghost Value = { ContentStock };

    ghost view = { λ t. record {
      contents = values_of_contents t.contents.items;
      texts = t.texts;
      room = min (vec_capacity t.contents - vec_len t.contents) (room_of t.others);
    } };

    ghost invariant = { λ t. IsNumbered (values_of_contents t.contents.items) t.texts t.numbers.items
        × All (IsHeldIn t.texts) t.contents.items
        × IsIndexed (values_of_contents t.contents.items) t.others };
}

impl ContentTable {
    pub fn new(alloc: Global) -> Self
        ensures contents { result.contents ≡ [] }
        ensures texts { result.texts ≡ [] }
    {
        ContentTable {
            contents: Vec::new(alloc),
            texts: Contents::new(alloc),
            numbers: Vec::new(alloc),
            others: OtherIndex::new(alloc),
        }
    }

    pub fn len(&self) -> usize
        ensures { result ≡ length self.now.contents }
    {
        self.contents.len()
    }

    /// The text that is the content of a number, with its own number in memory.
    pub fn shared(&self, number: u32) -> Option<&Shared>
        ensures some { IfSome result (λ s. IsText self.now.contents number s.now.text) }
        ensures held { IfSome result
            (λ s. place_of_body s.now.text self.now.texts ≡ Some s.now.id) }
        ensures none { IfNone result ((text : List ℕ) → ¬ IsText self.now.contents number text) }
    {
        match self.contents.get(number as usize) {
            Some(Content::Text(shared)) => Some(shared),
            Some(Content::Other(_)) => None,
            None => None,
        }
    }

    /// The text that is the content of a number.
    pub fn text(&self, number: u32) -> Option<&Text>
        ensures some { IfSome result (λ text. IsText self.now.contents number text.now) }
        ensures none { IfNone result ((text : List ℕ) → ¬ IsText self.now.contents number text) }
    {
        match self.shared(number) {
            Some(shared) => Some(&shared.text),
            None => None,
        }
    }

    /// The number of a content that is this text, which has this number in memory.
    pub fn number(&self, shared: &Shared) -> Option<u32>
        requires { place_of_body shared.now.text self.now.texts ≡ Some shared.now.id }
        ensures some { IfSome result (λ n. IsText self.now.contents n shared.now.text) }
        ensures none { IfNone result (IsNoText self.now.contents shared.now.text) }
    {
        self.numbers[shared.id as usize]
    }

    /// The number of a value: that of the first content that is the value. It takes no memory, and looks at a text once.
    pub fn number_of_value(&self, value: &Value) -> Option<u64>
        ensures { result ≡ number_of value.now self.now.contents }
    {
        match value {
            Value::Simple(text) => self.text_number(text.as_slice()),
            other => self.others.find(self.contents.as_slice(), other),
        }
    }

    // The number of a list or a compound that has this digest.
    pub(crate) fn number_of_other(&self, digest: &[u8; 32], value: &Value) -> Option<u64>
        requires other { IsOther value.now }
        requires digest { digest.now ≡ digest_of value.now }
        ensures { result ≡ number_of value.now self.now.contents }
    {
        self.others
            .find_digested(digest, self.contents.as_slice(), value)
    }

    fn text_number(&self, text: &[u8]) -> Option<u64>
        ensures { result ≡ number_of (Simple text.now) self.now.contents }
    {
        let id = self.texts.find(text)?;
        match self.numbers[id as usize] {
            Some(number) => Some(number as u64),
            None => None,
        }
    }

    /// The content of a number. It shares the bytes of texts and of parts.
    pub fn value(&self, alloc: Global, number: u64) -> Result<Value, Memory>
        requires { number < length self.now.contents }
        ensures { IfOk result (λ value. slice_get self.now.contents number ≡ Some value) }
    {
        self.contents[number as usize].value(alloc)
    }

    /// Whether the content of a number is this value. It takes no memory.
    pub fn is(&self, number: u64, value: &Value) -> bool
        ensures { IsTrue result ↔ (slice_get self.now.contents number ≡ Some value.now) }
    {
        match self.contents.get(number as usize) {
            Some(content) => content.is(value),
            None => false,
        }
    }

    /// Holds a text in memory, once. The contents stay.
    pub fn share(&mut self, alloc: Global, text: &Text) -> Result<Shared, Memory>
        ensures id { IfOk result (λ s. place_of_body text.now self.new.texts ≡ Some s.id) }
        ensures text { IfOk result (λ s. s.text ≡ text.now) }
        ensures contents { self.new.contents ≡ self.old.contents }
        ensures texts { IsGrownFrom self.old.texts self.new.texts }
    {
        let id = self.hold(alloc, text)?;
        let text = self.held(alloc, id)?;
        Ok(Shared { id, text })
    }

    // The number in memory of a text that is held.
    pub(crate) fn id_of(&self, text: &Text) -> Option<u64>
        ensures { result ≡ place_of_body text.now self.now.texts }
    {
        self.texts.find(text.as_slice())
    }

    // The number in memory of a text, which is held from now on.
    pub(crate) fn hold(&mut self, alloc: Global, text: &Text) -> Result<u64, Memory>
        ensures id { IfOk result (λ id. place_of_body text.now self.new.texts ≡ Some id) }
        ensures contents { self.new.contents ≡ self.old.contents }
        ensures texts { IsGrownFrom self.old.texts self.new.texts }
    {
        self.numbers.reserve(1)?;
        let id = self.texts.intern(alloc, text)?;
        if (self.numbers.as_slice().len() as u64) < self.texts.len() {
            self.numbers.push(None)?;
        }
        Ok(id)
    }

    // The text of a number in memory.
    fn held(&self, alloc: Global, id: u64) -> Result<Text, Memory>
        requires { id < length self.now.texts }
        ensures { IfOk result (λ text. slice_get self.now.texts id ≡ Some text) }
    {
        self.texts.text(id).copy(alloc)
    }

    /// Makes room for contents more.
    pub fn reserve(&mut self, more: usize) -> Result<(), Memory>
        ensures ok { OnOk result (more ≤ self.new.room) }
        ensures contents { self.new.contents ≡ self.old.contents }
        ensures texts { self.new.texts ≡ self.old.texts }
    {
        self.contents.reserve(more)?;
        self.others.reserve(more)?;
        Ok(())
    }

    /// Adds the next content, whose text is held where it is one. It takes no memory.
    pub fn push(&mut self, content: Content)
        requires held { IsHeldIn self.old.texts content }
        requires room { 0 < self.old.room }
        requires few { length self.old.contents < 2 ^ 32 }
        ensures contents { self.new.contents ≡ self.old.contents ++ value_of content ∷ [] }
        ensures texts { self.new.texts ≡ self.old.texts }
        ensures room { self.old.room ≤ self.new.room + 1 }
    {
        match content {
            Content::Text(shared) => self.push_text(shared),
            Content::Other(value) => self.push_other(value),
        }
    }

    fn push_text(&mut self, shared: Shared)
        requires held { place_of_body shared.text self.old.texts ≡ Some shared.id }
        requires room { 0 < self.old.room }
        requires few { length self.old.contents < 2 ^ 32 }
        ensures contents { self.new.contents ≡ self.old.contents ++ Simple shared.text ∷ [] }
        ensures texts { self.new.texts ≡ self.old.texts }
        ensures room { self.old.room ≤ self.new.room + 1 }
    {
        set_first(&mut self.numbers, shared.id, self.contents.len() as u32);
        push_within(&mut self.contents, Content::Text(shared));
    }

    fn push_other(&mut self, value: Value)
        requires other { IsOther value }
        requires room { 0 < self.old.room }
        ensures contents { self.new.contents ≡ self.old.contents ++ value ∷ [] }
        ensures texts { self.new.texts ≡ self.old.texts }
        ensures room { self.old.room ≤ self.new.room + 1 }
    {
        self.others.add(self.contents.as_slice(), &value);
        push_within(&mut self.contents, Content::Other(value));
    }

    /// Adds the next contents, whose texts are held, the last of the list first. It takes no memory.
    pub fn push_all(&mut self, added: Vec<Content>)
        requires held { AreHeld self.old.texts added.items }
        requires room { length added.items ≤ self.old.room }
        requires few { length self.old.contents + length added.items ≤ 2 ^ 32 }
        ensures contents { self.new.contents
            ≡ contents_with self.old.contents (reverse added.items) }
        ensures texts { self.new.texts ≡ self.old.texts }
    {
        let mut added = added;
        while let Some(content) = added.pop() {
            self.push(content);
        }
    }

    /// Takes all contents away. The texts stay held. It takes no memory.
    pub fn clear_contents(&mut self)
        ensures contents { self.new.contents ≡ [] }
        ensures texts { self.new.texts ≡ self.old.texts }
        ensures room { self.old.room ≤ self.new.room }
    {
        self.others.clear();
        self.contents.clear();
        clear_numbers(&mut self.numbers);
    }

    /// Adds the next content.
    pub fn add(&mut self, alloc: Global, value: Value) -> Result<(), Memory>
        ensures contents { OnOk result (self.new.contents ≡ self.old.contents ++ value ∷ []) }
        ensures same { OnErr result (self.new.contents ≡ self.old.contents) }
        ensures texts { IsGrownFrom self.old.texts self.new.texts }
    {
        match value {
            Value::Simple(text) => self.add_text(alloc, &text),
            other => self.add_other(other),
        }
    }

    fn add_text(&mut self, alloc: Global, text: &Text) -> Result<(), Memory>
        ensures contents { OnOk result
            (self.new.contents ≡ self.old.contents ++ Simple text.now ∷ []) }
        ensures same { OnErr result (self.new.contents ≡ self.old.contents) }
        ensures texts { IsGrownFrom self.old.texts self.new.texts }
    {
        if self.len() > u32::MAX as usize {
            return Err(Memory);
        }
        let shared = self.share(alloc, text)?;
        self.reserve(1)?;
        self.push_text(shared);
        Ok(())
    }

    fn add_other(&mut self, value: Value) -> Result<(), Memory>
        requires { IsOther value }
        ensures contents { OnOk result (self.new.contents ≡ self.old.contents ++ value ∷ []) }
        ensures same { OnErr result (self.new.contents ≡ self.old.contents) }
        ensures texts { IsGrownFrom self.old.texts self.new.texts }
    {
        self.reserve(1)?;
        self.push_other(value);
        Ok(())
    }
}

// Gives a text its number, where it has none.
fn set_first(numbers: &mut Vec<Option<u32>>, id: u64, number: u32)
    requires { id < length numbers.old.items }
    ensures known { (n : ℕ) → slice_get numbers.old.items id ≡ Some (Some n)
        → numbers.new.items ≡ numbers.old.items }
    ensures fresh { slice_get numbers.old.items id ≡ Some None
        → numbers.new.items ≡ slice_set numbers.old.items id (Some number) }
{
    if numbers[id as usize].is_none() {
        numbers[id as usize] = Some(number);
    }
}

// Takes each number away.
fn clear_numbers(numbers: &mut Vec<Option<u32>>)
    ensures { numbers.new.items ≡ replicate (length numbers.old.items) None }
{
    numbers.fill(None);
}
