// The numbers of lists and compounds.
ghost use Rattle.std.specs.Prelude.{◌≡◌, ◌≢◌, ◌↔◌, ◌+◌, ◌<◌, ◌≤◌, ◌∷◌, ◌++◌, [], All, IfNone, IfSome, IsTrue, List, OnOk, Some};
ghost use Rattle.std.specs.List.{flat_map, fold};
ghost use Rattle.object_values.specs.declared.views.Value.{Value as ContentValue};
ghost use Rattle.meaning_records.specs.Numbers.{number_of};
ghost use Rattle.kept_contents.specs.Index.{IsIndexed, IsNumber, TakesIn, digest_of, nodes_fed, part_fed, parts_fed, room_of, value_fed};
ghost use Rattle.kept_contents.specs.Stocks.{IsOther, values_of_contents};

use crate::shared::Content;
use crate::within::{insert_within, push_within};
use content_store::ShaHasher;
use object_values::{Memory, Node, Part, Seq, Value};
use std::alloc::Global;
use std::collections::HashMap;
use std::hash::{Hash, Hasher};

/// The numbers of the lists and compounds among contents. A value is looked up by its digest, and what is found there is compared.
pub struct OtherIndex {
    // the number of the first value that has the digest
    first: HashMap<[u8; 32], u64>,
    // the numbers of the values whose digest an earlier one has
    clashing: Vec<u64>,
}

impl Drop for OtherIndex {
    fn drop(self) {
        let OtherIndex { first, clashing } = self;
        drop(first);
        drop(clashing);
    }
}

impl OtherIndex {
    pub fn new(alloc: Global) -> Self
        ensures { IsIndexed [] result }
    {
        OtherIndex {
            first: HashMap::new(alloc),
            clashing: Vec::new(alloc),
        }
    }

    /// The number of a list or a compound among the contents.
    pub fn find(&self, contents: &[Content], value: &Value) -> Option<u64>
        requires index { IsIndexed (values_of_contents contents.now) self.now }
        requires other { IsOther value.now }
        ensures { result ≡ number_of value.now (values_of_contents contents.now) }
    {
        self.find_digested(&digest_of(value), contents, value)
    }

    /// Makes room for so many more.
    pub fn reserve(&mut self, more: usize) -> Result<(), Memory>
        ensures room { OnOk result (more ≤ room_of self.new) }
        ensures same { (contents : List ContentValue) → IsIndexed contents self.old
            → IsIndexed contents self.new }
    {
        self.first.reserve(more)?;
        self.clashing.reserve(more)?;
        Ok(())
    }

    /// Takes in the list or the compound that is the next content. It takes no memory.
    pub fn add(&mut self, contents: &[Content], value: &Value)
        requires index { IsIndexed (values_of_contents contents.now) self.old }
        requires other { IsOther value.now }
        requires room { 0 < room_of self.old }
        ensures index { IsIndexed (values_of_contents contents.now ++ value.now ∷ []) self.new }
        ensures room { room_of self.old ≤ room_of self.new + 1 }
    {
        let digest = digest_of(value);
        if self.find_digested(&digest, contents, value).is_none() {
            self.put(digest, contents.len() as u64);
        }
    }

    // Takes in a list or a compound that isn't there, by its digest and its number. It takes no memory.
    pub(crate) fn put(&mut self, digest: [u8; 32], number: u64)
        requires { 0 < room_of self.old }
        ensures index { TakesIn self.old digest number self.new }
        ensures room { room_of self.old ≤ room_of self.new + 1 }
    {
        if self.first.contains_key(&digest) {
            push_within(&mut self.clashing, number);
        } else {
            insert_within(&mut self.first, digest, number);
        }
    }

    /// Takes all numbers away. It takes no memory.
    pub fn clear(&mut self)
        ensures index { IsIndexed [] self.new }
        ensures room { room_of self.old ≤ room_of self.new }
    {
        self.first.clear();
        self.clashing.clear();
    }

    // The number of the value that has this digest.
    pub(crate) fn find_digested(
        &self,
        digest: &[u8; 32],
        contents: &[Content],
        value: &Value,
    ) -> Option<u64>
        requires index { IsIndexed (values_of_contents contents.now) self.now }
        requires other { IsOther value.now }
        requires digest { digest.now ≡ digest_of value.now }
        ensures { result ≡ number_of value.now (values_of_contents contents.now) }
    {
        match self.first.get(digest) {
            Some(first) => find_from(contents, *first, self.clashing.as_slice(), value),
            None => None,
        }
    }
}

// Nothing rests on it but time.
pub(crate) fn digest_of(value: &Value) -> [u8; 32]
    ensures { result ≡ digest_of value.now }
{
    let mut state = ShaHasher::default();
    feed(value, &mut state);
    state.digest()
}

fn feed<H: Hasher>(value: &Value, state: &mut H)
    ensures { state.new ≡ fold H.write state.old (value_fed value.now) }
{
    match value {
        Value::Simple(text) => text.hash(state),
        Value::List(nodes) => feed_list(nodes, state),
        Value::Compound(parts) => feed_compound(parts.as_slice(), state),
    }
}

// A kind before each, so that no list feeds what a compound does.
fn feed_list<H: Hasher>(nodes: &Seq<Node>, state: &mut H)
    ensures { state.new ≡ fold H.write state.old (nodes_fed nodes.now) }
{
    state.write_u8(1);
    nodes.hash(state);
}

fn feed_compound<H: Hasher>(parts: &[Part], state: &mut H)
    ensures { state.new ≡ fold H.write state.old (parts_fed parts.now) }
{
    state.write_u8(2);
    feed_parts(parts, state);
}

fn feed_parts<H: Hasher>(parts: &[Part], state: &mut H)
    ensures { state.new ≡ fold H.write state.old (flat_map part_fed parts.now) }
{
    for part in parts {
        part.name.hash(state);
        part.body.hash(state);
    }
}

// Whether the number is that of the value.
fn is_number(contents: &[Content], number: u64, value: &Value) -> bool
    requires number { IsNumber (values_of_contents contents.now) number }
    requires other { IsOther value.now }
    ensures { IsTrue result ↔
        (number_of value.now (values_of_contents contents.now) ≡ Some number) }
{
    match contents.get(number as usize) {
        Some(Content::Other(other)) => other == value,
        Some(Content::Text(_)) => false,
        None => false,
    }
}

// Which of the first number and the others is that of the value.
fn find_from(contents: &[Content], first: u64, others: &[u64], value: &Value) -> Option<u64>
    requires first { IsNumber (values_of_contents contents.now) first }
    requires others { All (IsNumber (values_of_contents contents.now)) others.now }
    requires other { IsOther value.now }
    ensures some { IfSome result
        (λ n. number_of value.now (values_of_contents contents.now) ≡ Some n) }
    ensures not_first { IfNone result
        (number_of value.now (values_of_contents contents.now) ≢ Some first) }
    ensures not_others { IfNone result
        (All (λ n. number_of value.now (values_of_contents contents.now) ≢ Some n) others.now) }
{
    if is_number(contents, first, value) {
        return Some(first);
    }
    find_among(contents, others, value)
}

// The first of the numbers that is that of the value.
fn find_among(contents: &[Content], numbers: &[u64], value: &Value) -> Option<u64>
    requires numbers { All (IsNumber (values_of_contents contents.now)) numbers.now }
    requires other { IsOther value.now }
    ensures some { IfSome result
        (λ n. number_of value.now (values_of_contents contents.now) ≡ Some n) }
    ensures none { IfNone result
        (All (λ n. number_of value.now (values_of_contents contents.now) ≢ Some n) numbers.now) }
{
    for number in numbers {
        if is_number(contents, *number, value) {
            return Some(*number);
        }
    }
    None
}
