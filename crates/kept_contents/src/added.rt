// The contents that a batch adds.
ghost use Rattle.std.specs.Prelude.{◌≡◌, ◌∷◌, ◌++◌, [], All, IfNone, IfSome, None, OnErr, OnOk, Some, length, slice_get};
ghost use Rattle.meaning_records.specs.Numbers.{number_of};
ghost use Rattle.kept_contents.specs.declared.shared.Shared.{Shared as SharedValue};
ghost use Rattle.kept_contents.specs.declared.shared.Content.TheVariants as content_of;
ghost use Rattle.kept_contents.specs.Index.{digest_of};
ghost use Rattle.kept_contents.specs.Places.{IsApart};
ghost use Rattle.kept_contents.specs.Stocks.{IsOther, values_of_contents};

use crate::index::OtherIndex;
use crate::shared::{Content, Shared};
use crate::within::push_within;
use object_values::{Memory, Value};
use std::alloc::Global;
use std::collections::HashMap;
use std::marker::Model;

/// The contents that a batch adds, each once. Contracts see them in order.
pub struct AddedContents {
    contents: Vec<Content>,
    // of the number in memory of each text its place
    places: HashMap<u64, usize>,
    // the places of lists and compounds
    others: OtherIndex,
}

impl Drop for AddedContents {
    fn drop(self) {
        let AddedContents {
            contents,
            places,
            others,
        } = self;
        drop(contents);
        drop(places);
        drop(others);
    }
}

impl Model for AddedContents {
    ghost use Rattle.std.specs.Prelude.{List, nat_eq};
    ghost use Rattle.std.specs.HashMap.{get};
    ghost use Rattle.kept_contents.specs.declared.shared.Content.{Content as ContentValue};
    ghost use Rattle.kept_contents.specs.Index.{IsIndexed};
    ghost use Rattle.kept_contents.specs.Places.{ArePlaced};
    ghost use Rattle.kept_contents.specs.Stocks.{values_of_contents};

    ghost Value = { List ContentValue };

    ghost view = { λ a. a.contents.items };

    ghost invariant = { λ a. ArePlaced a.contents.items (get nat_eq a.places)
        × IsIndexed (values_of_contents a.contents.items) a.others };
}

impl AddedContents {
    pub fn new(alloc: Global) -> Self
        ensures { result ≡ [] }
    {
        AddedContents {
            contents: Vec::new(alloc),
            places: HashMap::new(alloc),
            others: OtherIndex::new(alloc),
        }
    }

    pub fn len(&self) -> usize
        ensures { result ≡ length self.now }
    {
        self.contents.len()
    }

    pub fn as_slice(&self) -> &[Content]
        ensures { result.now ≡ self.now }
    {
        self.contents.as_slice()
    }

    pub fn into_vec(self) -> Vec<Content>
        ensures { result.items ≡ self }
    {
        let AddedContents {
            contents,
            places,
            others,
        } = self;
        drop(places);
        drop(others);
        contents
    }

    // The place of the text that has this number in memory.
    pub(crate) fn place_of(&self, id: u64) -> Option<usize>
        ensures some { IfSome result (λ place. (s : SharedValue)
            × (slice_get self.now place ≡ Some (content_of.Text s)) × (s.id ≡ id)) }
        ensures none { IfNone result (All (IsApart id) self.now) }
    {
        match self.places.get(&id) {
            Some(place) => Some(*place),
            None => None,
        }
    }

    // The place of a list or a compound that has this digest.
    pub(crate) fn place_of_other(&self, digest: &[u8; 32], value: &Value) -> Option<u64>
        requires other { IsOther value.now }
        requires digest { digest.now ≡ digest_of value.now }
        ensures { result ≡ number_of value.now (values_of_contents self.now) }
    {
        self.others
            .find_digested(digest, self.contents.as_slice(), value)
    }

    // Adds a text that isn't there.
    pub(crate) fn push_text(&mut self, shared: Shared) -> Result<(), Memory>
        requires { All (IsApart shared.id) self.old }
        ensures ok { OnOk result (self.new ≡ self.old ++ content_of.Text shared ∷ []) }
        ensures err { OnErr result (self.new ≡ self.old) }
    {
        let place = self.contents.len();
        self.contents.reserve(1)?;
        self.places.insert(shared.id, place)?;
        push_within(&mut self.contents, Content::Text(shared));
        Ok(())
    }

    // Adds a list or a compound that isn't there and has this digest.
    pub(crate) fn push_other(&mut self, digest: [u8; 32], value: Value) -> Result<(), Memory>
        requires other { IsOther value }
        requires digest { digest ≡ digest_of value }
        requires fresh { number_of value (values_of_contents self.old) ≡ None }
        ensures ok { OnOk result (self.new ≡ self.old ++ content_of.Other value ∷ []) }
        ensures err { OnErr result (self.new ≡ self.old) }
    {
        self.contents.reserve(1)?;
        self.others.reserve(1)?;
        let place = self.contents.len() as u64;
        self.others.put(digest, place);
        push_within(&mut self.contents, Content::Other(value));
        Ok(())
    }
}
