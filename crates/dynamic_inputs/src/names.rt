// Names, each once, with a quick look-up of their places.
ghost use Rattle.std.specs.Prelude.{◌≡◌, [], length, take, slice_get, Some, IfSome, IfOk, OnOk, OnErr};
ghost use Rattle.std.specs.Option.{option_copied};
ghost use Rattle.meaning_texts.specs.Lists.{IsIn};
ghost use Rattle.dynamic_inputs.specs.Closures.{with_name, with_names};

use indexmap::IndexSet;
use object_values::{Copied, Memory};
use odin_bytes::Name;
use std::alloc::Global;
use std::marker::Model;

/// Names in the order of their coming, each once.
pub struct Names {
    names: IndexSet<Name>,
}

impl Drop for Names {
    fn drop(self) {
        let Names { names } = self;
        drop(names);
    }
}

impl Model for Names {
    ghost use Rattle.std.specs.Prelude.{List};
    ghost use Rattle.meaning_graph.specs.Graphs.{Text};

    ghost Value = { List Text };

    ghost view = { λ n. n.names.keys };
}

impl Names {
    pub fn new(alloc: Global) -> Self
        ensures { result ≡ [] }
    {
        Names {
            names: IndexSet::new(alloc),
        }
    }

    pub fn len(&self) -> usize
        ensures { result ≡ length self.now }
    {
        self.names.len()
    }

    pub fn as_slice(&self) -> &[Name]
        ensures { result.now ≡ self.now }
    {
        self.names.as_slice()
    }

    /// The name at a place, where there is one.
    pub fn get(&self, place: usize) -> Option<&Name>
        ensures is { option_copied result ≡ slice_get self.now place }
        ensures one { IfSome result (λ name. IsIn name.now self.now) }
    {
        self.names.as_slice().get(place)
    }

    /// Adds the name after the others, where it is new, and gives its place.
    pub(crate) fn add(&mut self, alloc: Global, name: &Name) -> Result<usize, Memory>
        ensures names { OnOk result (self.new ≡ with_name self.old name.now) }
        ensures place { IfOk result (λ place. slice_get self.new place ≡ Some name.now) }
        ensures err { OnErr result (self.new ≡ self.old) }
    {
        if let Some(place) = self.names.get_index_of(name) {
            return Ok(place);
        }
        let (place, _) = self.names.insert_full(name.copy(alloc)?)?;
        Ok(place)
    }

    /// Adds the names after the others, as far as they are new. After want of memory all is as
    /// before.
    pub fn add_all(&mut self, alloc: Global, names: &[Name]) -> Result<(), Memory>
        ensures ok { OnOk result (self.new ≡ with_names self.old names.now) }
        ensures err { OnErr result (self.new ≡ self.old) }
    {
        let known = self.len();
        for name in names {
            if let Err(Memory) = self.add(alloc, name) {
                self.truncate(known);
                return Err(Memory);
            }
        }
        Ok(())
    }

    /// Makes room for so many names more. That is a hint: no clause tells of the room.
    pub(crate) fn reserve(&mut self, more: usize) -> Result<(), Memory>
        ensures { self.new ≡ self.old }
    {
        self.names.reserve(more)?;
        Ok(())
    }

    /// Keeps the first names, and no more than this many.
    pub(crate) fn truncate(&mut self, len: usize)
        ensures { self.new ≡ take len self.old }
    {
        self.names.truncate(len);
    }
}
