// Names and the places where they first stand.
ghost use Rattle.std.specs.Prelude.{◌≡◌, [], OnOk};
ghost use Rattle.type_graph.specs.Places.{place_of, with_place, StandsBefore};

use indexmap::IndexMap;
use object_values::Memory;
use std::alloc::Global;
use std::marker::Model;

/// The place of each name. Contracts see the names with their places, in the order of their coming.
pub(crate) struct Names {
    places: IndexMap<Vec<u8>, usize>,
}

impl Drop for Names {
    fn drop(self) {
        let Names { places } = self;
        drop(places);
    }
}

impl Model for Names {
    ghost use Rattle.std.specs.Prelude.{map};
    ghost use Rattle.type_graph.specs.Places.{Places};

    ghost Value = { Places };

    ghost view = { λ n. map (λ e. (e.0.items, e.1)) n.places.entries };
}

impl Names {
    pub(crate) fn new(alloc: Global) -> Self
        ensures { result ≡ [] }
    {
        Names {
            places: IndexMap::new(alloc),
        }
    }

    /// Keeps the place of a name that has none.
    pub(crate) fn add(&mut self, alloc: Global, name: &[u8], place: usize) -> Result<(), Memory>
        ensures { OnOk result (self.new ≡ with_place self.old name.now place) }
    {
        if self.places.contains_key(name) {
            return Ok(());
        }
        self.places.insert(name.to_vec(alloc)?, place)?;
        Ok(())
    }

    pub(crate) fn place(&self, name: &[u8]) -> Option<usize>
        ensures { result ≡ place_of self.now name.now }
    {
        self.places.get(name).copied()
    }

    /// Whether the name stands before a place in the list that the names are of.
    pub(crate) fn stands_before(&self, name: &[u8], place: usize) -> bool
        ensures { StandsBefore self.now name.now place result }
    {
        match self.place(name) {
            Some(first) => first < place,
            None => false,
        }
    }
}
