// The four spaces of names, apart from each other.
ghost use Rattle.std.specs.Prelude.{◌≡◌, ◌<◌, ◌^◌, [], IfOk, OnOk, option_map};
ghost use Rattle.type_graph.specs.Places.{AreOf};
ghost use Rattle.type_graph.specs.Spaces.{name_in, names_in, AreSpaces, counts_with};

use crate::names::Names;
use object_values::{Bytes, Decl, Memory, when_done};
use std::alloc::Global;

/// A space of names.
#[derive(Clone, Copy, PartialEq, Eq)]
pub(crate) enum Space {
    Types,
    Suffixes,
    Params,
    Makers,
}

// The name of a declaration, where it is one of the space.
fn name_in<'a>(space: Space, decl: &'a Decl) -> Option<&'a Bytes>
    ensures { option_map (λ name. name.now) result ≡ name_in space decl.now }
{
    match decl {
        Decl::ObjectType(declared) if space == Space::Types => Some(&declared.name),
        Decl::Suffix(declared) if space == Space::Suffixes => Some(&declared.suffix),
        Decl::Param(name) if space == Space::Params => Some(name),
        Decl::Maker(declared) if space == Space::Makers => Some(&declared.name),
        _ => None,
    }
}

// Adds the names of a space, each with its number there.
fn add_names(names: &mut Names, alloc: Global, space: Space, decls: &[Decl]) -> Result<(), Memory>
    requires { names.old ≡ [] }
    ensures { OnOk result (AreOf names.new (names_in space decls.now)) }
{
    let mut built_in = 0;
    if space == Space::Types {
        names.add(alloc, b"text", 0)?;
        built_in = 1;
    }
    let mut declared = 0;
    for decl in decls {
        if let Some(name) = name_in(space, decl) {
            names.add(alloc, name.as_slice(), built_in + declared)?;
            declared += 1;
        }
    }
    Ok(())
}

/// The names of each space, each with its number there.
pub(crate) struct Spaces {
    pub(crate) types: Names,
    pub(crate) suffixes: Names,
    pub(crate) params: Names,
    pub(crate) makers: Names,
}

impl Drop for Spaces {
    fn drop(self) {
        let Spaces {
            types,
            suffixes,
            params,
            makers,
        } = self;
        drop(types);
        drop(suffixes);
        drop(params);
        drop(makers);
    }
}

impl Spaces {
    pub(crate) fn new(alloc: Global, decls: &[Decl]) -> Result<Self, Memory>
        ensures { IfOk result (AreSpaces decls.now) }
    {
        let mut spaces = Spaces {
            types: Names::new(alloc),
            suffixes: Names::new(alloc),
            params: Names::new(alloc),
            makers: Names::new(alloc),
        };
        let done = spaces.fill(alloc, decls);
        when_done(done, spaces)
    }

    // Adds the names of each space, where none are before.
    fn fill(&mut self, alloc: Global, decls: &[Decl]) -> Result<(), Memory>
        requires { self.old ≡ record { types = []; suffixes = []; params = []; makers = [] } }
        ensures { OnOk result (AreSpaces decls.now self.new) }
    {
        add_names(&mut self.types, alloc, Space::Types, decls)?;
        add_names(&mut self.suffixes, alloc, Space::Suffixes, decls)?;
        add_names(&mut self.params, alloc, Space::Params, decls)?;
        add_names(&mut self.makers, alloc, Space::Makers, decls)
    }
}

/// How many names stand in each space.
#[derive(Clone, Copy)]
pub(crate) struct Counts {
    pub(crate) types: usize,
    pub(crate) suffixes: usize,
    pub(crate) params: usize,
    pub(crate) makers: usize,
}

impl Counts {
    /// Counts a declaration.
    pub(crate) fn add(&mut self, decl: &Decl)
        requires types { self.old.types < 2 ^ 63 }
        requires suffixes { self.old.suffixes < 2 ^ 63 }
        requires params { self.old.params < 2 ^ 63 }
        requires makers { self.old.makers < 2 ^ 63 }
        ensures { self.new ≡ counts_with self.old decl.now }
    {
        match decl {
            Decl::ObjectType(_) => self.types += 1,
            Decl::Suffix(_) => self.suffixes += 1,
            Decl::Param(_) => self.params += 1,
            Decl::Maker(_) => self.makers += 1,
        }
    }
}
