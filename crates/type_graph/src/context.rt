// What the tests of declarations look up: names, and the types by their numbers.
ghost use Rattle.std.specs.Prelude.{◌≡◌, ◌<◌, ◌≤◌, ◌+◌, [], false, IfOk, OnOk, length, filter_map, slice_index_or, take};
ghost use Rattle.std.specs.List.{list_any};
ghost use Rattle.meaning_texts.specs.Limits.{declaration_limit};
ghost use Rattle.meaning_graph.specs.Graphs.{types, type_named, has_param};
ghost use Rattle.meaning_graph.specs.Types.{is_a};
ghost use Rattle.meaning_graph.specs.Checks.{is_known};
ghost use Rattle.type_graph.specs.Places.{place_of, stands_in};
ghost use Rattle.type_graph.specs.Rows.{RowsAreClosed};
ghost use Rattle.type_graph.specs.Shapes.{shape_of, shapes_of, supers_of_all, shape_named, IsRowAbove, AreKindsBy};
ghost use Rattle.type_graph.specs.Spaces.{names_in};
ghost use Rattle.type_graph.specs.Tables.{AreNamed, AreRows};
ghost use Rattle.type_graph.specs.Walks.{AreAllBelow, AreBelow};

use crate::names::Names;
use crate::rows::Rows;
use crate::spaces::{Space, Spaces};
use crate::walk::reached;
use object_values::{Bytes, DECLARATION_LIMIT, Decl, Kind, Memory, Seq, when_done};
use std::alloc::Global;
use std::marker::Model;

/// What the objects of a type are. A list has the number of its elements' type, where that is declared.
#[derive(Clone, Copy)]
pub(crate) enum Shape {
    Simple,
    List(Option<usize>),
    Compound,
}

/// What the objects of each type are, and the numbers of its supertypes.
pub(crate) struct Kinds {
    pub(crate) shapes: Seq<Shape>,
    pub(crate) supers: Seq<Seq<usize>>,
}

impl Drop for Kinds {
    fn drop(self) {
        let Kinds { shapes, supers } = self;
        drop(shapes);
        drop(supers);
    }
}

/// Declarations with their tables. Contracts see the declarations.
pub(crate) struct Context<'a> {
    decls: &'a [Decl],
    spaces: Spaces,
    kinds: Kinds,
    rows: Rows,
}

impl Drop for Context<'_> {
    fn drop(self) {
        let Context {
            decls: _,
            spaces,
            kinds,
            rows,
        } = self;
        drop(spaces);
        drop(kinds);
        drop(rows);
    }
}

impl<'a> Model for Context<'a> {
    ghost use Rattle.std.specs.Prelude.{List};
    ghost use Rattle.object_values.specs.declared.graph.Decl.{Decl};
    ghost use Rattle.type_graph.specs.Tables.{IsContext};

    ghost Value = { List Decl };

    ghost view = { λ c. c.decls.now };

    ghost invariant = { λ c. IsContext c.decls.now c.spaces c.kinds c.rows };
}

impl<'a> Context<'a> {
    pub(crate) fn new(alloc: Global, decls: &'a [Decl]) -> Result<Self, Memory>
        ensures { IfOk result (λ made. made ≡ decls.now) }
    {
        let spaces = Spaces::new(alloc, decls)?;
        let kinds = Kinds::new(alloc, &spaces.types, decls)?;
        let rows = rows_if_few(alloc, kinds.supers.as_slice(), decls.len())?;
        Ok(Context {
            decls,
            spaces,
            kinds,
            rows,
        })
    }

    /// The number of the type that a name means.
    pub(crate) fn number(&self, name: &Bytes) -> Option<usize>
        ensures { result ≡ type_named self.now name.now }
    {
        self.spaces.types.place(name.as_slice())
    }

    pub(crate) fn knows(&self, name: &Bytes) -> bool
        ensures { result ≡ is_known self.now name.now }
    {
        self.number(name).is_some()
    }

    pub(crate) fn has_param(&self, name: &Bytes) -> bool
        ensures { result ≡ has_param self.now name.now }
    {
        self.spaces.params.place(name.as_slice()).is_some()
    }

    /// Whether the name stands among the first names of a space.
    pub(crate) fn stands_before(&self, space: Space, name: &Bytes, count: usize) -> bool
        ensures { result ≡ stands_in name.now (take count (names_in space self.now)) }
    {
        let names = match space {
            Space::Types => &self.spaces.types,
            Space::Suffixes => &self.spaces.suffixes,
            Space::Params => &self.spaces.params,
            Space::Makers => &self.spaces.makers,
        };
        names.stands_before(name.as_slice(), count)
    }

    /// What the objects of the type are that a name means.
    pub(crate) fn shape(&self, name: &Bytes) -> Option<Shape>
        ensures { result ≡ shape_named self.now name.now }
    {
        let number = self.number(name)?;
        self.kinds.shapes.as_slice().get(number).copied()
    }

    pub(crate) fn type_count(&self) -> usize
        ensures { result ≡ length (types self.now) }
    {
        self.kinds.shapes.len()
    }

    /// The numbers of the types that are declared among names.
    pub(crate) fn numbers(&self, alloc: Global, names: &[Bytes]) -> Result<Seq<usize>, Memory>
        ensures { IfOk result (λ numbers. numbers ≡ filter_map (type_named self.now) names.now) }
    {
        numbers_of(alloc, &self.spaces.types, names)
    }

    /// Which types are above one of the starts.
    pub(crate) fn above(&self, alloc: Global, starts: &[usize]) -> Result<Seq<bool>, Memory>
        requires { AreBelow (length (types self.now)) starts.now }
        ensures { IfOk result (IsRowAbove self.now starts.now) }
    {
        reached(alloc, self.kinds.supers.as_slice(), starts)
    }

    /// Whether one of the first types is the other one.
    pub(crate) fn any_is(
        &self,
        alloc: Global,
        starts: &[usize],
        number: usize,
    ) -> Result<bool, Memory>
        requires starts { AreBelow (length (types self.now)) starts.now }
        requires number { number < length (types self.now) }
        ensures { IfOk result (λ is. is ≡ list_any (λ a. is_a self.now a number) starts.now) }
    {
        if self.decls.len() > DECLARATION_LIMIT as usize {
            // So many are refused, and have no rows.
            let above = self.above(alloc, starts)?;
            return Ok(is_marked(above.as_slice(), number));
        }
        Ok(self.rows.any_has(starts, number))
    }

    /// The names of each space, and what types each type is, where the declarations are not too many.
    pub(crate) fn into_parts(self) -> (Spaces, Rows)
        ensures named { AreNamed self.entry result.0 }
        ensures ordered { length self.entry ≤ declaration_limit → AreRows self.entry result.1 }
    {
        let Context {
            decls: _,
            spaces,
            kinds: _,
            rows,
        } = self;
        (spaces, rows)
    }
}

fn is_marked(row: &[bool], number: usize) -> bool
    ensures { result ≡ slice_index_or row.now number false }
{
    match row.get(number) {
        Some(marked) => *marked,
        None => false,
    }
}

// The rows of types, where so many declarations are not too many.
fn rows_if_few(alloc: Global, supers: &[Seq<usize>], count: usize) -> Result<Rows, Memory>
    requires supers { AreAllBelow supers.now }
    requires sized { length supers.now ≤ count + 1 }
    ensures { count ≤ declaration_limit → IfOk result (RowsAreClosed supers.now) }
{
    if count > DECLARATION_LIMIT as usize {
        return Rows::closed(alloc, &[]);
    }
    Rows::closed(alloc, supers)
}

// The numbers of names that have one.
fn numbers_of(alloc: Global, types: &Names, names: &[Bytes]) -> Result<Seq<usize>, Memory>
    ensures { IfOk result (λ numbers. numbers ≡ filter_map (place_of types.now) names.now) }
{
    let mut numbers = Seq::new(alloc);
    for name in names {
        if let Some(number) = types.place(name.as_slice()) {
            numbers.push(number)?;
        }
    }
    Ok(numbers)
}

fn shape_of(types: &Names, kind: &Kind) -> Shape
    ensures { result ≡ shape_of (place_of types.now) kind.now }
{
    match kind {
        Kind::Simple => Shape::Simple,
        Kind::List(of) => Shape::List(types.place(of.as_slice())),
        Kind::Compound(_) => Shape::Compound,
    }
}

impl Kinds {
    fn new(alloc: Global, names: &Names, decls: &[Decl]) -> Result<Self, Memory>
        ensures { IfOk result (AreKindsBy (place_of names.now) (types decls.now)) }
    {
        let mut kinds = Kinds {
            shapes: Seq::new(alloc),
            supers: Seq::new(alloc),
        };
        let done = kinds.fill(alloc, names, decls);
        when_done(done, kinds)
    }

    // Adds each type, where none is before.
    fn fill(&mut self, alloc: Global, names: &Names, decls: &[Decl]) -> Result<(), Memory>
        requires { self.old ≡ record { shapes = []; supers = [] } }
        ensures { OnOk result (AreKindsBy (place_of names.now) (types decls.now) self.new) }
    {
        fill_shapes(&mut self.shapes, names, decls)?;
        fill_supers(alloc, &mut self.supers, names, decls)
    }
}

// What the objects of each type are.
fn fill_shapes(shapes: &mut Seq<Shape>, names: &Names, decls: &[Decl]) -> Result<(), Memory>
    requires { shapes.old ≡ [] }
    ensures { OnOk result (shapes.new ≡ shapes_of (place_of names.now) (types decls.now)) }
{
    shapes.push(Shape::Simple)?;
    for decl in decls {
        if let Decl::ObjectType(declared) = decl {
            shapes.push(shape_of(names, &declared.kind))?;
        }
    }
    Ok(())
}

// The numbers of the supertypes of each type.
fn fill_supers(
    alloc: Global,
    supers: &mut Seq<Seq<usize>>,
    names: &Names,
    decls: &[Decl],
) -> Result<(), Memory>
    requires { supers.old ≡ [] }
    ensures { OnOk result (supers.new ≡ supers_of_all (place_of names.now) (types decls.now)) }
{
    supers.push(Seq::new(alloc))?;
    for decl in decls {
        if let Decl::ObjectType(declared) = decl {
            supers.push(numbers_of(alloc, names, declared.supers.as_slice())?)?;
        }
    }
    Ok(())
}
