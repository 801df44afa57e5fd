// The names to which lines lead, as the lines of one name after another are told.
ghost use Rattle.std.specs.Prelude.{◌≡◌, ◌↔◌, [], length, take, IsSome, IfSome, IfNone, IfOk, OnOk, OnErr, bytes_eq};
ghost use Rattle.std.specs.List.{list_any, IsDistinct};
ghost use Rattle.std.specs.Option.{option_copied};
ghost use Rattle.meaning_texts.specs.Lists.{IsIn};
ghost use Rattle.meaning_graph.specs.Graphs.{Text};
ghost use Rattle.meaning_tasks.specs.Reached.{AreReached};
ghost use Rattle.dynamic_inputs.specs.Closures.{lines_of, IsReached, IsWanted, AllTold, wanted_name, with_lines, with_name, with_names};
ghost use Rattle.dynamic_inputs.specs.Places.{ArePlaces, TellsLines, is_first};

use crate::names::Names;
use crate::sorting::sorted;
use object_values::{Memory, Seq};
use odin_bytes::Name;
use std::alloc::Global;
use std::marker::Model;

/// The names to which lines lead from a root, as they are told. Contracts see the root, and what was told of which names, in order.
///
/// The lines of the root come first. A root that some line names is a name like the others, but isn't told again.
pub struct Closure {
    root: Name,
    // Once something is told: the root, and then the names of all lines that were told, each once.
    names: Names,
    // What was told of the first names: each line as the place of the name in it.
    told: Seq<Seq<usize>>,
}

impl Drop for Closure {
    fn drop(self) {
        let Closure { root, names, told } = self;
        drop(root);
        drop(names);
        drop(told);
    }
}

impl Model for Closure {
    ghost use Rattle.dynamic_inputs.specs.Closures.{ClosureView};

    ghost Value = { ClosureView };

    ghost use Rattle.dynamic_inputs.specs.Places.{closure_view, IsEmptyOrFollowed};

    ghost view = { λ c. closure_view c.root c.names c.told };

    ghost invariant = { λ c. IsEmptyOrFollowed c.root c.names c.told };
}

impl Closure {
    /// Nothing is told yet.
    pub fn new(alloc: Global, root: Name) -> Self
        ensures { result ≡ record { root = root; told = [] } }
    {
        Closure {
            root,
            names: Names::new(alloc),
            told: Seq::new(alloc),
        }
    }

    /// The first name that was found, the root or a reached one, of which nothing was told.
    pub fn wanted(&self) -> Option<&Name>
        ensures first { option_copied result ≡ wanted_name self.now }
        ensures some { IfSome result (λ name. IsWanted self.now name.now) }
        ensures none { IfNone result (AllTold self.now) }
    {
        if self.told.is_empty() {
            return Some(&self.root);
        }
        self.names.as_slice().get(self.told.len())
    }

    /// Tells the lines of the wanted name, none for an absent one. After want of memory all is as before.
    pub fn add(&mut self, alloc: Global, lines: &[Name]) -> Result<(), Memory>
        requires { IsSome (wanted_name self.old) }
        ensures ok { OnOk result (self.new ≡ with_lines self.old lines.now) }
        ensures err { OnErr result (self.new ≡ self.old) }
    {
        let known = self.names.len();
        match tell(alloc, &self.root, &mut self.names, &mut self.told, lines) {
            Ok(()) => Ok(()),
            Err(Memory) => {
                self.names.truncate(known);
                Err(Memory)
            }
        }
    }

    /// The names that are reached by what was told, sorted by bytes.
    pub fn names(&self, alloc: Global) -> Result<Seq<Name>, Memory>
        ensures { IfOk result (AreReached (lines_of self.now self.now.root) (lines_of self.now)) }
    {
        sorted(alloc, self.reached())
    }

    // The reached names in the order in which they were found: all but the root, and that too where a line names it.
    fn reached(&self) -> &[Name]
        ensures each { (x : Text) → IsIn x result.now ↔ IsReached self.now x }
        ensures distinct { IsDistinct bytes_eq result.now }
    {
        let names = self.names.as_slice();
        if names.is_empty() {
            return names;
        }
        if has_first(self.told.as_slice()) {
            names
        } else {
            &names[1..]
        }
    }
}

// Tells the lines of the next name, the root first. After want of memory names may have been added.
fn tell(
    alloc: Global,
    root: &Name,
    names: &mut Names,
    told: &mut Seq<Seq<usize>>,
    lines: &[Name],
) -> Result<(), Memory>
    ensures ok { let rooted = with_name names.old root.now in
        OnOk result (TellsLines rooted told.old lines.now names.new told.new) }
    ensures kept { OnErr result (take (length names.old) names.new ≡ names.old) }
    ensures untold { OnErr result (told.new ≡ told.old) }
{
    make_room(alloc, names, told, lines.len())?;
    names.add(alloc, root)?;
    let places = places_of(alloc, names, lines)?;
    told.push(places)?;
    Ok(())
}

// Makes room for the root and the names in its lines, before anything is told: mostly there are no more.
fn make_room(
    alloc: Global,
    names: &mut Names,
    told: &mut Seq<Seq<usize>>,
    lines: usize,
) -> Result<(), Memory>
    ensures names { names.new ≡ names.old }
    ensures told { told.new ≡ told.old }
{
    if told.is_empty() {
        let room = lines.saturating_add(1);
        names.reserve(room)?;
        *told = Seq::from_vec(Vec::with_capacity(alloc, room)?);
    }
    Ok(())
}

// The places of the names in the lines. Those that are new are added, and some of them after want of memory too.
fn places_of(alloc: Global, names: &mut Names, lines: &[Name]) -> Result<Seq<usize>, Memory>
    ensures names { OnOk result (names.new ≡ with_names names.old lines.now) }
    ensures places { IfOk result (ArePlaces names.new lines.now) }
    ensures kept { take (length names.old) names.new ≡ names.old }
{
    let mut places = Seq::from_vec(Vec::with_capacity(alloc, lines.len())?);
    for line in lines {
        places.push(names.add(alloc, line)?)?;
    }
    Ok(places)
}

// Whether some line names what stands at the first place.
fn has_first(told: &[Seq<usize>]) -> bool
    ensures { result ≡ list_any (list_any is_first) told.now }
{
    told.iter().any(names_first)
}

fn names_first(places: &Seq<usize>) -> bool
    ensures { result ≡ list_any is_first places.now }
{
    places.as_slice().contains(&0)
}
