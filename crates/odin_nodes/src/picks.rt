// What keys pick: elements of lists by their numbers, and parts by their names.
ghost use Rattle.std.specs.Prelude.{◌≡◌, ◌&&◌, Some, nat_lt, ◌<◌, is_some, find, filter_map, slice_get, bytes_eq, option_map, IfSome};
ghost use Rattle.std.specs.Option.{option_copied};
ghost use Rattle.meaning_texts.specs.Limits.{element_bound};
ghost use Rattle.meaning_graph.specs.Graphs.{as_type, kind_of};
ghost use Rattle.meaning_tasks.specs.Nodes.{element_number, picked_type};
ghost use Rattle.odin_nodes.specs.Kinds.{declared_kind};

use object_values::{Decl, ELEMENT_BOUND, Kind, PartDecl, TypeDecl};
use odin_bytes::read_number;
use type_graph::Graph;

/// What the objects of the type of this name are. `None` for `text`, which isn't declared and is
/// simple, and where the name means no type.
pub fn kind_named<'a>(graph: &'a Graph, name: &[u8]) -> Option<&'a Kind>
    ensures { option_map (λ kind. kind.now) result ≡ declared_kind graph.now name.now }
{
    let number = graph.type_named(name)?;
    if number == 0 {
        return None;
    }
    let declared = declared_type(graph, number - 1)?;
    Some(&declared.kind)
}

/// The type of what a key picks from an object of the type.
pub(crate) fn picked_type(graph: &Graph, from: u32, key: &[u8]) -> Option<u32>
    ensures { result ≡ picked_type graph.now key.now (kind_of graph.now from) }
{
    // `text`, which isn't declared, is simple.
    if from == 0 {
        return None;
    }
    let declared = declared_type(graph, from - 1)?;
    picked_of(graph, &declared.kind, key)
}

// The type that is declared at this place among the types, from 0.
fn declared_type(graph: &Graph, place: u32) -> Option<&TypeDecl>
    ensures { option_copied result ≡ slice_get (filter_map as_type graph.now) place }
{
    let mut left = place;
    for decl in graph.decls() {
        if let Decl::ObjectType(declared) = decl {
            if left == 0 {
                return Some(declared);
            }
            left -= 1;
        }
    }
    None
}

// The same of an object of the kind.
fn picked_of(graph: &Graph, kind: &Kind, key: &[u8]) -> Option<u32>
    ensures { result ≡ picked_type graph.now key.now (Some kind.now) }
{
    match kind {
        Kind::Simple => None,
        Kind::List(of) if is_element_number(key) => graph.type_named(of.as_slice()),
        Kind::List(_) => None,
        Kind::Compound(parts) => {
            let part = part_named(parts.as_slice(), key)?;
            graph.type_named(part.of.as_slice())
        }
    }
}

// Whether the key is the number of an element.
fn is_element_number(key: &[u8]) -> bool
    ensures { result ≡ is_some (element_number key.now) }
{
    element_number(key).is_some()
}

/// The number of an element that the key is, from 1.
pub(crate) fn element_number(key: &[u8]) -> Option<u64>
    ensures is { result ≡ element_number key.now }
    ensures some { IfSome result (λ number. 0 < number) }
{
    let number = read_number(key)?;
    if numbers_an_element(number) {
        Some(number)
    } else {
        None
    }
}

fn numbers_an_element(number: u64) -> bool
    ensures { result ≡ (nat_lt 0 number && nat_lt number element_bound) }
{
    0 < number && number < ELEMENT_BOUND
}

fn part_named<'a>(parts: &'a [PartDecl], name: &[u8]) -> Option<&'a PartDecl>
    ensures { option_copied result ≡ find (λ p. bytes_eq p.name name.now) parts.now }
{
    parts.iter().find(|part| is_named(part, name))
}

fn is_named(part: &PartDecl, name: &[u8]) -> bool
    ensures { result ≡ bytes_eq part.now.name name.now }
{
    part.name.as_slice() == name
}
