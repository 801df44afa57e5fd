// What a key picks from a value.
ghost use Rattle.std.specs.Prelude.{◌≡◌, ◌-◌, ◌<◌, bytes_eq, find, slice_get, option_map, option_and_then};
ghost use Rattle.std.specs.Option.{option_copied};
ghost use Rattle.meaning_tasks.specs.Nodes.{element_number};
ghost use Rattle.meaning_tasks.specs.Values.{pick};
ghost use Rattle.odin_nodes.specs.Picking.{picked_view};

use crate::picks::element_number;
use object_values::{Copied, Memory, Node, Part, Text, Value};
use std::alloc::Global;

/// What a key picks: an element of a list, or the body of a part of a compound.
#[derive(Clone, Copy)]
pub enum Picked<'a> {
    Element(&'a Node),
    Body(&'a Text),
}

impl<'a> Copied for Picked<'a> {
    fn copy(&self, _alloc: Global) -> Result<Self, Memory> {
        Ok(*self)
    }
}

/// Element K from 1 of a list, or the part of that name. There is nothing else to pick.
pub fn pick<'a>(value: &'a Value, key: &[u8]) -> Option<Picked<'a>>
    ensures { option_map picked_view result ≡ pick value.now key.now }
{
    match value {
        Value::Simple(_) => None,
        Value::List(elements) => {
            let element = element_at(elements.as_slice(), key)?;
            Some(Picked::Element(element))
        }
        Value::Compound(parts) => {
            let part = part_named(parts.as_slice(), key)?;
            Some(Picked::Body(&part.body))
        }
    }
}

fn element_at<'a>(elements: &'a [Node], key: &[u8]) -> Option<&'a Node>
    ensures { option_map (λ element. element.now) result
        ≡ option_and_then (λ k. slice_get elements.now (k - 1)) (element_number key.now) }
{
    let number = element_number(key)?;
    elements.get(number as usize - 1)
}

fn part_named<'a>(parts: &'a [Part], name: &[u8]) -> Option<&'a Part>
    ensures { option_copied result ≡ find (λ p. bytes_eq p.name name.now) parts.now }
{
    parts.iter().find(|part| is_named(part, name))
}

fn is_named(part: &Part, name: &[u8]) -> bool
    ensures { result ≡ bytes_eq part.now.name name.now }
{
    part.name.as_slice() == name
}
