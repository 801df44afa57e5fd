// The inputs of a call.
ghost use Rattle.std.specs.Prelude.{◌≡◌, ◌<◌, ◌+◌, ◌++◌, [], flat_map, length, map, option_to_list, IfOk, OnOk};
ghost use Rattle.meaning_texts.specs.Limits.{extra_bound};
ghost use Rattle.meaning_tasks.specs.Needs.{values_of};
ghost use Rattle.meaning_tasks.specs.Calls.{compound_part, extra_parts, node_parts, reached_part, simple_part, text_in};

use crate::led::Led;
use crate::results::{Results, elements_of, value_of};
use crate::sources::source_node;
use object_values::{Bytes, CallPart, Copied, Memory, Node, Part, Seq, Value};
use odin_bytes::Name;
use odin_nodes::label_of;
use std::alloc::Global;
use type_graph::Graph;

/// The inputs: those of the base in slot 0, then the extras, then the reached sources.
pub fn call_parts<R: Results>(
    alloc: Global,
    graph: &Graph,
    base: &Node,
    extras: &[Led],
    names: &[Name],
    seen: &R,
) -> Result<Seq<CallPart>, Memory>
    requires few { length extras.now < extra_bound }
    ensures { let known = values_of (R.results seen.now) in
        let of_base = node_parts graph.now known 0 base.now in
        let of_extras = extra_parts graph.now known 1 extras.now in
        let of_names = map (reached_part known (length extras.now + 1)) names.now in
        IfOk result (λ parts. parts ≡ of_base ++ (of_extras ++ of_names)) }
{
    let mut parts = room_for_parts(alloc, base, extras, names, seen)?;
    put_node_parts(alloc, graph, 0, base, seen, &mut parts)?;
    put_extra_parts(alloc, graph, extras, seen, &mut parts)?;
    let slot = extra_slot(extras.len());
    put_reached_parts(alloc, slot, names, seen, &mut parts)?;
    Ok(parts)
}

// Room for a part of the base or of each of its elements, of each extra and of each name. Compounds
// have more.
fn room_for_parts<R: Results>(
    alloc: Global,
    base: &Node,
    extras: &[Led],
    names: &[Name],
    seen: &R,
) -> Result<Seq<CallPart>, Memory>
    ensures { IfOk result (λ parts. parts ≡ []) }
{
    let of_base = elements_of(seen, base).len().max(1);
    let room = of_base
        .saturating_add(extras.len())
        .saturating_add(names.len());
    Ok(Seq::from_vec(Vec::with_capacity(alloc, room)?))
}

// The slot of the extra at this place. The base has slot 0.
fn extra_slot(place: usize) -> u32
    requires { place < extra_bound }
    ensures { result ≡ place + 1 }
{
    place as u32 + 1
}

// Puts the parts of a node: one for a simple object, one for each element of a list, and one for
// each part of a compound.
fn put_node_parts<R: Results>(
    alloc: Global,
    graph: &Graph,
    slot: u32,
    node: &Node,
    seen: &R,
    out: &mut Seq<CallPart>,
) -> Result<(), Memory>
    ensures { let known = values_of (R.results seen.now) in
        OnOk result (out.new ≡ out.old ++ node_parts graph.now known slot node.now) }
{
    let Some(value) = value_of(seen, node) else {
        return Ok(());
    };
    match value {
        Value::Simple(text) => out.push(CallPart {
            slot,
            label: label_of(alloc, graph, node)?,
            body: Some(text.copy(alloc)?),
        }),
        Value::List(elements) => {
            put_element_parts(alloc, graph, slot, elements.as_slice(), seen, out)
        }
        Value::Compound(parts) => {
            let label = label_of(alloc, graph, node)?;
            put_compound_parts(alloc, slot, &label, parts.as_slice(), out)
        }
    }
}

fn put_element_parts<R: Results>(
    alloc: Global,
    graph: &Graph,
    slot: u32,
    elements: &[Node],
    seen: &R,
    out: &mut Seq<CallPart>,
) -> Result<(), Memory>
    ensures { let known = values_of (R.results seen.now) in
        let parts = map (simple_part graph.now known slot) elements.now in
        OnOk result (out.new ≡ out.old ++ parts) }
{
    for element in elements {
        let label = label_of(alloc, graph, element)?;
        out.push(part_of(alloc, slot, label, element, seen)?)?;
    }
    Ok(())
}

// One part for each part of a compound, with its name after the label.
fn put_compound_parts(
    alloc: Global,
    slot: u32,
    label: &Bytes,
    parts: &[Part],
    out: &mut Seq<CallPart>,
) -> Result<(), Memory>
    ensures { let parts = map (compound_part slot label.now) parts.now in
        OnOk result (out.new ≡ out.old ++ parts) }
{
    for part in parts {
        let mut name = label.copy(alloc)?;
        name.push(b'%')?;
        name.extend_from_slice(part.name.as_slice())?;
        out.push(CallPart {
            slot,
            label: name,
            body: Some(part.body.copy(alloc)?),
        })?;
    }
    Ok(())
}

// The text of the node, where it has one.
fn part_of<R: Results>(
    alloc: Global,
    slot: u32,
    label: Bytes,
    node: &Node,
    seen: &R,
) -> Result<CallPart, Memory>
    ensures { let body = text_in (values_of (R.results seen.now) node.now) in
        IfOk result (λ part. part ≡ record { slot = slot; label = label; body = body }) }
{
    let Some(Value::Simple(text)) = value_of(seen, node) else {
        return Ok(CallPart {
            slot,
            label,
            body: None,
        });
    };
    Ok(CallPart {
        slot,
        label,
        body: Some(text.copy(alloc)?),
    })
}

// Puts the parts of the extras, each with the next slot, from 1 on.
fn put_extra_parts<R: Results>(
    alloc: Global,
    graph: &Graph,
    extras: &[Led],
    seen: &R,
    out: &mut Seq<CallPart>,
) -> Result<(), Memory>
    requires few { length extras.now < extra_bound }
    ensures { let known = values_of (R.results seen.now) in
        OnOk result (out.new ≡ out.old ++ extra_parts graph.now known 1 extras.now) }
{
    for (place, extra) in extras.iter().enumerate() {
        put_led_parts(alloc, graph, extra_slot(place), extra, seen, out)?;
    }
    Ok(())
}

fn put_led_parts<R: Results>(
    alloc: Global,
    graph: &Graph,
    slot: u32,
    led: &Led,
    seen: &R,
    out: &mut Seq<CallPart>,
) -> Result<(), Memory>
    ensures { let known = values_of (R.results seen.now) in
        let parts = flat_map (node_parts graph.now known slot) (option_to_list led.now.node) in
        OnOk result (out.new ≡ out.old ++ parts) }
{
    match led.node() {
        Some(node) => put_node_parts(alloc, graph, slot, node, seen, out),
        None => Ok(()),
    }
}

// Puts the reached sources, which may be absent.
fn put_reached_parts<R: Results>(
    alloc: Global,
    slot: u32,
    names: &[Name],
    seen: &R,
    out: &mut Seq<CallPart>,
) -> Result<(), Memory>
    ensures { let known = values_of (R.results seen.now) in
        OnOk result (out.new ≡ out.old ++ map (reached_part known slot) names.now) }
{
    for name in names {
        let label = Bytes::from_slice(alloc, name.as_slice())?;
        let source = source_node(alloc, name.as_slice())?;
        out.push(part_of(alloc, slot, label, &source, seen)?)?;
    }
    Ok(())
}
