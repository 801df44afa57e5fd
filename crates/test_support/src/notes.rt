// The records of nodes that are kept, and the contents that they name, as bytes.

use crate::views::{add_bytes, add_count, add_params, add_status};
use kept_tables::Kept;
use object_values::{Bytes, Dep, Memory, Message, Node, NodeRecord, Part, Role, Seen, Step, Value};
use odin_bytes::{put_u8, put_u32};
use std::alloc::Global;

fn add_number(out: &mut Bytes, number: Option<u64>) -> Result<(), Memory> {
    match number {
        Some(number) => {
            put_u8(out, 1)?;
            add_count(out, number as usize)
        }
        None => put_u8(out, 0),
    }
}

fn add_node(out: &mut Bytes, node: &Node) -> Result<(), Memory> {
    add_bytes(out, node.source.as_slice())?;
    add_params(out, node.params.as_slice())?;
    add_count(out, node.steps.as_slice().len())?;
    for step in node.steps.as_slice() {
        match step {
            Step::Maker(maker) => {
                put_u8(out, 1)?;
                put_u32(out, *maker)?;
            }
            Step::Pick(key) => {
                put_u8(out, 2)?;
                add_bytes(out, key.as_slice())?;
            }
        }
    }
    Ok(())
}

fn add_messages(out: &mut Bytes, messages: &[Message]) -> Result<(), Memory> {
    add_count(out, messages.len())?;
    for Message { label, level, text } in messages {
        add_bytes(out, label.as_slice())?;
        add_status(out, *level)?;
        add_bytes(out, text.as_slice())?;
    }
    Ok(())
}

fn add_deps(out: &mut Bytes, deps: &[Dep]) -> Result<(), Memory> {
    add_count(out, deps.len())?;
    for Dep {
        node,
        role: _,
        seen,
    } in deps {
        add_node(out, node)?;
        add_number(
            out,
            match seen {
                Seen::Kept(number) => Some(*number),
                _ => None,
            },
        )?;
    }
    Ok(())
}

// How many of the deps are reached sources.
fn reached(deps: &[Dep]) -> usize {
    let mut count: usize = 0;
    for dep in deps {
        if dep.role == Role::Reached {
            count = count.saturating_add(1);
        }
    }
    count
}

fn add_record(out: &mut Bytes, noted: &NodeRecord) -> Result<(), Memory> {
    add_node(out, &noted.node)?;
    add_deps(out, noted.deps.as_slice())?;
    add_count(out, reached(noted.deps.as_slice()))?;
    add_number(out, noted.value)?;
    add_status(out, noted.own_status)?;
    add_messages(out, noted.own_messages.as_slice())?;
    add_status(out, noted.present.status)?;
    add_messages(out, noted.present.messages.as_slice())?;
    put_u32(out, noted.present.height)
}

/// A record of a node, in the form of records of docs/engineer/store-format.md.
pub fn record_bytes(alloc: Global, noted: &NodeRecord) -> Result<Bytes, Memory> {
    let mut out = Bytes::new(alloc);
    add_record(&mut out, noted)?;
    Ok(out)
}

/// The records of nodes, in the order in which their nodes were first noted: in the same form.
pub fn noted(alloc: Global, kept: &Kept) -> Result<Bytes, Memory> {
    let mut out = Bytes::new(alloc);
    add_count(&mut out, kept.records() as usize)?;
    for place in 0..kept.records() {
        let Some(record) = kept.record_at(place) else {
            return Err(Memory);
        };
        add_record(&mut out, record)?;
    }
    Ok(out)
}

fn add_nodes(out: &mut Bytes, nodes: &[Node]) -> Result<(), Memory> {
    add_count(out, nodes.len())?;
    for node in nodes {
        add_node(out, node)?;
    }
    Ok(())
}

fn add_named(out: &mut Bytes, parts: &[Part]) -> Result<(), Memory> {
    add_count(out, parts.len())?;
    for Part { name, body } in parts {
        add_bytes(out, name.as_slice())?;
        add_bytes(out, body.as_slice())?;
    }
    Ok(())
}

fn add_value(out: &mut Bytes, value: &Value) -> Result<(), Memory> {
    match value {
        Value::Simple(text) => {
            put_u8(out, 1)?;
            add_bytes(out, text.as_slice())
        }
        Value::List(nodes) => {
            put_u8(out, 2)?;
            add_nodes(out, nodes.as_slice())
        }
        Value::Compound(parts) => {
            put_u8(out, 3)?;
            add_named(out, parts.as_slice())
        }
    }
}

/// The contents by their numbers, in the same form.
pub fn contents(alloc: Global, kept: &Kept) -> Result<Bytes, Memory> {
    let mut out = Bytes::new(alloc);
    add_count(&mut out, kept.contents() as usize)?;
    for number in 0..kept.contents() {
        add_value(&mut out, &kept.value(alloc, number)?)?;
    }
    Ok(out)
}
