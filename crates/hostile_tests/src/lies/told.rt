// Records of nodes that lie, and files that have them.
use crate::runs::disk_of;
use object_values::{
    Bytes, Copied, Dep, Memory, Message, Node, NodeRecord, Renewed, Role, Seen, Seq, SharedSeq,
    ShortSeq, Status,
};
use odin_bytes::{put_bytes, put_u8};
use odin_store::Store;
use std::alloc::Global;
use test_support::{C_UNITS, body_of, open_store, record_bytes};

/// What a record of a node says in place of what is so. A place or a number that it hasn't makes no lie.
#[derive(Clone, Copy)]
pub(super) enum Lie {
    /// The value is another content, or there is none.
    Value(u64),
    NoValue,
    /// A need is left out, stands twice, or comes after the next one.
    Without(usize),
    Twice(usize),
    Later(usize),
    /// Another node with a record is a need, too.
    With(u64),
    /// A need had another value, or none.
    Seen(usize, u64),
    Unseen(usize),
    /// The needs from this place on are reached sources.
    Reached(usize),
    Own(Status),
    OwnMessage,
    /// It is said of the node's source, with the same value.
    OfSource,
    Present(Status),
    Message,
    Height(u32),
}

fn dep_of(alloc: Global, record: &NodeRecord) -> Result<Dep, Memory> {
    Ok(Dep {
        node: record.node.copy(alloc)?,
        role: Role::Needed,
        seen: match record.value {
            Some(number) => Seen::Kept(number),
            None => Seen::Nothing,
        },
    })
}

fn never_said(alloc: Global) -> Result<SharedSeq<Message>, Memory> {
    let mut messages = Seq::new(alloc);
    messages.push(Message {
        label: body_of(alloc, b"a.c:o")?,
        level: Status::Warning,
        text: body_of(alloc, b"never said")?,
    })?;
    SharedSeq::of(messages)
}

fn source_of(alloc: Global, node: &Node) -> Result<Node, Memory> {
    Ok(Node {
        source: node.source.copy(alloc)?,
        params: Seq::new(alloc),
        steps: ShortSeq::new(alloc),
    })
}

// A need as the lie has it, with those that stand before and after it.
fn add_dep(
    alloc: Global,
    deps: &mut Seq<Dep>,
    dep: &Dep,
    at: usize,
    lie: Lie,
) -> Result<(), Memory> {
    let mut dep = dep.copy(alloc)?;
    match lie {
        Lie::Without(place) if place == at => return Ok(()),
        Lie::Twice(place) if place == at => deps.push(dep.copy(alloc)?)?,
        Lie::Seen(place, number) if place == at => dep.seen = Seen::Kept(number),
        Lie::Unseen(place) if place == at => dep.seen = Seen::Nothing,
        Lie::Reached(place) if place <= at => dep.role = Role::Reached,
        _ => {}
    }
    deps.push(dep)
}

// The need that stands at a place.
fn standing_at(all: &[Dep], at: usize, lie: Lie) -> Option<&Dep> {
    match lie {
        Lie::Later(place) if place == at && at.saturating_add(1) < all.len() => {
            all.get(at.saturating_add(1))
        }
        Lie::Later(place) if place.saturating_add(1) == at => all.get(place),
        _ => all.get(at),
    }
}

fn deps_of(
    alloc: Global,
    store: &Store,
    record: &NodeRecord,
    lie: Lie,
) -> Result<Seq<Dep>, Memory> {
    let mut deps = Seq::new(alloc);
    let all = record.deps.as_slice();
    if let Lie::With(place) = lie {
        if let Some(other) = store.kept().record_at(place) {
            deps.push(dep_of(alloc, other)?)?;
        }
    }
    for at in 0..all.len() {
        if let Some(dep) = standing_at(all, at, lie) {
            add_dep(alloc, &mut deps, dep, at, lie)?;
        }
    }
    Ok(deps)
}

fn present_of(alloc: Global, record: &NodeRecord, lie: Lie) -> Result<Renewed, Memory> {
    let mut present = record.present.copy(alloc)?;
    match lie {
        Lie::Present(status) => present.status = status,
        Lie::Message => present.messages = never_said(alloc)?,
        Lie::Height(height) => present.height = height,
        _ => {}
    }
    Ok(present)
}

// The record with the lie.
fn lying(
    alloc: Global,
    store: &Store,
    record: &NodeRecord,
    lie: Lie,
) -> Result<NodeRecord, Memory> {
    let mut told = NodeRecord {
        node: record.node.copy(alloc)?,
        deps: deps_of(alloc, store, record, lie)?,
        value: record.value,
        own_status: record.own_status,
        own_messages: record.own_messages.copy(alloc)?,
        present: present_of(alloc, record, lie)?,
        checked: None,
    };
    match lie {
        Lie::Value(number) => told.value = Some(number),
        Lie::NoValue => told.value = None,
        Lie::Own(status) => told.own_status = status,
        Lie::OwnMessage => told.own_messages = never_said(alloc)?,
        Lie::OfSource => told.node = source_of(alloc, &record.node)?,
        _ => {}
    }
    Ok(told)
}

// Adds a record to a file, after the last one.
fn add_record(alloc: Global, image: &mut Bytes, record: &NodeRecord) -> Result<(), Memory> {
    let said = record_bytes(alloc, record)?;
    let mut item = Bytes::new(alloc);
    put_u8(&mut item, 6)?;
    item.extend_from_slice(said.as_slice())?;
    put_u8(image, 1)?;
    if item.len() > u32::MAX as usize {
        return Err(Memory);
    }
    put_bytes(image, item.as_slice())
}

/// The file in which the records of these nodes lie so: of the one at a place, or of all.
pub(super) fn lying_file(
    alloc: Global,
    whole: &[u8],
    place: Option<u64>,
    lie: Lie,
) -> Result<Bytes, Memory> {
    let mut disk = disk_of(alloc, whole)?;
    let Ok(store) = open_store(alloc, &mut disk, C_UNITS) else {
        return Err(Memory);
    };
    let end = whole.len().min(store.end() as usize);
    let mut image = Bytes::from_slice(alloc, &whole[..end])?;
    for at in 0..store.kept().records() {
        if place.is_some_and(|place| place != at) {
            continue;
        }
        if let Some(record) = store.kept().record_at(at) {
            add_record(alloc, &mut image, &lying(alloc, &store, record, lie)?)?;
        }
    }
    put_u8(&mut image, 0)?;
    Ok(image)
}
