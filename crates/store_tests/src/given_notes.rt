// What is noted of nodes as tables give it, and records of nodes as they stand in memory then.
use crate::given::text_of;
use kept_tables::Kept;
use object_values::{
    Bytes, Fact, FactDep, Fresh, Memory, Message, Node, NodeRecord, Part, Renewed, Role, Seq,
    SharedSeq, ShortSeq, Status, Step, Value,
};
use odin_fakes::MemDisk;
use std::alloc::Global;
use test_support::record_bytes;

/// The graph for which nodes are noted, with a type of each kind, and the payload of its record.
pub(super) const GRAPH: &[u8] =
    b"type c simple; type o simple; type l list of c; type k compound (p o, q c); suffix .c c; tool cc 1 from c to o run \"cc\"; read rd from c to l; pack pk from c to k;";

pub(super) const GRAPH_PAYLOAD: &[u8] =
    b"\x01\0\0\0\xa2type c simple; type o simple; type l list of c; type k compound (p o, q c); suffix .c c; tool cc 1 from c to o run \"cc\"; read rd from c to l; pack pk from c to k;";

/// A file as a disk, with room for a few batches and for a copy of its records.
pub(super) fn wide_disk(alloc: Global, image: &[u8]) -> Result<MemDisk, Memory> {
    MemDisk::new(alloc, Bytes::from_slice(alloc, image)?, 8_000, 800)
}

/// A value of each kind. A list is one of sources.
#[derive(Clone, Copy)]
pub(super) enum GivenValue {
    Nothing,
    Text(&'static [u8]),
    List(&'static [&'static [u8]]),
    Compound(&'static [(&'static [u8], &'static [u8])]),
}

/// A source in its role, with what was seen of it.
pub(super) type GivenDep = (Role, &'static [u8], GivenValue);

/// A label, a level and a text.
pub(super) type GivenMessage = (&'static [u8], Status, &'static [u8]);

/// What a node comes to at present.
#[derive(Clone, Copy)]
pub(super) struct GivenPresent {
    pub(super) status: Status,
    pub(super) messages: &'static [GivenMessage],
    pub(super) height: u32,
    pub(super) tight: Option<u32>,
}

/// What is to be noted of a node, which is a source with one maker.
pub(super) struct GivenNote {
    pub(super) source: &'static [u8],
    pub(super) maker: u32,
    pub(super) deps: &'static [GivenDep],
    pub(super) value: GivenValue,
    pub(super) own_status: Status,
    pub(super) own_messages: &'static [GivenMessage],
    pub(super) present: GivenPresent,
}

/// A source, by one maker or by none.
pub(super) fn node_of(alloc: Global, source: &[u8], maker: Option<u32>) -> Result<Node, Memory> {
    let mut steps = ShortSeq::new(alloc);
    if let Some(maker) = maker {
        steps.push(Step::Maker(maker))?;
    }
    Ok(Node {
        source: Bytes::from_slice(alloc, source)?,
        params: Seq::new(alloc),
        steps,
    })
}

fn list_of(alloc: Global, sources: &[&[u8]]) -> Result<Value, Memory> {
    let mut nodes = Seq::new(alloc);
    for source in sources {
        nodes.push(node_of(alloc, source, None)?)?;
    }
    Ok(Value::List(nodes))
}

fn part_of(alloc: Global, name: &[u8], body: &[u8]) -> Result<Part, Memory> {
    let name = Bytes::from_slice(alloc, name)?;
    let body = text_of(alloc, body)?;
    Ok(Part { name, body })
}

fn compound_of(alloc: Global, parts: &[(&[u8], &[u8])]) -> Result<Value, Memory> {
    let mut made = Seq::new(alloc);
    for (name, body) in parts {
        made.push(part_of(alloc, name, body)?)?;
    }
    Ok(Value::Compound(made))
}

fn value_of(alloc: Global, given: GivenValue) -> Result<Option<Value>, Memory> {
    match given {
        GivenValue::Nothing => Ok(None),
        GivenValue::Text(text) => Ok(Some(Value::Simple(text_of(alloc, text)?))),
        GivenValue::List(sources) => Ok(Some(list_of(alloc, sources)?)),
        GivenValue::Compound(parts) => Ok(Some(compound_of(alloc, parts)?)),
    }
}

fn message_of(alloc: Global, given: GivenMessage) -> Result<Message, Memory> {
    let (label, level, text) = given;
    let label = text_of(alloc, label)?;
    let text = text_of(alloc, text)?;
    Ok(Message { label, level, text })
}

fn messages_of(alloc: Global, given: &[GivenMessage]) -> Result<SharedSeq<Message>, Memory> {
    let mut made = Seq::new(alloc);
    for message in given {
        made.push(message_of(alloc, *message)?)?;
    }
    SharedSeq::of(made)
}

pub(super) fn present_of(alloc: Global, given: GivenPresent) -> Result<Renewed, Memory> {
    Ok(Renewed {
        status: given.status,
        messages: messages_of(alloc, given.messages)?,
        height: given.height,
        tight: given.tight,
    })
}

fn dep_of(alloc: Global, given: GivenDep) -> Result<FactDep, Memory> {
    let (role, source, value) = given;
    let node = node_of(alloc, source, None)?;
    let value = value_of(alloc, value)?;
    Ok(FactDep { node, role, value })
}

fn deps_of(alloc: Global, given: &[GivenDep]) -> Result<Seq<FactDep>, Memory> {
    let mut made = Seq::new(alloc);
    for dep in given {
        made.push(dep_of(alloc, *dep)?)?;
    }
    Ok(made)
}

fn fact_of(alloc: Global, given: &GivenNote) -> Result<Fact, Memory> {
    let node = node_of(alloc, given.source, Some(given.maker))?;
    let deps = deps_of(alloc, given.deps)?;
    let value = value_of(alloc, given.value)?;
    let own_messages = messages_of(alloc, given.own_messages)?;
    Ok(Fact {
        node,
        deps,
        value,
        own_status: given.own_status,
        own_messages,
    })
}

fn fresh_of(alloc: Global, given: &GivenNote) -> Result<Fresh, Memory> {
    let fact = fact_of(alloc, given)?;
    let present = present_of(alloc, given.present)?;
    Ok(Fresh { fact, present })
}

pub(super) fn all_fresh(alloc: Global, given: &[&GivenNote]) -> Result<Seq<Fresh>, Memory> {
    let mut made = Seq::new(alloc);
    for note in given {
        made.push(fresh_of(alloc, note)?)?;
    }
    Ok(made)
}

/// The item by which a file has a record, the epoch at which it was checked, and its tight dep.
pub(super) type Standing = (&'static [u8], Option<u64>, Option<u32>);

fn stands(alloc: Global, record: &NodeRecord, standing: Standing) -> Result<bool, Memory> {
    let (item, checked, tight) = standing;
    let [_, said @ ..] = item else {
        return Ok(false);
    };
    Ok(
        record_bytes(alloc, record)?.as_slice() == said
            && record.checked == checked
            && record.present.tight == tight,
    )
}

/// Whether the tables have just these records, in this order.
pub(super) fn stand(alloc: Global, kept: &Kept, standings: &[Standing]) -> Result<bool, Memory> {
    for (place, standing) in standings.iter().enumerate() {
        let Some(record) = kept.record_at(place as u64) else {
            return Ok(false);
        };
        if !stands(alloc, record, *standing)? {
            return Ok(false);
        }
    }
    Ok(kept.records() == standings.len() as u64)
}

/// The same records, as they are once a file is read: none was checked.
pub(super) fn as_read(alloc: Global, standings: &[Standing]) -> Result<Vec<Standing>, Memory> {
    let mut read = Vec::new(alloc);
    for (item, _, _) in standings {
        read.push((*item, None, None))?;
    }
    Ok(read)
}
