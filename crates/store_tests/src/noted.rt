// Records of nodes in a store's file: which of them read, which count, and which fit the graph.
use crate::images::{FRONT, add_record};
use object_values::{Bytes, Copied, Memory};
use odin_bytes::{put_bytes, put_u8};
use odin_fakes::MemDisk;
use odin_store::StoreFault;
use std::alloc::Global;
use test_support::open_store;

const GRAPH: &[u8] =
    b"type c simple; type o simple; type l list of c; suffix .c c; tool cc 1 from c to o run \"cc\"; read rd from c to l;";

const OTHER: &[u8] = b"type c simple;";

// The text `x=1`, the text `o`, and a list with no element.
const CONTENTS: &[u8] =
    b"\x02\0\0\0\x08\x01\0\0\0\x03x=1\x02\0\0\0\x06\x01\0\0\0\x01o\x02\0\0\0\x05\x02\0\0\0\0";

// `a.c` by the first maker. It has seen the content 0 of `a.c`, and the reached source `x.h` absent. Its value is the content 1, and its height 1.
const NODE: &[u8] =
    b"\x06\0\0\0\x03a.c\0\0\0\0\0\0\0\x01\x01\0\0\0\0\0\0\0\x02\0\0\0\x03a.c\0\0\0\0\0\0\0\0\x01\0\0\0\0\0\0\0\x03x.h\0\0\0\0\0\0\0\0\0\0\0\0\x01\x01\0\0\0\x01\0\0\0\0\0\0\0\0\0\0\0\0\0\x01";

// The same at Abort, without a value.
const ABORTED: &[u8] =
    b"\x06\0\0\0\x03a.c\0\0\0\0\0\0\0\x01\x01\0\0\0\0\0\0\0\x02\0\0\0\x03a.c\0\0\0\0\0\0\0\0\x01\0\0\0\0\0\0\0\x03x.h\0\0\0\0\0\0\0\0\0\0\0\0\x01\0\x03\0\0\0\0\x03\0\0\0\0\0\0\0\x40";

// The same node, whose one dep is itself, with no value seen.
const OWN: &[u8] =
    b"\x06\0\0\0\x03a.c\0\0\0\0\0\0\0\x01\x01\0\0\0\0\0\0\0\x01\0\0\0\x03a.c\0\0\0\0\0\0\0\x01\x01\0\0\0\0\0\0\0\0\0\x01\0\0\0\x01\0\0\0\0\0\0\0\0\0\0\0\0\0\x01";

// A drop of a source that isn't there.
const BAD: &[u8] = b"\x04\0\0\0\x03a.c";

fn graph_payload(alloc: Global, text: &[u8]) -> Result<Bytes, Memory> {
    if text.len() > u32::MAX as usize {
        return Err(Memory);
    }
    let mut payload = Bytes::new(alloc);
    put_u8(&mut payload, 1)?;
    put_bytes(&mut payload, text)?;
    Ok(payload)
}

/// What a row has in its file, one record each.
#[derive(Clone, Copy)]
enum Record {
    Graph,
    Other,
    Contents,
    Node,
    Aborted,
    Bad,
    /// The record of the node with another byte at a place.
    With(usize, u8),
    /// The record of the node that depends on itself.
    Own,
    /// The same with another byte at a place.
    OwnWith(usize, u8),
    /// The graph, and what doesn't read after it.
    GraphAndBad,
}

// A payload with another byte at a place.
fn changed(alloc: Global, payload: &[u8], place: usize, byte: u8) -> Result<Bytes, Memory> {
    let mut changed = payload.to_vec(alloc)?;
    if let Some(there) = changed.get_mut(place) {
        *there = byte;
    }
    Bytes::from_slice(alloc, changed.as_slice())
}

fn payload_of(alloc: Global, record: Record) -> Result<Bytes, Memory> {
    match record {
        Record::Graph => graph_payload(alloc, GRAPH),
        Record::Other => graph_payload(alloc, OTHER),
        Record::Contents => Bytes::from_slice(alloc, CONTENTS),
        Record::Node => Bytes::from_slice(alloc, NODE),
        Record::Aborted => Bytes::from_slice(alloc, ABORTED),
        Record::Bad => Bytes::from_slice(alloc, BAD),
        Record::With(place, byte) => changed(alloc, NODE, place, byte),
        Record::Own => Bytes::from_slice(alloc, OWN),
        Record::OwnWith(place, byte) => changed(alloc, OWN, place, byte),
        Record::GraphAndBad => {
            let mut payload = graph_payload(alloc, GRAPH)?;
            payload.extend_from_slice(BAD)?;
            Ok(payload)
        }
    }
}

// A file with these records, and the gate of each.
fn file_of(alloc: Global, records: &[Record]) -> Result<(Bytes, Vec<u64>), Memory> {
    let mut image = Bytes::from_slice(alloc, FRONT)?;
    let mut gates = Vec::new(alloc);
    for record in records {
        gates.push(image.len() as u64)?;
        add_record(&mut image, payload_of(alloc, *record)?.as_slice())?;
    }
    image.push(0)?;
    Ok((image, gates))
}

/// What a file is: a store with so many records of nodes, or not ours at the gate of the record at a place.
#[derive(Clone, Copy, PartialEq, Eq)]
enum Is {
    Store(u64),
    NotOurs(usize),
}

// What a file is that is opened for the graph. It stays as it is where it is not ours.
fn opened(alloc: Global, records: &[Record]) -> Result<Option<Is>, StoreFault> {
    let (image, gates) = file_of(alloc, records)?;
    let mut disk = MemDisk::new(alloc, image.copy(alloc)?, 4_000, 400)?;
    match open_store(alloc, &mut disk, GRAPH) {
        Ok(store) => Ok(Some(Is::Store(store.kept().records()))),
        Err(StoreFault::NotOurs(at)) if disk.image() == image.as_slice() => {
            Ok(gates.iter().position(|gate| *gate == at).map(Is::NotOurs))
        }
        Err(_) => Ok(None),
    }
}

use Record::{Aborted, Bad, Contents, Graph, GraphAndBad, Node, Other, Own, OwnWith, With};

// A node record that reads and doesn't fit: its node is made from a text of another type.
const UNFIT: Record = With(7, b'h');

const FILES: &[(&[Record], Is)] = &[
    (&[Graph, Contents, Node], Is::Store(1)),
    (&[Graph, Contents, Aborted], Is::Store(1)),
    // a later record takes the place of its node's, and a graph forgets all
    (&[Graph, Contents, Node, Aborted], Is::Store(1)),
    (&[Graph, Contents, Node, Graph], Is::Store(0)),
    // the records of another graph don't count, and no graph before a record is refused
    (&[Other, Contents, Node], Is::Store(0)),
    (&[Contents, Node], Is::NotOurs(1)),
    (&[Graph, Node, Contents], Is::NotOurs(1)),
    // those that count have to fit, also where a later one takes their place
    (&[Graph, Contents, UNFIT], Is::NotOurs(2)),
    (&[Graph, Contents, Node, UNFIT, Contents], Is::NotOurs(3)),
    (&[Graph, Contents, UNFIT, UNFIT], Is::NotOurs(2)),
    (&[Graph, Contents, With(31, b' '), Node], Is::NotOurs(2)),
    // a dep is its record's own node, or one that has a record before, after or never
    (&[Graph, Contents, Own], Is::Store(1)),
    (&[Graph, Contents, Node, OwnWith(5, b'b')], Is::Store(2)),
    (&[Graph, Contents, OwnWith(5, b'b'), Node], Is::Store(2)),
    (&[Graph, Contents, OwnWith(29, b'b')], Is::Store(1)),
    // its node has to fit, and so has the record that comes after
    (&[Graph, Contents, OwnWith(31, b'h')], Is::NotOurs(2)),
    (&[Graph, Contents, Node, OwnWith(31, b'h')], Is::NotOurs(3)),
    (&[Graph, Contents, OwnWith(7, b'h')], Is::NotOurs(2)),
    (
        &[Graph, Contents, OwnWith(5, b'b'), With(69, 2)],
        Is::NotOurs(3),
    ),
    // the record of another graph that was forgotten says nothing of a dep
    (
        &[Other, Contents, UNFIT, Graph, OwnWith(31, b'h')],
        Is::NotOurs(4),
    ),
    // and others have not
    (&[Other, Contents, UNFIT], Is::Store(0)),
    (&[Graph, Contents, UNFIT, Graph, Node], Is::Store(1)),
    (&[Graph, Contents, UNFIT, Other], Is::Store(0)),
    // what doesn't read for another cause comes after what doesn't fit, by the graphs before it
    (&[Graph, Contents, UNFIT, Bad], Is::NotOurs(2)),
    (&[Other, Contents, UNFIT, Bad], Is::NotOurs(3)),
    (&[Graph, Contents, UNFIT, Other, Bad], Is::NotOurs(4)),
    (&[Graph, Contents, UNFIT, GraphAndBad], Is::NotOurs(2)),
    (&[Other, Contents, UNFIT, GraphAndBad], Is::NotOurs(3)),
];

#[test]
fn records_count_and_fit(rt: HostRuntime) {
    for (row, (records, is)) in FILES.iter().enumerate() {
        assert!(rt; opened(rt.alloc(), records) == Ok(Some(*is)), "{row}");
    }
}

// Another byte at a place of the record, and whether the file is a store then.
const BYTES: &[(usize, u8, bool)] = &[
    // what was seen of a dep: a content of any kind, and none that isn't there
    (44, 2, true),
    (44, 3, false),
    // the value: a content of the kind of the node's type
    (69, 0, true),
    (69, 2, false),
    (69, 3, false),
    // reached deps: at most all
    (64, 0, true),
    (64, 2, true),
    (64, 3, false),
    // the height
    (83, 0, false),
    (83, 64, true),
    (83, 65, false),
    // the status beside a value, and its own status, which is any
    (75, 1, true),
    (75, 3, false),
    (75, 4, false),
    (70, 3, true),
    (70, 4, false),
    // the second maker, whose objects are lists, and a third, which isn't there
    (20, 1, false),
    (20, 2, false),
    // the names of its node and of its deps
    (7, b'c', true),
    (31, b'h', true),
];

#[test]
fn each_field_of_a_record_is_tested(rt: HostRuntime) {
    for (place, byte, reads) in BYTES {
        let records = [Graph, Contents, With(*place, *byte)];
        let is = if *reads { Is::Store(1) } else { Is::NotOurs(2) };
        assert!(rt;
            opened(rt.alloc(), &records) == Ok(Some(is)),
            "{place} {byte}"
        );
    }
}
