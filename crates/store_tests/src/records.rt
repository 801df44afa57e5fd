// Items as their bytes, by the table of docs/engineer/store-format.md: read and written back, cut short, and with bytes that aren't named.
use object_values::{
    Bytes, Memory, Node, OwnLine, ParamValue, Part, Seq, Status, Step, Text, Value,
};
use std::alloc::Global;
use std::test::Fail;
use store_records::{
    Item, Recorded, StoredCall, StoredOutcome, StoredOutput, StoredPart, StoredRecord, write_batch,
};

const GRAPH: &[u8] = b"\x01\0\0\0\x02g;";

const EMPTY: &[u8] = b"\x02\0\0\0\x05\x01\0\0\0\0";

// The node `m` with the parameter `d` of the value `1`, the maker 7 and the pick `k`.
const LIST: &[u8] =
    b"\x02\0\0\0\x27\x02\0\0\0\x01\0\0\0\x01m\0\0\0\x01\0\0\0\x01d\0\0\0\x011\0\0\0\x02\x01\0\0\0\x07\x02\0\0\0\x01k";

// The part `p` with the text `xy`.
const COMPOUND: &[u8] = b"\x02\0\0\0\x10\x03\0\0\0\x01\0\0\0\x01p\0\0\0\x02xy";

const PUT: &[u8] = b"\x03\0\0\0\x03a.c\0\x01\x02\x03";

const DROPPED: &[u8] = b"\x04\0\0\0\x03a.c";

// The tool `cc` of the version `1` with the word `x`, the parameter `d` without a value, `a.c` with the content 3 in slot 0, `x.h` absent in slot 1,
// and the output `o`. It has ended with a warning, a message `m` of the level Error, and the content 4.
const KEPT: &[u8] =
    b"\x05\0\0\0\x02cc\0\0\0\x011\0\0\0\x01\0\0\0\x01x\0\0\0\x01\0\0\0\x01d\0\0\0\0\0\0\0\x02\0\0\0\0\0\0\0\x03a.c\x01\0\0\0\x03\0\0\0\x01\0\0\0\x03x.h\0\0\0\0\x01\0\0\0\x01o\x01\0\0\0\x01\x02\0\0\0\x01m\0\0\0\x01\0\0\0\x01o\0\0\0\x04";

// `a.c` by the maker 7, over no need, at Abort and at height 2.
const NODE: &[u8] =
    b"\x06\0\0\0\x03a.c\0\0\0\0\0\0\0\x01\x01\0\0\0\x07\0\0\0\0\0\0\0\0\0\x03\0\0\0\0\x03\0\0\0\0\0\0\0\x02";

const ITEMS: [&[u8]; 8] = [GRAPH, EMPTY, LIST, COMPOUND, PUT, DROPPED, KEPT, NODE];

fn is_bytes(bytes: &Bytes, text: &[u8]) -> bool {
    bytes.as_slice() == text
}

fn is_node(node: &Node) -> bool {
    let params = match node.params.as_slice() {
        [ParamValue { param, value }] => is_bytes(param, b"d") && is_bytes(value, b"1"),
        _ => false,
    };
    let steps = match node.steps.as_slice() {
        [Step::Maker(maker), Step::Pick(key)] => {
            *maker == 7 && key.as_slice() == b"k".as_slice()
        }
        _ => false,
    };
    is_bytes(&node.source, b"m") && params && steps
}

fn is_value(row: usize, value: &Value) -> bool {
    match value {
        Value::Simple(text) => row == 1 && text.is_empty(),
        Value::List(nodes) => match nodes.as_slice() {
            [node] => row == 2 && is_node(node),
            _ => false,
        },
        Value::Compound(parts) => match parts.as_slice() {
            [Part { name, body }] => {
                row == 3 && is_bytes(name, b"p") && body.as_slice() == b"xy".as_slice()
            }
            _ => false,
        },
    }
}

fn are_parts(parts: &[StoredPart]) -> bool {
    match parts {
        [first, second] => {
            first.slot == 0
                && is_bytes(&first.label, b"a.c")
                && first.content == Some(3)
                && second.slot == 1
                && is_bytes(&second.label, b"x.h")
                && second.content.is_none()
        }
        _ => false,
    }
}

// Whether this word is the only one.
fn is_word(words: &Seq<Bytes>, word: &[u8]) -> bool {
    match words.as_slice() {
        [only] => only.as_slice() == word,
        _ => false,
    }
}

fn is_call(call: &StoredCall) -> bool {
    let params = match call.params.as_slice() {
        [ParamValue { param, value }] => is_bytes(param, b"d") && value.is_empty(),
        _ => false,
    };
    is_bytes(&call.tool, b"cc")
        && is_bytes(&call.version, b"1")
        && is_word(&call.words, b"x")
        && params
        && are_parts(call.parts.as_slice())
        && is_word(&call.outs, b"o")
}

fn is_outcome(outcome: &StoredOutcome) -> bool {
    let lines = match outcome.lines.as_slice() {
        [OwnLine { level, text }] => *level == Status::Error && text.as_slice() == b"m".as_slice(),
        _ => false,
    };
    let outputs = match outcome.outputs.as_slice() {
        [StoredOutput { name, content }] => is_bytes(name, b"o") && *content == 4,
        _ => false,
    };
    outcome.status == Status::Warning && lines && outputs
}

fn is_record(record: &StoredRecord) -> bool {
    let steps = match record.node.steps.as_slice() {
        [Step::Maker(maker)] => *maker == 7,
        _ => false,
    };
    is_bytes(&record.node.source, b"a.c") && steps && record.value.is_none() && record.height == 2
}

// Whether it is the item of a row.
fn is_item(row: usize, item: &Item) -> bool {
    match item {
        Item::Graph(text) => row == 0 && is_bytes(text, b"g;"),
        Item::Content(value) => is_value(row, value),
        Item::Put(name, number) => { row == 4 && is_bytes(name, b"a.c") && *number == 0x0001_0203 }
        Item::Dropped(name) => row == 5 && is_bytes(name, b"a.c"),
        Item::Kept(call, outcome) => row == 6 && is_call(call) && is_outcome(outcome),
        Item::Node(record) => row == 7 && is_record(record),
    }
}

fn text_of(alloc: Global, bytes: &[u8]) -> Result<Text, Memory> {
    Text::of(Bytes::from_slice(alloc, bytes)?)
}

// Whether the item of a row is read from its bytes, up to their end, and is written as these bytes.
fn is_read(alloc: Global, row: usize, bytes: &[u8]) -> Result<bool, Memory> {
    let Some((item, end)) = Item::take(alloc, &text_of(alloc, bytes)?, 0)? else {
        return Ok(false);
    };
    let is = is_item(row, &item);
    let items = [item];
    let written = write_batch(alloc, &items)?;
    Ok(is && end == bytes.len() && written.payload() == bytes)
}

fn reads_nothing(alloc: Global, bytes: &[u8]) -> Result<bool, Memory> {
    Ok(Item::take(alloc, &text_of(alloc, bytes)?, 0)?.is_none())
}

#[test]
fn items_are_read_and_written(rt: HostRuntime) {
    for (row, bytes) in ITEMS.iter().enumerate() {
        assert!(rt; is_read(rt.alloc(), row, bytes) == Ok(true), "{row}");
    }
}

#[test]
fn items_that_are_cut_read_as_nothing(rt: HostRuntime) {
    for bytes in &ITEMS {
        for end in 0..bytes.len() {
            assert!(rt;
                reads_nothing(rt.alloc(), &bytes[..end]) == Ok(true),
                "{end}"
            );
        }
    }
}

// An item, the place of a byte that tells a kind, a status or an option, and the least and the greatest that is named there.
type Byte = (&'static [u8], usize, u8, u8);

const BYTES: &[Byte] = &[
    (GRAPH, 0, 1, 6),
    (EMPTY, 5, 1, 3),
    // kinds of steps
    (LIST, 33, 1, 2),
    (LIST, 38, 1, 2),
    // contents of parts
    (KEPT, 49, 0, 1),
    (KEPT, 65, 0, 1),
    // the status, and the level of a message
    (KEPT, 75, 0, 3),
    (KEPT, 80, 0, 3),
];

// Whether nothing is read where the byte is another than those that are named.
fn others_read_as_nothing(alloc: Global, row: &Byte) -> Result<bool, Memory> {
    let (bytes, place, least, most) = *row;
    for byte in 0..=u8::MAX {
        let mut changed = bytes.to_vec(alloc)?;
        let Some(there) = changed.get_mut(place) else {
            return Ok(false);
        };
        let named = *there >= least && *there <= most;
        *there = byte;
        if !named || (byte < least || byte > most) && !reads_nothing(alloc, &changed)? {
            return Ok(false);
        }
    }
    Ok(true)
}

#[test]
fn bytes_that_are_not_named_read_as_nothing(rt: HostRuntime) {
    for (row, byte) in BYTES.iter().enumerate() {
        assert!(rt;
            others_read_as_nothing(rt.alloc(), byte) == Ok(true),
            "{row}"
        );
    }
}

// Counts and lengths that lead past the end, and contents whose record is shorter or longer than they are.
const ODD: &[&[u8]] = &[
    b"\x04\xff\xff\xff\xffa.c",
    b"\x02\0\0\0\x05\x02\xff\xff\xff\xff",
    b"\x02\0\0\0\x05\x03\x80\0\0\0",
    b"\x02\0\0\0\x06\x01\0\0\0\0\0",
    b"\x02\0\0\0\x04\x01\0\0\0\0",
    b"\x02\0\0\0\x05\x01\0\0\0\x01a",
    b"\x02\0\0\0\0",
];

#[test]
fn odd_lengths_and_counts_read_as_nothing(rt: HostRuntime) {
    for (row, bytes) in ODD.iter().enumerate() {
        assert!(rt; reads_nothing(rt.alloc(), bytes) == Ok(true), "{row}");
    }
}

// The first put of an empty text over a store that holds a graph alone.
const FIRST_PUT: &[u8] = b"\x02\0\0\0\x05\x01\0\0\0\0\x03\0\0\0\x03a.c\0\0\0\0";

fn first_put(alloc: Global) -> Result<Bytes, Memory> {
    let text = Text::of(Bytes::new(alloc))?;
    let name = Bytes::from_slice(alloc, b"a.c")?;
    let items = [Item::Content(Value::Simple(text)), Item::Put(name, 0)];
    let written = write_batch(alloc, &items)?;
    Bytes::from_slice(alloc, written.payload())
}

#[test]
fn a_batch_is_its_items(rt: HostRuntime) -> Result<(), Fail> {
    let payload = first_put(rt.alloc())?;
    assert!(rt; payload.as_slice() == FIRST_PUT);
    let payload = text_of(rt.alloc(), FIRST_PUT)?;
    let Some((content, end)) = Item::take(rt.alloc(), &payload, 0)? else {
        return Err("no content".into());
    };
    assert!(rt; is_item(1, &content));
    assert!(rt; Item::take(rt.alloc(), &payload, end)?.is_some());
    assert!(rt; Item::take(rt.alloc(), &payload, 22)?.is_none());
    assert!(rt; Item::take(rt.alloc(), &payload, usize::MAX)?.is_none());
    Ok(())
}
