// Files that aren't ours, by a record that doesn't read: each is refused at the gate of that record, and stays as it is.
use crate::images::{BEHIND_GRAPH, GRAPH_PAYLOAD, add_record, begun, image_of, is_refused, stands};
use object_values::{Bytes, Memory};
use odin_store::StoreFault;
use std::alloc::Global;
use std::test::Fail;

// The record after that of the graph: content 0 is the text `x`, content 1 a list, content 2 a compound; the source `a.c` is `x`, and the call of `cc` is kept.
const BASE: &[u8] =
    b"\x02\0\0\0\x06\x01\0\0\0\x01x\x02\0\0\0\x05\x02\0\0\0\0\x02\0\0\0\x05\x03\0\0\0\0\x03\0\0\0\x03a.c\0\0\0\0\x05\0\0\0\x02cc\0\0\0\x011\0\0\0\0\0\0\0\0\0\0\0\0\0\0\0\0\x03\0\0\0\0\0\0\0\0";

// The place after that record, whose payload has 80 bytes.
const BEHIND_BASE: u64 = BEHIND_GRAPH + 85;

const TEXT: &[u8] = b"\x02\0\0\0\x06\x01\0\0\0\x01y";

const LIST: &[u8] =
    b"\x02\0\0\0\x27\x02\0\0\0\x01\0\0\0\x01m\0\0\0\x01\0\0\0\x01d\0\0\0\x011\0\0\0\x02\x01\0\0\0\x07\x02\0\0\0\x01k";

const COMPOUND: &[u8] = b"\x02\0\0\0\x10\x03\0\0\0\x01\0\0\0\x01p\0\0\0\x02xy";

const PUT: &[u8] = b"\x03\0\0\0\x03b.c\0\0\0\0";

const DROPPED: &[u8] = b"\x04\0\0\0\x03a.c";

// The tool `ld` of the version `1` with the word `w`, the parameter `d` of the value `1`, `a` with the content 0 in slot 0, `b` absent in slot 1, and the output `o`. It
// has ended with a warning, a message `m` of the level Error, and the content 0.
const KEPT: &[u8] =
    b"\x05\0\0\0\x02ld\0\0\0\x011\0\0\0\x01\0\0\0\x01w\0\0\0\x01\0\0\0\x01d\0\0\0\x011\0\0\0\x02\0\0\0\0\0\0\0\x01a\x01\0\0\0\0\0\0\0\x01\0\0\0\x01b\0\0\0\0\x01\0\0\0\x01o\x01\0\0\0\x01\x02\0\0\0\x01m\0\0\0\x01\0\0\0\x01o\0\0\0\0";

// Payloads that read.
const ITEMS: [&[u8]; 7] = [GRAPH_PAYLOAD, TEXT, LIST, COMPOUND, PUT, DROPPED, KEPT];

// Whether the file with this payload after the base is a store.
fn reads(alloc: Global, payload: &[u8]) -> Result<bool, StoreFault> {
    let image = image_of(alloc, &[BASE, payload])?;
    let _ = stands(alloc, image.as_slice())?;
    Ok(true)
}

// Whether the file with this payload after the base isn't ours there, whether a record follows or not.
fn is_hostile(alloc: Global, payload: &[u8]) -> Result<bool, Memory> {
    let image = image_of(alloc, &[BASE, payload])?;
    let longer = image_of(alloc, &[BASE, payload, TEXT])?;
    Ok(
        is_refused(alloc, image.as_slice(), BEHIND_BASE)?
            && is_refused(alloc, longer.as_slice(), BEHIND_BASE)?,
    )
}

#[test]
fn payloads_are_read(rt: HostRuntime) {
    for (row, payload) in ITEMS.iter().enumerate() {
        assert!(rt; reads(rt.alloc(), payload) == Ok(true), "{row}");
    }
}

#[test]
fn payloads_that_are_cut_are_refused(rt: HostRuntime) {
    for payload in &ITEMS {
        for end in 0..payload.len() {
            assert!(rt;
                is_hostile(rt.alloc(), &payload[..end]) == Ok(true),
                "{end}"
            );
        }
    }
}

// A payload, the place of a byte that tells an item, a kind, an option, a status or a level, and the least and the greatest that is named there.
type Byte = (&'static [u8], usize, u8, u8);

const BYTES: &[Byte] = &[
    (GRAPH_PAYLOAD, 0, 1, 5),
    (TEXT, 5, 1, 3),
    // kinds of steps
    (LIST, 33, 1, 2),
    (LIST, 38, 1, 2),
    // contents of parts
    (KEPT, 48, 0, 1),
    (KEPT, 62, 0, 1),
    // the status, and the level of a message
    (KEPT, 72, 0, 3),
    (KEPT, 77, 0, 3),
];

// Whether the payload with this byte at the row's place is refused, where the byte isn't named there.
fn is_named_or_hostile(alloc: Global, row: &Byte, byte: u8) -> Result<bool, Memory> {
    let (payload, place, least, most) = *row;
    let mut changed = payload.to_vec(alloc)?;
    let Some(there) = changed.get_mut(place) else {
        return Ok(false);
    };
    if *there < least || *there > most {
        return Ok(false);
    }
    *there = byte;
    Ok(byte >= least && byte <= most || is_hostile(alloc, &changed)?)
}

#[test]
fn bytes_that_are_not_named_are_refused(rt: HostRuntime) {
    for (row, byte) in BYTES.iter().enumerate() {
        for value in 0..=u8::MAX {
            assert!(rt;
                is_named_or_hostile(rt.alloc(), byte, value) == Ok(true),
                "{row}"
            );
        }
    }
}

// Payloads that don't read after the base.
const HOSTILE: &[&[u8]] = &[
    b"",
    // items that have no name, and a record of a node that is cut
    b"\0",
    b"\x07",
    b"\x06",
    b"\x06\0\0\0\x01m\0\0\0\0\0\0\0\0",
    // bytes after the last item
    b"\x04\0\0\0\x03a.c\0",
    b"\x04\0\0\0\x03a.c\x02",
    // contents that are no value, or have bytes after it
    b"\x02\0\0\0\0",
    b"\x02\0\0\0\x01\x01",
    b"\x02\0\0\0\x07\x01\0\0\0\x01y\0",
    b"\x02\0\0\0\x05\x02\xff\xff\xff\xff",
    // a content ahead of the contents, its own too, and a list or a compound in the place of a text
    b"\x03\0\0\0\x03b.c\0\0\0\x03",
    b"\x03\0\0\0\x03b.c\xff\xff\xff\xff",
    b"\x03\0\0\0\x03b.c\0\0\0\x03\x02\0\0\0\x06\x01\0\0\0\x01y",
    b"\x03\0\0\0\x03b.c\0\0\0\x01",
    b"\x03\0\0\0\x03b.c\0\0\0\x02",
    // a put and a drop of what is no name, and drops of what isn't there
    b"\x03\0\0\0\0\0\0\0\0",
    b"\x03\0\0\0\x03b c\0\0\0\0",
    b"\x03\0\0\0\x01:\0\0\0\0",
    b"\x04\0\0\0\0",
    b"\x04\0\0\0\x03b.c",
    b"\x04\0\0\0\x03a.c\x04\0\0\0\x03a.c",
    // a call that is kept already, or twice here
    b"\x05\0\0\0\x02cc\0\0\0\x011\0\0\0\0\0\0\0\0\0\0\0\0\0\0\0\0\x03\0\0\0\0\0\0\0\0",
    b"\x05\0\0\0\x02cc\0\0\0\x011\0\0\0\0\0\0\0\0\0\0\0\0\0\0\0\0\0\0\0\0\0\0\0\0\0",
    b"\x05\0\0\0\x02ar\0\0\0\x011\0\0\0\0\0\0\0\0\0\0\0\0\0\0\0\0\0\0\0\0\0\0\0\0\0\x05\0\0\0\x02ar\0\0\0\x011\0\0\0\0\0\0\0\0\0\0\0\0\0\0\0\0\x03\0\0\0\0\0\0\0\0",
    // a tool that is no ID, a version that is no WORD, a parameter that is no ID, and a value that is none
    b"\x05\0\0\0\x02c.\0\0\0\x011\0\0\0\0\0\0\0\0\0\0\0\0\0\0\0\0\x03\0\0\0\0\0\0\0\0",
    b"\x05\0\0\0\x021c\0\0\0\x011\0\0\0\0\0\0\0\0\0\0\0\0\0\0\0\0\x03\0\0\0\0\0\0\0\0",
    b"\x05\0\0\0\x02ar\0\0\0\0\0\0\0\0\0\0\0\0\0\0\0\0\0\0\0\0\x03\0\0\0\0\0\0\0\0",
    b"\x05\0\0\0\x02ar\0\0\0\x01+\0\0\0\0\0\0\0\0\0\0\0\0\0\0\0\0\x03\0\0\0\0\0\0\0\0",
    b"\x05\0\0\0\x02ar\0\0\0\x011\0\0\0\0\0\0\0\x01\0\0\0\x01-\0\0\0\0\0\0\0\0\0\0\0\0\x03\0\0\0\0\0\0\0\0",
    b"\x05\0\0\0\x02ar\0\0\0\x011\0\0\0\0\0\0\0\x01\0\0\0\x01d\0\0\0\x01:\0\0\0\0\0\0\0\0\x03\0\0\0\0\0\0\0\0",
    // labels with a space and with an LF, a content ahead, and one that is a list
    b"\x05\0\0\0\x02ar\0\0\0\x011\0\0\0\0\0\0\0\0\0\0\0\x01\0\0\0\0\0\0\0\x01 \0\0\0\0\0\x03\0\0\0\0\0\0\0\0",
    b"\x05\0\0\0\x02ar\0\0\0\x011\0\0\0\0\0\0\0\0\0\0\0\x01\0\0\0\0\0\0\0\x01\n\0\0\0\0\0\x03\0\0\0\0\0\0\0\0",
    b"\x05\0\0\0\x02ar\0\0\0\x011\0\0\0\0\0\0\0\0\0\0\0\x01\0\0\0\0\0\0\0\x01a\x01\0\0\0\x03\0\0\0\0\x03\0\0\0\0\0\0\0\0",
    b"\x05\0\0\0\x02ar\0\0\0\x011\0\0\0\0\0\0\0\0\0\0\0\x01\0\0\0\0\0\0\0\x01a\x01\0\0\0\x01\0\0\0\0\x03\0\0\0\0\0\0\0\0",
    // an output name that is no ID
    b"\x05\0\0\0\x02ar\0\0\0\x011\0\0\0\0\0\0\0\0\0\0\0\0\0\0\0\x01\0\0\0\x01.\x03\0\0\0\0\0\0\0\0",
    // an output at abort, one that isn't asked for, none where one is, another one, one twice, a content ahead, and one that is a compound
    b"\x05\0\0\0\x02ar\0\0\0\x011\0\0\0\0\0\0\0\0\0\0\0\0\0\0\0\x01\0\0\0\x01o\x03\0\0\0\0\0\0\0\x01\0\0\0\x01o\0\0\0\0",
    b"\x05\0\0\0\x02ar\0\0\0\x011\0\0\0\0\0\0\0\0\0\0\0\0\0\0\0\0\0\0\0\0\0\0\0\0\x01\0\0\0\x01o\0\0\0\0",
    b"\x05\0\0\0\x02ar\0\0\0\x011\0\0\0\0\0\0\0\0\0\0\0\0\0\0\0\x01\0\0\0\x01o\0\0\0\0\0\0\0\0\0",
    b"\x05\0\0\0\x02ar\0\0\0\x011\0\0\0\0\0\0\0\0\0\0\0\0\0\0\0\x01\0\0\0\x01o\0\0\0\0\0\0\0\0\x01\0\0\0\x01p\0\0\0\0",
    b"\x05\0\0\0\x02ar\0\0\0\x011\0\0\0\0\0\0\0\0\0\0\0\0\0\0\0\x01\0\0\0\x01o\0\0\0\0\0\0\0\0\x02\0\0\0\x01o\0\0\0\0\0\0\0\x01o\0\0\0\0",
    b"\x05\0\0\0\x02ar\0\0\0\x011\0\0\0\0\0\0\0\0\0\0\0\0\0\0\0\x01\0\0\0\x01o\0\0\0\0\0\0\0\0\x01\0\0\0\x01o\0\0\0\x03",
    b"\x05\0\0\0\x02ar\0\0\0\x011\0\0\0\0\0\0\0\0\0\0\0\0\0\0\0\x01\0\0\0\x01o\0\0\0\0\0\0\0\0\x01\0\0\0\x01o\0\0\0\x02",
    // two outputs in another order
    b"\x05\0\0\0\x02ar\0\0\0\x011\0\0\0\0\0\0\0\0\0\0\0\0\0\0\0\x02\0\0\0\x01o\0\0\0\x01p\0\0\0\0\0\0\0\0\x02\0\0\0\x01p\0\0\0\0\0\0\0\x01o\0\0\0\0",
];

#[test]
fn records_that_do_not_read_are_refused(rt: HostRuntime) {
    for (row, payload) in HOSTILE.iter().enumerate() {
        assert!(rt; is_hostile(rt.alloc(), payload) == Ok(true), "{row}");
    }
}

// What reads beside them.
const NEIGHBOURS: &[&[u8]] = &[
    // two items, a content that is used at once, and a drop after a put
    b"\x04\0\0\0\x03a.c\x03\0\0\0\x03a.c\0\0\0\0",
    b"\x02\0\0\0\x06\x01\0\0\0\x01y\x03\0\0\0\x03b.c\0\0\0\x03",
    b"\x03\0\0\0\x03b.c\0\0\0\0\x04\0\0\0\x03b.c",
    // a content that is there already, and other graphs
    b"\x02\0\0\0\x06\x01\0\0\0\x01x",
    b"\x01\0\0\0\0",
    // the call of another version, with an empty value, an empty label, a label of other bytes, and no outputs
    b"\x05\0\0\0\x02cc\0\0\0\x012\0\0\0\0\0\0\0\0\0\0\0\0\0\0\0\0\x03\0\0\0\0\0\0\0\0",
    b"\x05\0\0\0\x02ar\0\0\0\x011\0\0\0\0\0\0\0\x01\0\0\0\x01d\0\0\0\0\0\0\0\0\0\0\0\0\0\0\0\0\0\0\0\0\0",
    b"\x05\0\0\0\x02ar\0\0\0\x011\0\0\0\0\0\0\0\0\0\0\0\x01\xff\xff\xff\xff\0\0\0\0\0\0\0\0\0\x03\0\0\0\0\0\0\0\0",
    b"\x05\0\0\0\x02ar\0\0\0\x011\0\0\0\0\0\0\0\0\0\0\0\x01\0\0\0\0\0\0\0\x02\0\xff\0\0\0\0\0\x03\0\0\0\0\0\0\0\0",
    // an abort whose call asks for outputs, and an output that is asked for twice
    b"\x05\0\0\0\x02ar\0\0\0\x011\0\0\0\0\0\0\0\0\0\0\0\0\0\0\0\x01\0\0\0\x01o\x03\0\0\0\0\0\0\0\0",
    b"\x05\0\0\0\x02ar\0\0\0\x011\0\0\0\0\0\0\0\0\0\0\0\0\0\0\0\x02\0\0\0\x01o\0\0\0\x01o\0\0\0\0\0\0\0\0\x02\0\0\0\x01o\0\0\0\0\0\0\0\x01o\0\0\0\0",
];

#[test]
fn their_neighbours_are_read(rt: HostRuntime) {
    for (row, payload) in NEIGHBOURS.iter().enumerate() {
        assert!(rt; reads(rt.alloc(), payload) == Ok(true), "{row}");
    }
}

// Whether the lengths of all records are looked at before their payloads: a payload that doesn't read, and after it a record that is cut.
fn looks_at_lengths_first(alloc: Global) -> Result<bool, Memory> {
    let mut image = begun(alloc)?;
    add_record(&mut image, b"\0")?;
    image.extend_from_slice(b"\x01\0\0\0\x02ab")?;
    // after the one byte of the payload and its five of length and gate
    is_refused(alloc, image.as_slice(), BEHIND_GRAPH + 6)
}

#[test]
fn lengths_come_before_payloads(rt: HostRuntime) -> Result<(), Fail> {
    assert!(rt; looks_at_lengths_first(rt.alloc()) == Ok(true));
    Ok(())
}

// A text of so many bytes as the first content.
fn long_text(alloc: Global, size: u32) -> Result<Bytes, Memory> {
    let mut payload = Bytes::from_slice(alloc, b"\x02")?;
    payload.extend_from_slice(&size.wrapping_add(5).to_be_bytes())?;
    payload.push(1)?;
    payload.extend_from_slice(&size.to_be_bytes())?;
    let text = vec![in alloc; 7u8; size as usize]?;
    payload.extend_from_slice(&text)?;
    image_of(alloc, &[payload.as_slice()])
}

// Whether a text of the greatest size is read, and one of a byte more isn't.
fn reads_up_to_the_limit(alloc: Global) -> Result<bool, StoreFault> {
    let longest = long_text(alloc, 16_777_216)?;
    let _ = stands(alloc, longest.as_slice())?;
    let longer = long_text(alloc, 16_777_217)?;
    Ok(is_refused(alloc, longer.as_slice(), BEHIND_GRAPH)?)
}

#[test]
fn a_text_is_as_long_as_the_limit(rt: HostRuntime) -> Result<(), Fail> {
    assert!(rt; reads_up_to_the_limit(rt.alloc()) == Ok(true));
    Ok(())
}
