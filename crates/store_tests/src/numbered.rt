// What is to be noted of nodes, by the numbers of its values: the batch of it, and what stands in memory once that is taken in.
use crate::given::text_of;
use crate::given_notes::{
    GivenNote, GivenPresent, GivenValue, Standing, all_fresh, as_read, stand,
};
use kept_tables::Kept;
use object_values::{Bytes, Memory, Role, Status};
use std::alloc::Global;
use test_support::are_notable;

// The epoch at which it is noted.
const EPOCH: u64 = 7;

// Contents that the tables have: 0 is the text `x=1`, 1 the list of `a.h`, 2 the compound of `p`, and 3 the text once more.
const TEXT: &[u8] = b"\x02\0\0\0\x08\x01\0\0\0\x03x=1";

const LIST: &[u8] = b"\x02\0\0\0\x14\x02\0\0\0\x01\0\0\0\x03a.h\0\0\0\0\0\0\0\0";

const COMPOUND: &[u8] = b"\x02\0\0\0\x10\x03\0\0\0\x01\0\0\0\x01p\0\0\0\x02xy";

const KNOWN: &[&[u8]] = &[TEXT, LIST, COMPOUND, TEXT];

// Contents that they haven't: the text `o`, the list of `a.c` and `a.h`, the compound of `q`, and the text without bytes.
const NEW_TEXT: &[u8] = b"\x02\0\0\0\x06\x01\0\0\0\x01o";

const NEW_LIST: &[u8] =
    b"\x02\0\0\0#\x02\0\0\0\x02\0\0\0\x03a.c\0\0\0\0\0\0\0\0\0\0\0\x03a.h\0\0\0\0\0\0\0\0";

const NEW_COMPOUND: &[u8] =
    b"\x02\0\0\0\x18\x03\0\0\0\x02\0\0\0\x01q\0\0\0\x01z\0\0\0\x01r\0\0\0\0";

const EMPTY: &[u8] = b"\x02\0\0\0\x05\x01\0\0\0\0";

const OK: GivenPresent = GivenPresent {
    status: Status::Ok,
    messages: &[],
    height: 1,
    tight: None,
};

// A node that aborts: it has no value, and stands as high as any may.
const ABORTED: GivenNote = GivenNote {
    source: b"a.c",
    maker: 0,
    deps: &[],
    value: GivenValue::Nothing,
    own_status: Status::Abort,
    own_messages: &[(b"a.c:o", Status::Abort, b"no c")],
    present: GivenPresent {
        status: Status::Abort,
        messages: &[(b"a.c:o", Status::Abort, b"no c")],
        height: 64,
        tight: None,
    },
};

const ABORTED_ITEM: &[u8] =
    b"\x06\0\0\0\x03a.c\0\0\0\0\0\0\0\x01\x01\0\0\0\0\0\0\0\0\0\0\0\0\0\x03\0\0\0\x01\0\0\0\x05a.c:o\x03\0\0\0\x04no c\x03\0\0\0\x01\0\0\0\x05a.c:o\x03\0\0\0\x04no c\0\0\0@";

// All that it names is known, of each kind, and one source is absent.
const OF_KNOWN: GivenNote = GivenNote {
    source: b"a.c",
    maker: 0,
    deps: &[
        (Role::Needed, b"m", GivenValue::List(&[b"a.h"])),
        (Role::Needed, b"k", GivenValue::Compound(&[(b"p", b"xy")])),
        (Role::Reached, b"x.h", GivenValue::Nothing),
    ],
    value: GivenValue::Text(b"x=1"),
    own_status: Status::Ok,
    own_messages: &[],
    present: OK,
};

const OF_KNOWN_ITEM: &[u8] =
    b"\x06\0\0\0\x03a.c\0\0\0\0\0\0\0\x01\x01\0\0\0\0\0\0\0\x03\0\0\0\x01m\0\0\0\0\0\0\0\0\x01\0\0\0\x01\0\0\0\x01k\0\0\0\0\0\0\0\0\x01\0\0\0\x02\0\0\0\x03x.h\0\0\0\0\0\0\0\0\0\0\0\0\x01\x01\0\0\0\0\0\0\0\0\0\0\0\0\0\0\0\0\0\x01";

// Its value is new, and so is what was seen of two deps, of which one is reached; what was seen of two others is known.
const OF_NEW: GivenNote = GivenNote {
    source: b"b.c",
    maker: 1,
    deps: &[
        (
            Role::Needed,
            b"k",
            GivenValue::Compound(&[(b"q", b"z"), (b"r", b"")]),
        ),
        (Role::Needed, b"a.c", GivenValue::Text(b"x=1")),
        (Role::Reached, b"m", GivenValue::List(&[b"a.h"])),
        (Role::Reached, b"a.h", GivenValue::Text(b"")),
    ],
    value: GivenValue::List(&[b"a.c", b"a.h"]),
    own_status: Status::Warning,
    own_messages: &[(b"b.c:l", Status::Warning, b"old c")],
    present: GivenPresent {
        status: Status::Error,
        messages: &[
            (b"a.c:o", Status::Error, b"need"),
            (b"b.c:l", Status::Warning, b"old c"),
        ],
        height: 2,
        tight: Some(1),
    },
};

// The list is written first, then what was seen of the deps, in order: these are the contents 4, 5 and 6.
const OF_NEW_ITEM: &[u8] =
    b"\x06\0\0\0\x03b.c\0\0\0\0\0\0\0\x01\x01\0\0\0\x01\0\0\0\x04\0\0\0\x01k\0\0\0\0\0\0\0\0\x01\0\0\0\x05\0\0\0\x03a.c\0\0\0\0\0\0\0\0\x01\0\0\0\0\0\0\0\x01m\0\0\0\0\0\0\0\0\x01\0\0\0\x01\0\0\0\x03a.h\0\0\0\0\0\0\0\0\x01\0\0\0\x06\0\0\0\x02\x01\0\0\0\x04\x01\0\0\0\x01\0\0\0\x05b.c:l\x01\0\0\0\x05old c\x02\0\0\0\x02\0\0\0\x05a.c:o\x02\0\0\0\x04need\0\0\0\x05b.c:l\x01\0\0\0\x05old c\0\0\0\x02";

// One new text is its value and what was seen of both deps.
const THRICE: GivenNote = GivenNote {
    source: b"a.c",
    maker: 0,
    deps: &[
        (Role::Needed, b"a.c", GivenValue::Text(b"o")),
        (Role::Reached, b"a.h", GivenValue::Text(b"o")),
    ],
    value: GivenValue::Text(b"o"),
    own_status: Status::Ok,
    own_messages: &[],
    present: OK,
};

const THRICE_ITEM: &[u8] =
    b"\x06\0\0\0\x03a.c\0\0\0\0\0\0\0\x01\x01\0\0\0\0\0\0\0\x02\0\0\0\x03a.c\0\0\0\0\0\0\0\0\x01\0\0\0\x04\0\0\0\x03a.h\0\0\0\0\0\0\0\0\x01\0\0\0\x04\0\0\0\x01\x01\0\0\0\x04\0\0\0\0\0\0\0\0\0\0\0\0\0\x01";

const THRICE_ALONE: &[u8] =
    b"\x06\0\0\0\x03a.c\0\0\0\0\0\0\0\x01\x01\0\0\0\0\0\0\0\x02\0\0\0\x03a.c\0\0\0\0\0\0\0\0\x01\0\0\0\0\0\0\0\x03a.h\0\0\0\0\0\0\0\0\x01\0\0\0\0\0\0\0\x01\x01\0\0\0\0\0\0\0\0\0\0\0\0\0\0\0\0\0\x01";

// Beside the node before it: its value is that text too, and what was seen of its dep is another new one.
const BESIDE: GivenNote = GivenNote {
    source: b"b.c",
    maker: 0,
    deps: &[(Role::Needed, b"b.c", GivenValue::Text(b""))],
    value: GivenValue::Text(b"o"),
    own_status: Status::Ok,
    own_messages: &[],
    present: OK,
};

const BESIDE_ITEM: &[u8] =
    b"\x06\0\0\0\x03b.c\0\0\0\0\0\0\0\x01\x01\0\0\0\0\0\0\0\x01\0\0\0\x03b.c\0\0\0\0\0\0\0\0\x01\0\0\0\x05\0\0\0\0\x01\0\0\0\x04\0\0\0\0\0\0\0\0\0\0\0\0\0\x01";

// Another node over what is known.
const BESIDE_KNOWN: GivenNote = GivenNote {
    source: b"b.c",
    maker: 0,
    deps: &[(Role::Needed, b"b.c", GivenValue::Text(b"x=1"))],
    value: GivenValue::Compound(&[(b"p", b"xy")]),
    own_status: Status::Ok,
    own_messages: &[],
    present: OK,
};

const BESIDE_KNOWN_ITEM: &[u8] =
    b"\x06\0\0\0\x03b.c\0\0\0\0\0\0\0\x01\x01\0\0\0\0\0\0\0\x01\0\0\0\x03b.c\0\0\0\0\0\0\0\0\x01\0\0\0\0\0\0\0\0\x01\0\0\0\x02\0\0\0\0\0\0\0\0\0\0\0\0\0\x01";

// Items that the tables have, what is noted then, the batch, how the records stand after it, and how many contents there are.
struct Row {
    before: &'static [&'static [u8]],
    notes: &'static [&'static GivenNote],
    batch: &'static [&'static [u8]],
    after: &'static [Standing],
    contents: u64,
}

const NOW: Option<u64> = Some(EPOCH);

// The record of the node that aborts was read from a file; then others stand in its place, or after it.
const READ: &[&[u8]] = &[TEXT, LIST, COMPOUND, TEXT, ABORTED_ITEM];

const ROWS: &[Row] = &[
    Row {
        before: &[],
        notes: &[],
        batch: &[],
        after: &[],
        contents: 0,
    },
    // no value and no dep
    Row {
        before: &[],
        notes: &[&ABORTED],
        batch: &[ABORTED_ITEM],
        after: &[(ABORTED_ITEM, NOW, None)],
        contents: 0,
    },
    // of contents that stand twice the first one is named
    Row {
        before: KNOWN,
        notes: &[&OF_KNOWN],
        batch: &[OF_KNOWN_ITEM],
        after: &[(OF_KNOWN_ITEM, NOW, None)],
        contents: 4,
    },
    // each new value once, of each kind
    Row {
        before: KNOWN,
        notes: &[&OF_NEW],
        batch: &[NEW_LIST, NEW_COMPOUND, EMPTY, OF_NEW_ITEM],
        after: &[(OF_NEW_ITEM, NOW, Some(1))],
        contents: 7,
    },
    Row {
        before: KNOWN,
        notes: &[&THRICE],
        batch: &[NEW_TEXT, THRICE_ITEM],
        after: &[(THRICE_ITEM, NOW, None)],
        contents: 5,
    },
    Row {
        before: &[],
        notes: &[&THRICE],
        batch: &[NEW_TEXT, THRICE_ALONE],
        after: &[(THRICE_ALONE, NOW, None)],
        contents: 1,
    },
    // two records need one new text: the contents of both come before both
    Row {
        before: KNOWN,
        notes: &[&THRICE, &BESIDE],
        batch: &[NEW_TEXT, EMPTY, THRICE_ITEM, BESIDE_ITEM],
        after: &[(THRICE_ITEM, NOW, None), (BESIDE_ITEM, NOW, None)],
        contents: 6,
    },
    // of two records of one node both are in the batch, and the last one counts
    Row {
        before: KNOWN,
        notes: &[&OF_KNOWN, &BESIDE_KNOWN, &ABORTED],
        batch: &[OF_KNOWN_ITEM, BESIDE_KNOWN_ITEM, ABORTED_ITEM],
        after: &[(ABORTED_ITEM, NOW, None), (BESIDE_KNOWN_ITEM, NOW, None)],
        contents: 4,
    },
    // a record takes the place of its node's, and no other one counts as checked
    Row {
        before: READ,
        notes: &[&BESIDE_KNOWN, &OF_KNOWN],
        batch: &[BESIDE_KNOWN_ITEM, OF_KNOWN_ITEM],
        after: &[(OF_KNOWN_ITEM, NOW, None), (BESIDE_KNOWN_ITEM, NOW, None)],
        contents: 4,
    },
    Row {
        before: READ,
        notes: &[&BESIDE_KNOWN],
        batch: &[BESIDE_KNOWN_ITEM],
        after: &[(ABORTED_ITEM, None, None), (BESIDE_KNOWN_ITEM, NOW, None)],
        contents: 4,
    },
];

// Reads an item, and says whether it is read to its end.
fn load(alloc: Global, kept: &mut Kept, item: &[u8]) -> Result<bool, Memory> {
    let payload = text_of(alloc, item)?;
    Ok(match kept.load_item(alloc, &payload, 0)? {
        Some((_, end)) => end == payload.len(),
        None => false,
    })
}

// Reads items, one after another, and says whether each is read.
fn load_all(alloc: Global, kept: &mut Kept, items: &[&[u8]]) -> Result<bool, Memory> {
    for item in items {
        if !load(alloc, kept, item)? {
            return Ok(false);
        }
    }
    Ok(true)
}

fn batch_of(alloc: Global, items: &[&[u8]]) -> Result<Bytes, Memory> {
    let mut batch = Bytes::new(alloc);
    for item in items {
        batch.extend_from_slice(item)?;
    }
    Ok(batch)
}

// Notes what is to be noted, and says whether the batch has these bytes, and nothing was noted before it was taken in.
fn notes_by(alloc: Global, kept: &mut Kept, row: &Row) -> Result<bool, Memory> {
    let fresh = all_fresh(alloc, row.notes)?;
    if !are_notable(fresh.as_slice()) {
        return Ok(false);
    }
    let before = (kept.contents(), kept.records());
    let prepared = kept.prepare_nodes(alloc, fresh.as_slice(), EPOCH)?;
    let batch = batch_of(alloc, row.batch)?;
    let is_batch = prepared.payload() == batch.as_slice();
    let stays = before == (kept.contents(), kept.records());
    kept.commit(prepared);
    Ok(is_batch && stays)
}

// Whether a row's notes stand in the tables that they were noted in, and in others that read the batch.
fn holds(alloc: Global, row: &Row) -> Result<bool, Memory> {
    let mut kept = Kept::new(alloc);
    let mut other = Kept::new(alloc);
    let noted = load_all(alloc, &mut kept, row.before)? && notes_by(alloc, &mut kept, row)?;
    let read = load_all(alloc, &mut other, row.before)? && load_all(alloc, &mut other, row.batch)?;
    let as_read = as_read(alloc, row.after)?;
    Ok(
        noted
            && read
            && stand(alloc, &kept, row.after)?
            && stand(alloc, &other, &as_read)?
            && kept.contents() == row.contents
            && other.contents() == row.contents,
    )
}

#[test]
fn what_is_noted_is_numbered_and_stands(rt: HostRuntime) {
    for (number, row) in ROWS.iter().enumerate() {
        assert!(rt; holds(rt.alloc(), row) == Ok(true), "{number}");
    }
}
