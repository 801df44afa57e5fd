// Records of nodes that a store notes and renews between edits: its file, what stands in memory, and what stands there once the file is read.
ghost use Rattle.std.specs.Prelude.{◌≡◌, OnOk};
ghost use Rattle.meaning_graph.specs.Grammar.{GraphText};
ghost use Rattle.odin_journal.specs.Rest.{IsReady};
ghost use Rattle.odin_store.specs.OnDisk.{StoreAfter};
ghost use Rattle.odin_store.specs.Opening.{MayOpenStore};

use crate::given::text_of;
use crate::given_notes::{
    GRAPH, GRAPH_PAYLOAD, GivenNote, GivenPresent, GivenValue, Standing, all_fresh, node_of,
    present_of, stand, wide_disk,
};
use crate::images::{GRAPH as OTHER_GRAPH, file_of};
use dg_reader::read_graph;
use object_values::{Bytes, Memory, Role, Status};
use odin_outside::Disk;
use odin_store::{Store, StoreFault};
use std::alloc::Global;
use std::test::Fail;
use test_support::{held, note, open_store, put_named, renew};
use type_graph::Graph;

/// How a store is changed.
#[derive(Clone, Copy)]
enum Kind {
    Put,
    Note,
    Renew,
}

/// A change of a store: a source gets a text, nodes are noted, or a source by a maker comes to this at present. What its kind doesn't name isn't read.
struct Step {
    kind: Kind,
    source: &'static [u8],
    maker: u32,
    text: &'static [u8],
    notes: &'static [&'static GivenNote],
    present: GivenPresent,
}

const FIRST: GivenNote = GivenNote {
    source: b"a.c",
    maker: 0,
    deps: &[
        (Role::Needed, b"a.c", GivenValue::Text(b"x=1")),
        (Role::Reached, b"x.h", GivenValue::Nothing),
    ],
    value: GivenValue::Text(b"o"),
    own_status: Status::Ok,
    own_messages: &[],
    present: GivenPresent {
        status: Status::Ok,
        messages: &[],
        height: 1,
        tight: None,
    },
};

// The same node over another text, with the same value and a warning.
const AGAIN: GivenNote = GivenNote {
    source: b"a.c",
    maker: 0,
    deps: &[(Role::Needed, b"a.c", GivenValue::Text(b"x=2"))],
    value: GivenValue::Text(b"o"),
    own_status: Status::Warning,
    own_messages: &[(b"a.c:o", Status::Warning, b"old c")],
    present: GivenPresent {
        status: Status::Warning,
        messages: &[(b"a.c:o", Status::Warning, b"old c")],
        height: 1,
        tight: None,
    },
};

const SECOND: GivenNote = GivenNote {
    source: b"b.c",
    maker: 1,
    deps: &[
        (Role::Needed, b"b.c", GivenValue::Nothing),
        (Role::Needed, b"a.c", GivenValue::Text(b"x=2")),
    ],
    value: GivenValue::List(&[b"a.c"]),
    own_status: Status::Ok,
    own_messages: &[],
    present: GivenPresent {
        status: Status::Error,
        messages: &[(b"a.c:o", Status::Error, b"bad")],
        height: 2,
        tight: Some(1),
    },
};

const THIRD: GivenNote = GivenNote {
    source: b"a.c",
    maker: 2,
    deps: &[],
    value: GivenValue::Nothing,
    own_status: Status::Abort,
    own_messages: &[],
    present: GivenPresent {
        status: Status::Abort,
        messages: &[],
        height: 64,
        tight: None,
    },
};

// What the second and the first node come to later.
const LATER: GivenPresent = GivenPresent {
    status: Status::Ok,
    messages: &[],
    height: 3,
    tight: Some(0),
};

const LAST: GivenPresent = GivenPresent {
    status: Status::Error,
    messages: &[],
    height: 4,
    tight: None,
};

// Their records as items: the first node as it is noted, noted again, and renewed; the second as it is noted and renewed; and the third.
const FIRST_ITEM: &[u8] =
    b"\x06\0\0\0\x03a.c\0\0\0\0\0\0\0\x01\x01\0\0\0\0\0\0\0\x02\0\0\0\x03a.c\0\0\0\0\0\0\0\0\x01\0\0\0\0\0\0\0\x03x.h\0\0\0\0\0\0\0\0\0\0\0\0\x01\x01\0\0\0\x01\0\0\0\0\0\0\0\0\0\0\0\0\0\x01";

const AGAIN_ITEM: &[u8] =
    b"\x06\0\0\0\x03a.c\0\0\0\0\0\0\0\x01\x01\0\0\0\0\0\0\0\x01\0\0\0\x03a.c\0\0\0\0\0\0\0\0\x01\0\0\0\x02\0\0\0\0\x01\0\0\0\x01\x01\0\0\0\x01\0\0\0\x05a.c:o\x01\0\0\0\x05old c\x01\0\0\0\x01\0\0\0\x05a.c:o\x01\0\0\0\x05old c\0\0\0\x01";

const LAST_ITEM: &[u8] =
    b"\x06\0\0\0\x03a.c\0\0\0\0\0\0\0\x01\x01\0\0\0\0\0\0\0\x01\0\0\0\x03a.c\0\0\0\0\0\0\0\0\x01\0\0\0\x02\0\0\0\0\x01\0\0\0\x01\x01\0\0\0\x01\0\0\0\x05a.c:o\x01\0\0\0\x05old c\x02\0\0\0\0\0\0\0\x04";

const SECOND_ITEM: &[u8] =
    b"\x06\0\0\0\x03b.c\0\0\0\0\0\0\0\x01\x01\0\0\0\x01\0\0\0\x02\0\0\0\x03b.c\0\0\0\0\0\0\0\0\0\0\0\0\x03a.c\0\0\0\0\0\0\0\0\x01\0\0\0\x02\0\0\0\0\x01\0\0\0\x03\0\0\0\0\0\x02\0\0\0\x01\0\0\0\x05a.c:o\x02\0\0\0\x03bad\0\0\0\x02";

const LATER_ITEM: &[u8] =
    b"\x06\0\0\0\x03b.c\0\0\0\0\0\0\0\x01\x01\0\0\0\x01\0\0\0\x02\0\0\0\x03b.c\0\0\0\0\0\0\0\0\0\0\0\0\x03a.c\0\0\0\0\0\0\0\0\x01\0\0\0\x02\0\0\0\0\x01\0\0\0\x03\0\0\0\0\0\0\0\0\0\0\0\0\0\x03";

const THIRD_ITEM: &[u8] =
    b"\x06\0\0\0\x03a.c\0\0\0\0\0\0\0\x01\x01\0\0\0\x02\0\0\0\0\0\0\0\0\0\x03\0\0\0\0\x03\0\0\0\0\0\0\0@";

/// A change, whether it changes anything, the payload of the record that it adds, which is empty where it adds none, and how the records stand then.
struct Row {
    step: Step,
    changes: bool,
    payload: &'static [u8],
    after: &'static [Standing],
}

// How many changes there are.
const STEPS: usize = 11;

const ROWS: [Row; STEPS] = [
    Row {
        step: Step {
            kind: Kind::Put,
            source: b"a.c",
            maker: 0,
            text: b"x=1",
            notes: &[],
            present: LAST,
        },
        changes: true,
        payload: b"\x02\0\0\0\x08\x01\0\0\0\x03x=1\x03\0\0\0\x03a.c\0\0\0\0",
        after: &[],
    },
    // what is not noted isn't renewed
    Row {
        step: Step {
            kind: Kind::Renew,
            source: b"a.c",
            maker: 0,
            text: b"",
            notes: &[],
            present: LAST,
        },
        changes: false,
        payload: b"",
        after: &[],
    },
    // what is noted counts as checked at the epoch
    Row {
        step: Step {
            kind: Kind::Note,
            source: b"",
            maker: 0,
            text: b"",
            notes: &[&FIRST],
            present: LAST,
        },
        changes: true,
        payload: b"\x02\0\0\0\x06\x01\0\0\0\x01o\x06\0\0\0\x03a.c\0\0\0\0\0\0\0\x01\x01\0\0\0\0\0\0\0\x02\0\0\0\x03a.c\0\0\0\0\0\0\0\0\x01\0\0\0\0\0\0\0\x03x.h\0\0\0\0\0\0\0\0\0\0\0\0\x01\x01\0\0\0\x01\0\0\0\0\0\0\0\0\0\0\0\0\0\x01",
        after: &[(FIRST_ITEM, Some(1), None)],
    },
    // an edit leaves the records and raises the epoch
    Row {
        step: Step {
            kind: Kind::Put,
            source: b"a.c",
            maker: 0,
            text: b"x=2",
            notes: &[],
            present: LAST,
        },
        changes: true,
        payload: b"\x02\0\0\0\x08\x01\0\0\0\x03x=2\x03\0\0\0\x03a.c\0\0\0\x02",
        after: &[(FIRST_ITEM, Some(1), None)],
    },
    // a later record stands in the place of the first
    Row {
        step: Step {
            kind: Kind::Note,
            source: b"",
            maker: 0,
            text: b"",
            notes: &[&SECOND, &AGAIN],
            present: LAST,
        },
        changes: true,
        payload: b"\x02\0\0\0\x14\x02\0\0\0\x01\0\0\0\x03a.c\0\0\0\0\0\0\0\0\x06\0\0\0\x03b.c\0\0\0\0\0\0\0\x01\x01\0\0\0\x01\0\0\0\x02\0\0\0\x03b.c\0\0\0\0\0\0\0\0\0\0\0\0\x03a.c\0\0\0\0\0\0\0\0\x01\0\0\0\x02\0\0\0\0\x01\0\0\0\x03\0\0\0\0\0\x02\0\0\0\x01\0\0\0\x05a.c:o\x02\0\0\0\x03bad\0\0\0\x02\x06\0\0\0\x03a.c\0\0\0\0\0\0\0\x01\x01\0\0\0\0\0\0\0\x01\0\0\0\x03a.c\0\0\0\0\0\0\0\0\x01\0\0\0\x02\0\0\0\0\x01\0\0\0\x01\x01\0\0\0\x01\0\0\0\x05a.c:o\x01\0\0\0\x05old c\x01\0\0\0\x01\0\0\0\x05a.c:o\x01\0\0\0\x05old c\0\0\0\x01",
        after: &[(AGAIN_ITEM, Some(2), None), (SECOND_ITEM, Some(2), Some(1))],
    },
    Row {
        step: Step {
            kind: Kind::Put,
            source: b"a.c",
            maker: 0,
            text: b"x=2",
            notes: &[],
            present: LAST,
        },
        changes: false,
        payload: b"",
        after: &[(AGAIN_ITEM, Some(2), None), (SECOND_ITEM, Some(2), Some(1))],
    },
    // no file has what is renewed
    Row {
        step: Step {
            kind: Kind::Renew,
            source: b"b.c",
            maker: 1,
            text: b"",
            notes: &[],
            present: LATER,
        },
        changes: true,
        payload: b"",
        after: &[(AGAIN_ITEM, Some(2), None), (LATER_ITEM, Some(2), Some(0))],
    },
    Row {
        step: Step {
            kind: Kind::Put,
            source: b"b.c",
            maker: 0,
            text: b"x=1",
            notes: &[],
            present: LAST,
        },
        changes: true,
        payload: b"\x03\0\0\0\x03b.c\0\0\0\0",
        after: &[(AGAIN_ITEM, Some(2), None), (LATER_ITEM, Some(2), Some(0))],
    },
    Row {
        step: Step {
            kind: Kind::Renew,
            source: b"a.c",
            maker: 0,
            text: b"",
            notes: &[],
            present: LAST,
        },
        changes: true,
        payload: b"",
        after: &[(LAST_ITEM, Some(3), None), (LATER_ITEM, Some(2), Some(0))],
    },
    Row {
        step: Step {
            kind: Kind::Note,
            source: b"",
            maker: 0,
            text: b"",
            notes: &[],
            present: LAST,
        },
        changes: false,
        payload: b"",
        after: &[(LAST_ITEM, Some(3), None), (LATER_ITEM, Some(2), Some(0))],
    },
    Row {
        step: Step {
            kind: Kind::Note,
            source: b"",
            maker: 0,
            text: b"",
            notes: &[&THIRD],
            present: LAST,
        },
        changes: true,
        payload: b"\x06\0\0\0\x03a.c\0\0\0\0\0\0\0\x01\x01\0\0\0\x02\0\0\0\0\0\0\0\0\0\x03\0\0\0\0\x03\0\0\0\0\0\0\0@",
        after: &[
            (LAST_ITEM, Some(3), None),
            (LATER_ITEM, Some(2), Some(0)),
            (THIRD_ITEM, Some(3), None),
        ],
    },
];

// Makes a change, and says whether it changed anything.
fn change<D: Disk>(
    alloc: Global,
    store: &mut Store,
    disk: &mut D,
    graph: &Graph,
    text: &[u8],
    step: &Step,
) -> Result<bool, StoreFault>
    requires ready { IsReady store.old.journal (D.size_of disk.old) }
    requires spelled { GraphText text.now graph.now }
    requires same { store.old.graph ≡ text.now }
    ensures left { StoreAfter store.new (D.size_of disk.new) result }
    ensures graph { OnOk result (store.new.graph ≡ store.old.graph) }
{
    match step.kind {
        Kind::Put => {
            let put = text_of(alloc, step.text)?;
            put_named(alloc, store, disk, step.source, &put)
        }
        Kind::Note => {
            let fresh = all_fresh(alloc, step.notes)?;
            note(alloc, store, disk, graph, text, fresh.as_slice())
        }
        Kind::Renew => {
            let node = node_of(alloc, step.source, Some(step.maker))?;
            let present = present_of(alloc, step.present)?;
            Ok(renew(store, &node, present))
        }
    }
}

// Opens a store and makes the first so many changes, if each answers as the table says.
fn played<D: Disk>(
    alloc: Global,
    disk: &mut D,
    graph: &Graph,
    text: &[u8],
    count: usize,
) -> Result<Option<Store>, StoreFault>
    requires { MayOpenStore graph.now text.now }
{
    let mut store = Store::open(alloc, disk, graph, text)?;
    'rows: for row in ROWS.iter().take(count) {
        if change(alloc, &mut store, disk, graph, text, &row.step)? != row.changes {
            return Ok(None);
        }
    }
    Ok(Some(store))
}

// The file after the first so many changes.
fn image_after(alloc: Global, count: usize) -> Result<Bytes, Memory> {
    let mut payloads = Vec::new(alloc);
    payloads.push(GRAPH_PAYLOAD)?;
    for row in ROWS.iter().take(count) {
        if !row.payload.is_empty() {
            payloads.push(row.payload)?;
        }
    }
    file_of(alloc, &payloads)
}

// How the records stand after so many changes. There are none before the first.
fn standings_after(count: usize) -> &'static [Standing] {
    match count {
        0 => &[],
        _ => match ROWS.get(count - 1) {
            Some(row) => row.after,
            None => &[],
        },
    }
}

// Whether the changes leave the file and the records of the table.
fn goes(alloc: Global, count: usize) -> Result<bool, StoreFault> {
    let mut disk = wide_disk(alloc, b"")?;
    let Ok(graph) = read_graph(alloc, GRAPH) else {
        return Err(StoreFault::Memory);
    };
    let Some(store) = played(alloc, &mut disk, &graph, GRAPH, count)? else {
        return Ok(false);
    };
    let image = image_after(alloc, count)?;
    Ok(stand(alloc, store.kept(), standings_after(count))? && disk.image() == image.as_slice())
}

#[test]
fn records_are_noted_and_renewed(rt: HostRuntime) {
    for count in 0..=STEPS {
        assert!(rt; goes(rt.alloc(), count) == Ok(true), "{count}");
    }
}

// How the records stand once the file after all changes is read: as they were noted, and none was checked.
const READ: &[Standing] = &[
    (AGAIN_ITEM, None, None),
    (SECOND_ITEM, None, None),
    (THIRD_ITEM, None, None),
];

// The sources then, and no call.
const SOURCES: &[u8] = b"\0\0\0\x02\0\0\0\x03a.c\0\0\0\x03x=2\0\0\0\x03b.c\0\0\0\x03x=1\0\0\0\0";

// Whether a store that is opened for a graph has the sources and these records, and no edit was counted.
fn reopens(alloc: Global, graph: &[u8], standings: &[Standing]) -> Result<bool, StoreFault> {
    let image = image_after(alloc, STEPS)?;
    let mut disk = wide_disk(alloc, image.as_slice())?;
    let store = open_store(alloc, &mut disk, graph)?;
    let held = held(alloc, &store)?;
    Ok(store.epoch() == 0 && held.as_slice() == SOURCES && stand(alloc, store.kept(), standings)?)
}

#[test]
fn no_record_counts_as_checked_after_an_opening(rt: HostRuntime) -> Result<(), Fail> {
    assert!(rt; reopens(rt.alloc(), GRAPH, READ) == Ok(true));
    assert!(rt; reopens(rt.alloc(), OTHER_GRAPH, &[]) == Ok(true));
    Ok(())
}
