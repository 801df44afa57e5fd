// A session of edits and kept calls, with the record that each adds.
ghost use Rattle.odin_journal.specs.Rest.{IsReady};
ghost use Rattle.odin_store.specs.OnDisk.{StoreAfter};

use crate::given::{Given, call_of, outcome_of, text_of};
use crate::images::{GRAPH, add_record, begun, disk_of, stands};
use object_values::{Bytes, Memory, Status};
use odin_outside::Disk;
use odin_store::{Store, StoreFault};
use std::alloc::Global;
use std::test::Fail;
use test_support::{drop_named, keep, open_store, put_named};

/// A change of a store.
pub(super) enum Step {
    Put(&'static [u8], &'static [u8]),
    Take(&'static [u8]),
    Keep(&'static Given),
}

// `a.c` with the header `a.h`; the output is the text of `a.c`.
const COMPILED: Given = Given {
    tool: b"cc",
    version: b"1",
    words: &[b"cc"],
    params: &[],
    parts: &[(0, b"a.c", Some(b"x=1\n")), (1, b"a.h", Some(b"w=1\n"))],
    outs: &[b"o"],
    status: Status::Ok,
    lines: &[],
    outputs: &[(b"o", b"x=1\n")],
};

// `b.c` with the same inputs, and a header that is absent.
const WARNED: Given = Given {
    tool: b"cc",
    version: b"1",
    words: &[b"cc"],
    params: &[(b"debug", b"")],
    parts: &[
        (0, b"b.c", Some(b"x=1\n")),
        (1, b"a.h", Some(b"w=1\n")),
        (1, b"x.h", None),
    ],
    outs: &[b"o"],
    status: Status::Warning,
    lines: &[(Status::Warning, b"old c")],
    outputs: &[(b"o", b"debug\n")],
};

const ENDED: Given = Given {
    tool: b"cc",
    version: b"1",
    words: &[b"cc"],
    params: &[],
    parts: &[(0, b"z.c", Some(b""))],
    outs: &[b"o"],
    status: Status::Abort,
    lines: &[(Status::Abort, b"tool cc ended by a signal")],
    outputs: &[],
};

// Its input is the output of another call, and one of its outputs too.
const LINKED: Given = Given {
    tool: b"ld",
    version: b"2.0",
    words: &[b"ld", b"-o x"],
    params: &[],
    parts: &[(0, b"a.c", Some(b"debug\n"))],
    outs: &[b"o", b"map"],
    status: Status::Error,
    lines: &[],
    outputs: &[(b"o", b"debug\n"), (b"map", b"m\n")],
};

/// A change, and the payload of the record that it adds; none where it changes nothing.
pub(super) struct Row {
    step: Step,
    payload: &'static [u8],
}

/// How many changes there are.
pub(super) const STEPS: usize = 12;

const ROWS: [Row; STEPS] = [
    Row {
        step: Step::Put(b"a.c", b"x=1\n"),
        payload: b"\x02\0\0\0\x09\x01\0\0\0\x04x=1\n\x03\0\0\0\x03a.c\0\0\0\0",
    },
    Row {
        step: Step::Put(b"a.c", b"x=1\n"),
        payload: b"",
    },
    Row {
        step: Step::Put(b"a.h", b"w=1\n"),
        payload: b"\x02\0\0\0\x09\x01\0\0\0\x04w=1\n\x03\0\0\0\x03a.h\0\0\0\x01",
    },
    // a text that is there already
    Row {
        step: Step::Put(b"b.c", b"x=1\n"),
        payload: b"\x03\0\0\0\x03b.c\0\0\0\0",
    },
    Row {
        step: Step::Keep(&COMPILED),
        payload: b"\x05\0\0\0\x02cc\0\0\0\x011\0\0\0\x01\0\0\0\x02cc\0\0\0\0\0\0\0\x02\0\0\0\0\0\0\0\x03a.c\x01\0\0\0\0\0\0\0\x01\0\0\0\x03a.h\x01\0\0\0\x01\0\0\0\x01\0\0\0\x01o\0\0\0\0\0\0\0\0\x01\0\0\0\x01o\0\0\0\0",
    },
    Row {
        step: Step::Keep(&WARNED),
        payload: b"\x02\0\0\0\x0b\x01\0\0\0\x06debug\n\x05\0\0\0\x02cc\0\0\0\x011\0\0\0\x01\0\0\0\x02cc\0\0\0\x01\0\0\0\x05debug\0\0\0\0\0\0\0\x03\0\0\0\0\0\0\0\x03b.c\x01\0\0\0\0\0\0\0\x01\0\0\0\x03a.h\x01\0\0\0\x01\0\0\0\x01\0\0\0\x03x.h\0\0\0\0\x01\0\0\0\x01o\x01\0\0\0\x01\x01\0\0\0\x05old c\0\0\0\x01\0\0\0\x01o\0\0\0\x02",
    },
    Row {
        step: Step::Take(b"a.h"),
        payload: b"\x04\0\0\0\x03a.h",
    },
    Row {
        step: Step::Take(b"a.h"),
        payload: b"",
    },
    Row {
        step: Step::Keep(&ENDED),
        payload: b"\x02\0\0\0\x05\x01\0\0\0\0\x05\0\0\0\x02cc\0\0\0\x011\0\0\0\x01\0\0\0\x02cc\0\0\0\0\0\0\0\x01\0\0\0\0\0\0\0\x03z.c\x01\0\0\0\x03\0\0\0\x01\0\0\0\x01o\x03\0\0\0\x01\x03\0\0\0\x19tool cc ended by a signal\0\0\0\0",
    },
    Row {
        step: Step::Keep(&LINKED),
        payload: b"\x02\0\0\0\x07\x01\0\0\0\x02m\n\x05\0\0\0\x02ld\0\0\0\x032.0\0\0\0\x02\0\0\0\x02ld\0\0\0\x04-o x\0\0\0\0\0\0\0\x01\0\0\0\0\0\0\0\x03a.c\x01\0\0\0\x02\0\0\0\x02\0\0\0\x01o\0\0\0\x03map\x02\0\0\0\0\0\0\0\x02\0\0\0\x01o\0\0\0\x02\0\0\0\x03map\0\0\0\x04",
    },
    Row {
        step: Step::Put(b"a.c", b"x=2\n"),
        payload: b"\x02\0\0\0\x09\x01\0\0\0\x04x=2\n\x03\0\0\0\x03a.c\0\0\0\x05",
    },
    // back to a text that is in the file
    Row {
        step: Step::Put(b"a.h", b"w=1\n"),
        payload: b"\x03\0\0\0\x03a.h\0\0\0\x01",
    },
];

// What the store holds after all changes: three sources, then the calls in the order in which they were kept.
const SOURCES: &[u8] =
    b"\0\0\0\x03\0\0\0\x03a.c\0\0\0\x04x=2\n\0\0\0\x03a.h\0\0\0\x04w=1\n\0\0\0\x03b.c\0\0\0\x04x=1\n\0\0\0\x04";

const CALLS: [&[u8]; 4] = [
    b"\0\0\0\x02cc\0\0\0\x011\0\0\0\x01\0\0\0\x02cc\0\0\0\0\0\0\0\x02\0\0\0\0\0\0\0\x03a.c\x01\0\0\0\x04x=1\n\0\0\0\x01\0\0\0\x03a.h\x01\0\0\0\x04w=1\n\0\0\0\x01\0\0\0\x01o\0\0\0\0\0\0\0\0\x01\0\0\0\x01o\0\0\0\x04x=1\n",
    b"\0\0\0\x02cc\0\0\0\x011\0\0\0\x01\0\0\0\x02cc\0\0\0\x01\0\0\0\x05debug\0\0\0\0\0\0\0\x03\0\0\0\0\0\0\0\x03b.c\x01\0\0\0\x04x=1\n\0\0\0\x01\0\0\0\x03a.h\x01\0\0\0\x04w=1\n\0\0\0\x01\0\0\0\x03x.h\0\0\0\0\x01\0\0\0\x01o\x01\0\0\0\x01\x01\0\0\0\x05old c\0\0\0\x01\0\0\0\x01o\0\0\0\x06debug\n",
    b"\0\0\0\x02cc\0\0\0\x011\0\0\0\x01\0\0\0\x02cc\0\0\0\0\0\0\0\x01\0\0\0\0\0\0\0\x03z.c\x01\0\0\0\0\0\0\0\x01\0\0\0\x01o\x03\0\0\0\x01\x03\0\0\0\x19tool cc ended by a signal\0\0\0\0",
    b"\0\0\0\x02ld\0\0\0\x032.0\0\0\0\x02\0\0\0\x02ld\0\0\0\x04-o x\0\0\0\0\0\0\0\x01\0\0\0\0\0\0\0\x03a.c\x01\0\0\0\x06debug\n\0\0\0\x02\0\0\0\x01o\0\0\0\x03map\x02\0\0\0\0\0\0\0\x02\0\0\0\x01o\0\0\0\x06debug\n\0\0\0\x03map\0\0\0\x02m\n",
];

// Makes a change, and says whether it changed anything.
fn change<D: Disk>(
    alloc: Global,
    store: &mut Store,
    disk: &mut D,
    step: &Step,
) -> Result<bool, StoreFault>
    requires { IsReady store.old.journal (D.size_of disk.old) }
    ensures left { StoreAfter store.new (D.size_of disk.new) result }
{
    match step {
        Step::Put(name, text) => {
            let text = text_of(alloc, text)?;
            put_named(alloc, store, disk, name, &text)
        }
        Step::Take(name) => drop_named(alloc, store, disk, name),
        Step::Keep(given) => {
            let call = call_of(alloc, given)?;
            let outcome = outcome_of(alloc, given)?;
            keep(alloc, store, disk, &call, &outcome)
        }
    }
}

/// Opens a store and makes the first so many changes. It gives how many were made before one failed or answered otherwise than the table says, or `None` where the
/// opening failed. After a fault of the disk the store is spent.
pub(super) fn played<D: Disk>(
    alloc: Global,
    disk: &mut D,
    count: usize,
) -> Result<Option<usize>, Memory> {
    let mut store = match open_store(alloc, disk, GRAPH) {
        Ok(store) => store,
        Err(StoreFault::Disk) => return Ok(None),
        Err(_) => return Err(Memory),
    };
    let mut made: usize = 0;
    'rows: for row in ROWS.iter().take(count) {
        match change(alloc, &mut store, disk, &row.step) {
            Ok(changed) => {
                if changed == row.payload.is_empty() {
                    return Ok(Some(made));
                }
            }
            Err(StoreFault::Disk) => {
                return if store.spent() {
                    Ok(Some(made))
                } else {
                    Err(Memory)
                };
            }
            Err(_) => return Err(Memory),
        }
        made = made.saturating_add(1);
    }
    Ok(Some(made))
}

/// The image after the first so many changes.
pub(super) fn image_after(alloc: Global, count: usize) -> Result<Bytes, Memory> {
    let mut image = begun(alloc)?;
    for row in ROWS.iter().take(count) {
        if !row.payload.is_empty() {
            add_record(&mut image, row.payload)?;
        }
    }
    image.push(0)?;
    Ok(image)
}

// Whether the changes are made, and leave these bytes.
fn leaves(alloc: Global, count: usize) -> Result<bool, Memory> {
    let mut disk = disk_of(alloc, b"")?;
    let made = played(alloc, &mut disk, count)?;
    let image = image_after(alloc, count)?;
    Ok(made == Some(count) && disk.image() == image.as_slice())
}

#[test]
fn changes_add_their_records(rt: HostRuntime) {
    for count in 0..=STEPS {
        assert!(rt; leaves(rt.alloc(), count) == Ok(true), "{count}");
    }
}

// Whether the whole session stands for its sources and calls.
fn is_held(alloc: Global) -> Result<bool, StoreFault> {
    let mut wanted = Bytes::from_slice(alloc, SOURCES)?;
    for call in CALLS {
        wanted.extend_from_slice(call)?;
    }
    let image = image_after(alloc, STEPS)?;
    let held = stands(alloc, image.as_slice())?;
    Ok(held == wanted)
}

#[test]
fn a_session_stands_for_its_sources_and_calls(rt: HostRuntime) -> Result<(), Fail> {
    assert!(rt; is_held(rt.alloc()) == Ok(true));
    Ok(())
}
