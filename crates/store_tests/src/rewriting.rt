// A store is rewritten with its records of nodes: each by the numbers of the copy, with what it comes to at present; wherever that is stopped and whatever
// fails, it is what it was, or that.
use crate::crashes::crashed;
use crate::given_notes::{
    GRAPH, GRAPH_PAYLOAD, GivenPresent, Standing, as_read, node_of, present_of, stand, wide_disk,
};
use crate::images::{FRONT, file_of, put_records};
use object_values::{Bytes, Memory, Status};
use odin_fakes::{FailDisk, MemDisk};
use odin_outside::Disk;
use odin_store::{Store, StoreFault};
use std::alloc::Global;
use std::test::Fail;
use test_support::{contents, held, noted, only, open_store, renew};

// Records of nodes by the numbers of a file: the compound of `a.c`, the list of `b.c`, `a.c` by the first maker, and a node that aborts.
const COMPOUND: &[u8] =
    b"\x06\0\0\0\x03a.c\0\0\0\0\0\0\0\x01\x01\0\0\0\x02\0\0\0\x02\0\0\0\x03a.c\0\0\0\0\0\0\0\0\x01\0\0\0\x05\0\0\0\x03x.h\0\0\0\0\0\0\0\0\0\0\0\0\x01\x01\0\0\0\x04\0\0\0\0\0\0\0\0\0\0\0\0\0\x02";

const LISTED: &[u8] =
    b"\x06\0\0\0\x03b.c\0\0\0\0\0\0\0\x01\x01\0\0\0\x01\0\0\0\x02\0\0\0\x03a.c\0\0\0\0\0\0\0\0\x01\0\0\0\x05\0\0\0\x01m\0\0\0\0\0\0\0\0\x01\0\0\0\x03\0\0\0\0\x01\0\0\0\x03\x01\0\0\0\x01\0\0\0\x05a.c:o\x01\0\0\0\x05old c\x01\0\0\0\x01\0\0\0\x05a.c:o\x01\0\0\0\x05old c\0\0\0\x01";

const SIMPLE: &[u8] =
    b"\x06\0\0\0\x03a.c\0\0\0\0\0\0\0\x01\x01\0\0\0\0\0\0\0\x01\0\0\0\x03a.c\0\0\0\0\0\0\0\0\x01\0\0\0\x01\0\0\0\0\x01\0\0\0\x06\0\0\0\0\0\x01\0\0\0\x01\0\0\0\x05a.c:o\x01\0\0\0\x05old c\0\0\0\x03";

const ABORTED: &[u8] =
    b"\x06\0\0\0\x03b.c\0\0\0\0\0\0\0\x01\x01\0\0\0\x02\0\0\0\0\0\0\0\0\0\x03\0\0\0\0\x03\0\0\0\0\0\0\0@";

// The payloads of a file. The source `a.c` had the text `dead` once, `a.c` by the first maker was noted before, and the content 5 is the text of the content 1.
const PAYLOADS: &[&[u8]] = &[
    GRAPH_PAYLOAD,
    b"\x02\0\0\0\x09\x01\0\0\0\x04dead\x03\0\0\0\x03a.c\0\0\0\0",
    b"\x02\0\0\0\x08\x01\0\0\0\x03x=1\x03\0\0\0\x03a.c\0\0\0\x01",
    b"\x02\0\0\0\x06\x01\0\0\0\x01o\x06\0\0\0\x03a.c\0\0\0\0\0\0\0\x01\x01\0\0\0\0\0\0\0\x01\0\0\0\x03a.c\0\0\0\0\0\0\0\0\x01\0\0\0\0\0\0\0\0\x01\0\0\0\x02\0\0\0\0\0\0\0\0\0\0\0\0\0\x01",
    b"\x05\0\0\0\x02cc\0\0\0\x011\0\0\0\0\0\0\0\0\0\0\0\x01\0\0\0\0\0\0\0\x03a.c\x01\0\0\0\x01\0\0\0\x01\0\0\0\x01o\0\0\0\0\0\0\0\0\x01\0\0\0\x01o\0\0\0\x02",
    b"\x02\0\0\0\x14\x02\0\0\0\x01\0\0\0\x03a.c\0\0\0\0\0\0\0\0\x02\0\0\0\x1b\x03\0\0\0\x02\0\0\0\x01p\0\0\0\x01o\0\0\0\x01q\0\0\0\x03x=1\x02\0\0\0\x08\x01\0\0\0\x03x=1\x06\0\0\0\x03a.c\0\0\0\0\0\0\0\x01\x01\0\0\0\x02\0\0\0\x02\0\0\0\x03a.c\0\0\0\0\0\0\0\0\x01\0\0\0\x05\0\0\0\x03x.h\0\0\0\0\0\0\0\0\0\0\0\0\x01\x01\0\0\0\x04\0\0\0\0\0\0\0\0\0\0\0\0\0\x02",
    b"\x06\0\0\0\x03b.c\0\0\0\0\0\0\0\x01\x01\0\0\0\x01\0\0\0\x02\0\0\0\x03a.c\0\0\0\0\0\0\0\0\x01\0\0\0\x05\0\0\0\x01m\0\0\0\0\0\0\0\0\x01\0\0\0\x03\0\0\0\0\x01\0\0\0\x03\x01\0\0\0\x01\0\0\0\x05a.c:o\x01\0\0\0\x05old c\x01\0\0\0\x01\0\0\0\x05a.c:o\x01\0\0\0\x05old c\0\0\0\x01\x03\0\0\0\x03b.c\0\0\0\x05",
    b"\x02\0\0\0\x06\x01\0\0\0\x01n\x06\0\0\0\x03a.c\0\0\0\0\0\0\0\x01\x01\0\0\0\0\0\0\0\x01\0\0\0\x03a.c\0\0\0\0\0\0\0\0\x01\0\0\0\x01\0\0\0\0\x01\0\0\0\x06\0\0\0\0\0\x01\0\0\0\x01\0\0\0\x05a.c:o\x01\0\0\0\x05old c\0\0\0\x03",
    b"\x06\0\0\0\x03b.c\0\0\0\0\0\0\0\x01\x01\0\0\0\x02\0\0\0\0\0\0\0\0\0\x03\0\0\0\0\x03\0\0\0\0\0\0\0@",
];

// How its records stand: in the order in which their nodes were first noted.
const READ: &[Standing] = &[
    (SIMPLE, None, None),
    (COMPOUND, None, None),
    (LISTED, None, None),
    (ABORTED, None, None),
];

// What the list comes to later.
const LATER: GivenPresent = GivenPresent {
    status: Status::Ok,
    messages: &[],
    height: 4,
    tight: Some(1),
};

// The same records by the numbers of the copy.
const SIMPLE_LIVE: &[u8] =
    b"\x06\0\0\0\x03a.c\0\0\0\0\0\0\0\x01\x01\0\0\0\0\0\0\0\x01\0\0\0\x03a.c\0\0\0\0\0\0\0\0\x01\0\0\0\0\0\0\0\0\x01\0\0\0\x02\0\0\0\0\0\x01\0\0\0\x01\0\0\0\x05a.c:o\x01\0\0\0\x05old c\0\0\0\x03";

const COMPOUND_LIVE: &[u8] =
    b"\x06\0\0\0\x03a.c\0\0\0\0\0\0\0\x01\x01\0\0\0\x02\0\0\0\x02\0\0\0\x03a.c\0\0\0\0\0\0\0\0\x01\0\0\0\0\0\0\0\x03x.h\0\0\0\0\0\0\0\0\0\0\0\0\x01\x01\0\0\0\x03\0\0\0\0\0\0\0\0\0\0\0\0\0\x02";

const LISTED_LIVE: &[u8] =
    b"\x06\0\0\0\x03b.c\0\0\0\0\0\0\0\x01\x01\0\0\0\x01\0\0\0\x02\0\0\0\x03a.c\0\0\0\0\0\0\0\0\x01\0\0\0\0\0\0\0\x01m\0\0\0\0\0\0\0\0\x01\0\0\0\x04\0\0\0\0\x01\0\0\0\x04\x01\0\0\0\x01\0\0\0\x05a.c:o\x01\0\0\0\x05old c\0\0\0\0\0\0\0\0\x04";

// The payloads of the copy: the graph, two sources with one text, the call, and the records, each after the contents that no payload before it has.
const LIVE: &[&[u8]] = &[
    GRAPH_PAYLOAD,
    b"\x02\0\0\0\x08\x01\0\0\0\x03x=1\x03\0\0\0\x03a.c\0\0\0\0",
    b"\x03\0\0\0\x03b.c\0\0\0\0",
    b"\x02\0\0\0\x06\x01\0\0\0\x01o\x05\0\0\0\x02cc\0\0\0\x011\0\0\0\0\0\0\0\0\0\0\0\x01\0\0\0\0\0\0\0\x03a.c\x01\0\0\0\0\0\0\0\x01\0\0\0\x01o\0\0\0\0\0\0\0\0\x01\0\0\0\x01o\0\0\0\x01",
    b"\x02\0\0\0\x06\x01\0\0\0\x01n\x06\0\0\0\x03a.c\0\0\0\0\0\0\0\x01\x01\0\0\0\0\0\0\0\x01\0\0\0\x03a.c\0\0\0\0\0\0\0\0\x01\0\0\0\0\0\0\0\0\x01\0\0\0\x02\0\0\0\0\0\x01\0\0\0\x01\0\0\0\x05a.c:o\x01\0\0\0\x05old c\0\0\0\x03",
    b"\x02\0\0\0\x1b\x03\0\0\0\x02\0\0\0\x01p\0\0\0\x01o\0\0\0\x01q\0\0\0\x03x=1\x06\0\0\0\x03a.c\0\0\0\0\0\0\0\x01\x01\0\0\0\x02\0\0\0\x02\0\0\0\x03a.c\0\0\0\0\0\0\0\0\x01\0\0\0\0\0\0\0\x03x.h\0\0\0\0\0\0\0\0\0\0\0\0\x01\x01\0\0\0\x03\0\0\0\0\0\0\0\0\0\0\0\0\0\x02",
    b"\x02\0\0\0\x14\x02\0\0\0\x01\0\0\0\x03a.c\0\0\0\0\0\0\0\0\x06\0\0\0\x03b.c\0\0\0\0\0\0\0\x01\x01\0\0\0\x01\0\0\0\x02\0\0\0\x03a.c\0\0\0\0\0\0\0\0\x01\0\0\0\0\0\0\0\x01m\0\0\0\0\0\0\0\0\x01\0\0\0\x04\0\0\0\0\x01\0\0\0\x04\x01\0\0\0\x01\0\0\0\x05a.c:o\x01\0\0\0\x05old c\0\0\0\0\0\0\0\0\x04",
    b"\x06\0\0\0\x03b.c\0\0\0\0\0\0\0\x01\x01\0\0\0\x02\0\0\0\0\0\0\0\0\0\x03\0\0\0\0\x03\0\0\0\0\0\0\0@",
];

// How the records stand then: what is renewed stays checked.
const RENEWED: &[Standing] = &[
    (SIMPLE_LIVE, None, None),
    (COMPOUND_LIVE, None, None),
    (LISTED_LIVE, Some(0), Some(1)),
    (ABORTED, None, None),
];

// The last two bytes of the place at which the copy stands in the file: after the records and their closed gate, at 906.
const PLACE: [u8; 2] = [0x03, 0x8a];

// The file with the payloads; with the copy after them, which the second start leads to; and with the copy at the first start again.
fn first_file(alloc: Global) -> Result<Bytes, Memory> {
    file_of(alloc, PAYLOADS)
}

fn front_with_copy(first: bool) -> [u8; 64] {
    let mut front = *FRONT;
    front[30] = PLACE[0];
    front[31] = PLACE[1];
    if !first {
        front[8] = 1;
    }
    front
}

fn second_file(alloc: Global) -> Result<Bytes, Memory> {
    let mut image = Bytes::from_slice(alloc, &front_with_copy(false))?;
    put_records(&mut image, PAYLOADS)?;
    put_records(&mut image, LIVE)?;
    Ok(image)
}

fn third_file(alloc: Global) -> Result<Bytes, Memory> {
    let mut image = Bytes::from_slice(alloc, &front_with_copy(true))?;
    put_records(&mut image, LIVE)?;
    Ok(image)
}

// Opens the first file, says of the list what it comes to later, and rewrites the store. The store is given back where the records stand as they were, and
// stand by the numbers of the copy then, with all else as it was.
fn rewrites(alloc: Global, disk: &mut MemDisk) -> Result<Option<Store>, StoreFault> {
    let mut store = open_store(alloc, disk, GRAPH)?;
    let stood = stand(alloc, store.kept(), READ)?;
    let before = held(alloc, &store)?;
    let node = node_of(alloc, b"b.c", Some(1))?;
    let renewed = renew(&mut store, &node, present_of(alloc, LATER)?);
    let written = store.compact(alloc, disk)?;
    let stands = stand(alloc, store.kept(), RENEWED)?;
    let after = held(alloc, &store)?;
    let file = second_file(alloc)?;
    let is = stood
        && renewed
        && written
        && stands
        && before == after
        && disk.image() == file.as_slice();
    Ok(if is { Some(store) } else { None })
}

// Whether the store goes on so: the file is opened again, rewritten, and opened once more. None of its records counts as checked then.
fn goes_on(alloc: Global, disk: &mut MemDisk) -> Result<bool, StoreFault> {
    let read = as_read(alloc, RENEWED)?;
    let mut store = open_store(alloc, disk, GRAPH)?;
    let stood = stand(alloc, store.kept(), &read)?;
    let before = held(alloc, &store)?;
    let written = store.compact(alloc, disk)?;
    let stands = stand(alloc, store.kept(), &read)?;
    let file = third_file(alloc)?;
    let is_file = disk.image() == file.as_slice();
    let last = open_store(alloc, disk, GRAPH)?;
    let after = held(alloc, &last)?;
    Ok(
        stood
            && written
            && stands
            && is_file
            && before == after
            && stand(alloc, last.kept(), &read)?,
    )
}

// Whether all goes so over the first file.
fn goes(alloc: Global) -> Result<bool, StoreFault> {
    let image = first_file(alloc)?;
    let mut disk = wide_disk(alloc, image.as_slice())?;
    let Some(store) = rewrites(alloc, &mut disk)? else {
        return Ok(false);
    };
    drop(store);
    goes_on(alloc, &mut disk)
}

#[test]
fn a_rewritten_store_has_its_records(rt: HostRuntime) -> Result<(), Fail> {
    assert!(rt; goes(rt.alloc()) == Ok(true));
    Ok(())
}

// ---- stops and faults

// All that a store has: what it holds, its records, and its contents.
fn whole<D: Disk>(alloc: Global, disk: &mut D) -> Result<Bytes, StoreFault> {
    let store = open_store(alloc, disk, GRAPH)?;
    let mut whole = held(alloc, &store)?;
    whole.extend_from_slice(noted(alloc, store.kept())?.as_slice())?;
    whole.extend_from_slice(contents(alloc, store.kept())?.as_slice())?;
    Ok(whole)
}

fn whole_of(alloc: Global, image: &[u8]) -> Result<Bytes, StoreFault> {
    let mut disk = wide_disk(alloc, image)?;
    whole(alloc, &mut disk)
}

// Opens a store and rewrites it.
fn rewritten<D: Disk>(alloc: Global, disk: &mut D) -> Result<bool, StoreFault> {
    let mut store = open_store(alloc, disk, GRAPH)?;
    match store.compact(alloc, disk) {
        Ok(written) => Ok(written),
        Err(StoreFault::Disk) if !store.spent() => Err(StoreFault::Memory),
        Err(fault) => Err(fault),
    }
}

// The file before a rewriting: one whose copy is put after the records, or one whose copy is put before the start in use.
fn file_before(alloc: Global, first: bool) -> Result<Bytes, StoreFault> {
    let image = first_file(alloc)?;
    if first {
        return Ok(image);
    }
    let mut disk = wide_disk(alloc, image.as_slice())?;
    let _ = rewritten(alloc, &mut disk)?;
    Ok(Bytes::from_slice(alloc, disk.image())?)
}

// What the store has before a rewriting and after it.
#[derive(Drop)]
struct Ends {
    before: Bytes,
    after: Bytes,
}

fn ends_of(alloc: Global, image: &[u8]) -> Result<Ends, StoreFault> {
    let before = whole_of(alloc, image)?;
    let mut disk = wide_disk(alloc, image)?;
    let _ = rewritten(alloc, &mut disk)?;
    let after = whole(alloc, &mut disk)?;
    Ok(Ends { before, after })
}

// Whether an image stands for one of the ends.
fn is_one_of(alloc: Global, ends: &Ends, image: &[u8]) -> Result<bool, StoreFault> {
    let whole = whole_of(alloc, image)?;
    Ok(whole == ends.before || whole == ends.after)
}

// Whether what any stop leaves within the opening and the rewriting of a file stands for one of the ends.
fn stops_well(alloc: Global, first: bool) -> Result<bool, StoreFault> {
    let image = file_before(alloc, first)?;
    let ends = ends_of(alloc, image.as_slice())?;
    let mut disk = wide_disk(alloc, image.as_slice())?;
    let written = rewritten(alloc, &mut disk)?;
    for moment in 0..=disk.calls() {
        for turn in 0..16 {
            let left = crashed(alloc, &disk, moment, turn)?;
            if !is_one_of(alloc, &ends, left.as_slice())? {
                return Ok(false);
            }
        }
    }
    Ok(written)
}

#[test]
fn a_stop_leaves_all_records_of_nodes_by_old_numbers_or_by_new_ones(rt: HostRuntime) {
    for first in [true, false] {
        assert!(rt; stops_well(rt.alloc(), first) == Ok(true), "{first}");
    }
}

// Whether a rewriting whose call of this number fails leaves one of the ends. `None` where there is no such call.
fn fails_well(
    alloc: Global,
    image: &[u8],
    ends: &Ends,
    number: u32,
) -> Result<Option<bool>, StoreFault> {
    let mut disk = FailDisk::new(wide_disk(alloc, image)?, only(alloc, number)?);
    match rewritten(alloc, &mut disk) {
        Ok(_) => Ok(None),
        Err(StoreFault::Disk) => Ok(Some(is_one_of(alloc, ends, disk.inner().image())?)),
        Err(fault) => Err(fault),
    }
}

// How many calls there are, if each fails well.
fn faults(alloc: Global, first: bool) -> Result<Option<u32>, StoreFault> {
    let image = file_before(alloc, first)?;
    let ends = ends_of(alloc, image.as_slice())?;
    for number in 1..200 {
        match fails_well(alloc, image.as_slice(), &ends, number)? {
            Some(true) => {}
            Some(false) => return Ok(None),
            None => return Ok(Some(number - 1)),
        }
    }
    Ok(None)
}

// Whether each of them does, and those of a rewriting are among them.
fn fails_everywhere(alloc: Global, first: bool) -> Result<bool, StoreFault> {
    Ok(faults(alloc, first)?.is_some_and(|calls| calls > 8))
}

#[test]
fn a_fault_leaves_all_records_of_nodes_by_old_numbers_or_by_new_ones(rt: HostRuntime) {
    for first in [true, false] {
        assert!(rt; fails_everywhere(rt.alloc(), first) == Ok(true), "{first}");
    }
}

// ---- which store is wasteful

// A text whose records alone make a file long.
const LONG: usize = 1_100_000;

// The payload that brings a long text in, as the content 1, and puts it as `a.c`.
fn long_payload(alloc: Global) -> Result<Bytes, Memory> {
    let mut payload = Bytes::from_slice(alloc, b"\x02")?;
    payload.extend_from_slice(&(LONG as u32 + 5).to_be_bytes())?;
    payload.push(1)?;
    payload.extend_from_slice(&(LONG as u32).to_be_bytes())?;
    payload.extend_from_slice(&vec![in alloc; b'x'; LONG]?)?;
    payload.extend_from_slice(b"\x03\0\0\0\x03a.c\0\0\0\x01")?;
    Ok(payload)
}

// The text `o` as the content 0, `a.c` with that in the place of the long text, and a node that has seen the one or the other.
const SHORT: &[u8] = b"\x02\0\0\0\x06\x01\0\0\0\x01o\x03\0\0\0\x03b.c\0\0\0\0";

const SHORT_AGAIN: &[u8] = b"\x03\0\0\0\x03a.c\0\0\0\0";

const OF_SHORT: &[u8] =
    b"\x06\0\0\0\x03a.c\0\0\0\0\0\0\0\x01\x01\0\0\0\0\0\0\0\x01\0\0\0\x03a.c\0\0\0\0\0\0\0\0\x01\0\0\0\0\0\0\0\0\x01\0\0\0\0\0\0\0\0\0\0\0\0\0\0\0\0\0\x01";

const OF_LONG: &[u8] =
    b"\x06\0\0\0\x03a.c\0\0\0\0\0\0\0\x01\x01\0\0\0\0\0\0\0\x01\0\0\0\x03a.c\0\0\0\0\0\0\0\0\x01\0\0\0\x01\0\0\0\0\x01\0\0\0\0\0\0\0\0\0\0\0\0\0\0\0\0\0\x01";

// Whether a store with a long text that no source has any more is wasteful, where this is noted.
fn is_wasteful(alloc: Global, record: &[u8]) -> Result<bool, StoreFault> {
    let long = long_payload(alloc)?;
    let image = file_of(
        alloc,
        &[GRAPH_PAYLOAD, SHORT, long.as_slice(), SHORT_AGAIN, record],
    )?;
    let mut disk = wide_disk(alloc, image.as_slice())?;
    let store = open_store(alloc, &mut disk, GRAPH)?;
    Ok(store.kept().records() == 1 && store.wasteful(alloc)?)
}

#[test]
fn what_a_record_names_is_of_use(rt: HostRuntime) -> Result<(), Fail> {
    assert!(rt; is_wasteful(rt.alloc(), OF_SHORT) == Ok(true));
    assert!(rt; is_wasteful(rt.alloc(), OF_LONG) == Ok(false));
    Ok(())
}
