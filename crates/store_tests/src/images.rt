// Images of stores, and what they stand for.
use crate::given::text_of;
use object_values::{Bytes, Memory};
use odin_bytes::put_u32;
use odin_fakes::MemDisk;
use odin_store::StoreFault;
use std::alloc::Global;
use std::test::Fail;
use test_support::{held, open_store, put_named};

/// The graph of each store, and the payload of its record.
pub(super) const GRAPH: &[u8; 14] = b"type c simple;";

pub(super) const GRAPH_PAYLOAD: &[u8] = b"\x01\0\0\0\x0etype c simple;";

/// The place after the record of the graph.
pub(super) const BEHIND_GRAPH: u64 = 88;

/// A front whose first start is 64.
pub(super) const FRONT: &[u8; 64] =
    b"ODINSTO1\0\0\0\0\0\0\0\0\0\0\0\0\0\0\0\x40\0\0\0\0\0\0\0\0\0\0\0\0\0\0\0\0\0\0\0\0\0\0\0\0\0\0\0\0\0\0\0\0\0\0\0\0\0\0\0\0";

/// Adds a record with an open gate.
pub(super) fn add_record(image: &mut Bytes, payload: &[u8]) -> Result<(), Memory> {
    let Ok(length) = u32::try_from(payload.len()) else {
        return Err(Memory);
    };
    image.push(1)?;
    put_u32(image, length)?;
    image.extend_from_slice(payload)
}

/// Adds records with open gates, and the closed gate after them.
pub(super) fn put_records(image: &mut Bytes, payloads: &[&[u8]]) -> Result<(), Memory> {
    for payload in payloads {
        add_record(image, payload)?;
    }
    image.push(0)
}

/// A store with these records alone, up to its closed gate.
pub(super) fn file_of(alloc: Global, payloads: &[&[u8]]) -> Result<Bytes, Memory> {
    let mut image = Bytes::from_slice(alloc, FRONT)?;
    put_records(&mut image, payloads)?;
    Ok(image)
}

/// The front of a store and the record of the graph.
pub(super) fn begun(alloc: Global) -> Result<Bytes, Memory> {
    let mut image = Bytes::from_slice(alloc, FRONT)?;
    add_record(&mut image, GRAPH_PAYLOAD)?;
    Ok(image)
}

/// A store with the record of the graph and these records, up to its closed gate.
pub(super) fn image_of(alloc: Global, payloads: &[&[u8]]) -> Result<Bytes, Memory> {
    let mut image = begun(alloc)?;
    put_records(&mut image, payloads)?;
    Ok(image)
}

/// A disk with this image, and room for a few batches.
pub(super) fn disk_of(alloc: Global, image: &[u8]) -> Result<MemDisk, Memory> {
    MemDisk::new(alloc, Bytes::from_slice(alloc, image)?, 2_000, 200)
}

/// What a store on a disk holds.
pub(super) fn held_on(alloc: Global, disk: &mut MemDisk) -> Result<Bytes, StoreFault> {
    let store = open_store(alloc, disk, GRAPH)?;
    Ok(held(alloc, &store)?)
}

/// What an image stands for.
pub(super) fn stands(alloc: Global, image: &[u8]) -> Result<Bytes, StoreFault> {
    let mut disk = disk_of(alloc, image)?;
    held_on(alloc, &mut disk)
}

/// Whether an image isn't ours at this place, and is left as it is.
pub(super) fn is_refused(alloc: Global, image: &[u8], at: u64) -> Result<bool, Memory> {
    let mut disk = disk_of(alloc, image)?;
    let fault = match held_on(alloc, &mut disk) {
        Ok(_) => return Ok(false),
        Err(fault) => fault,
    };
    Ok(fault == StoreFault::NotOurs(at) && disk.image() == image)
}

// The first file, and the payload of its second record.
const FIRST_PUT: &[u8] = b"\x02\0\0\0\x05\x01\0\0\0\0\x03\0\0\0\x03a.c\0\0\0\0";

// Whether a new store has these bytes once it is opened, and then once an empty text is put.
fn is_begun(alloc: Global) -> Result<bool, StoreFault> {
    let mut disk = disk_of(alloc, b"")?;
    let mut store = open_store(alloc, &mut disk, GRAPH)?;
    let new = image_of(alloc, &[])?;
    if disk.image() != new.as_slice() || new.len() != 89 {
        return Ok(false);
    }
    let text = text_of(alloc, b"")?;
    let put = put_named(alloc, &mut store, &mut disk, b"a.c", &text)?;
    let wanted = image_of(alloc, &[FIRST_PUT])?;
    Ok(put && disk.image() == wanted.as_slice() && wanted.len() == 116)
}

#[test]
fn a_store_begins_with_these_bytes(rt: HostRuntime) -> Result<(), Fail> {
    assert!(rt; is_begun(rt.alloc()) == Ok(true));
    Ok(())
}

// Whether a file whose second start is in use holds the source `a.c` alone, and stays as it is.
fn stands_at_the_second_start(alloc: Global) -> Result<bool, StoreFault> {
    let mut front = *FRONT;
    front[8] = 3;
    front[31] = 67;
    let mut image = Bytes::from_slice(alloc, &front)?;
    image.extend_from_slice(b"\x01\xff\xff")?;
    add_record(&mut image, GRAPH_PAYLOAD)?;
    add_record(&mut image, FIRST_PUT)?;
    image.extend_from_slice(b"\x02behind")?;
    let mut disk = disk_of(alloc, image.as_slice())?;
    let held = held_on(alloc, &mut disk)?;
    Ok(
        held.as_slice() == b"\0\0\0\x01\0\0\0\x03a.c\0\0\0\0\0\0\0\0".as_slice()
            && disk.image() == image.as_slice(),
    )
}

#[test]
fn the_second_start_is_used(rt: HostRuntime) -> Result<(), Fail> {
    assert!(rt; stands_at_the_second_start(rt.alloc()) == Ok(true));
    Ok(())
}
