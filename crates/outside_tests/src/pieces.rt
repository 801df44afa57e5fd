// A journal that is read by pieces: a record across the end of a piece, one that is longer than a piece, and one after it.
use super::journals::FRONT;
use object_values::{Bytes, Memory, Text};
use odin_fakes::CrashDisk;
use odin_journal::{Journal, JournalFault};
use std::alloc::Global;

// The lengths of the payloads. A piece has 1,048,576 bytes.
const LENGTHS: &[u32] = &[1_000_000, 60_000, 2_000_000, 2];

// A payload of this length, which differs from place to place, and from that of another record.
fn payload(alloc: Global, length: u32, record: usize) -> Result<Bytes, Memory> {
    let mut bytes = vec![in alloc; 0u8; length as usize]?;
    let mut next = (record % 251) as u8;
    for byte in bytes.as_mut_slice() {
        *byte = next;
        next = next.wrapping_add(1) % 251;
    }
    Ok(Bytes::from_vec(bytes))
}

// A store with these records.
fn store(alloc: Global) -> Result<Bytes, Memory> {
    let mut image = Bytes::from_slice(alloc, &FRONT)?;
    for (record, length) in LENGTHS.iter().enumerate() {
        image.push(1)?;
        image.extend_from_slice(&length.to_be_bytes())?;
        let payload = payload(alloc, *length, record)?;
        image.extend_from_slice(payload.as_slice())?;
    }
    image.push(0)?;
    Ok(image)
}

// Whether a record is the one at its place.
fn is_whole(alloc: Global, record: usize, length: u32, read: &[Text]) -> Result<bool, Memory> {
    let wanted = payload(alloc, length, record)?;
    match read.get(record) {
        Some(there) => Ok(there.as_slice() == wanted.as_slice()),
        None => Ok(false),
    }
}

// Whether all records are there, and no others.
fn are_whole(alloc: Global, read: &[Text]) -> Result<bool, Memory> {
    for (record, length) in LENGTHS.iter().enumerate() {
        if !is_whole(alloc, record, *length, read)? {
            return Ok(false);
        }
    }
    Ok(read.len() == LENGTHS.len())
}

// Whether the records of the store are read as they are, and by how many calls.
fn read_all(alloc: Global) -> Result<(bool, usize), JournalFault> {
    let mut disk = CrashDisk::new(alloc, store(alloc)?, 0, 30)?;
    let (_, records) = Journal::open(alloc, &mut disk)?;
    Ok((are_whole(alloc, records.as_slice())?, disk.calls()))
}

// The size, the first byte, the front, three pieces and the long record.
#[test]
fn records_are_cut_out_of_pieces(rt: HostRuntime) {
    assert!(rt; read_all(rt.alloc()) == Ok((true, 7)));
}
