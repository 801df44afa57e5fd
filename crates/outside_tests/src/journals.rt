// A journal's bytes, stops within the adding of a record, and files that aren't ours.
use super::disks::crashed;
use object_values::{Bytes, Memory, Seq, Text};
use odin_fakes::CrashDisk;
use odin_journal::{Journal, JournalFault};
use std::alloc::Global;
use std::test::Fail;

// A front whose first start is 64, with the second one next to it.
pub(super) const FRONT: [u8; 64] =
    *b"ODINSTO1\0\0\0\0\0\0\0\0\0\0\0\0\0\0\0\x40\0\0\0\0\0\0\0\x41\0\0\0\0\0\0\0\0\0\0\0\0\0\0\0\0\0\0\0\0\0\0\0\0\0\0\0\0\0\0\0\0";

// The end and the records of a journal on a disk.
fn opened_on(alloc: Global, disk: &mut CrashDisk) -> Result<(u64, Seq<Text>), JournalFault> {
    let (journal, records) = Journal::open(alloc, disk)?;
    Ok((journal.end(), records))
}

// A disk with this file.
pub(super) fn disk_of(alloc: Global, image: &[u8]) -> Result<CrashDisk, Memory> {
    let image = Bytes::from_slice(alloc, image)?;
    CrashDisk::new(alloc, image, 200, 30)
}

// The end and the records of a journal on a file.
pub(super) fn opened(alloc: Global, image: &[u8]) -> Result<(u64, Seq<Text>), JournalFault> {
    let mut disk = disk_of(alloc, image)?;
    opened_on(alloc, &mut disk)
}

// The end of a journal on a file, and how many records it has.
fn counted(alloc: Global, image: &[u8]) -> Result<(u64, usize), JournalFault> {
    let (end, records) = opened(alloc, image)?;
    Ok((end, records.len()))
}

// The ends of a journal on a disk before and after the record `hi`, which is added, and whether the journal is spent.
fn added(alloc: Global, disk: &mut CrashDisk) -> Result<(u64, u64, bool), JournalFault> {
    let (mut journal, _) = Journal::open(alloc, disk)?;
    let before = journal.end();
    journal.append(alloc, disk, b"hi")?;
    Ok((before, journal.end(), journal.spent()))
}

// Whether `hi` is the only record.
fn is_hi(records: &[Text]) -> bool {
    match records {
        [record] => record.as_slice() == b"hi".as_slice(),
        _ => false,
    }
}

// Whether a journal on a file ends after the only record `hi`.
fn has_hi(alloc: Global, image: &[u8]) -> Result<bool, JournalFault> {
    let (end, records) = opened(alloc, image)?;
    Ok(end == 71 && is_hi(records.as_slice()))
}

// The length of a disk whose empty file was opened, and how many calls it had.
fn begun(alloc: Global) -> Result<(usize, usize), JournalFault> {
    let mut disk = disk_of(alloc, b"")?;
    opened_on(alloc, &mut disk)?;
    Ok((disk.image().len(), disk.calls()))
}

// A store with the only record `hi`.
const HI: &[u8; 72] =
    b"ODINSTO1\0\0\0\0\0\0\0\0\0\0\0\0\0\0\0\x40\0\0\0\0\0\0\0\0\0\0\0\0\0\0\0\0\0\0\0\0\0\0\0\0\0\0\0\0\0\0\0\0\0\0\0\0\0\0\0\0\x01\0\0\0\x02hi\0";

// Whether the record `hi` is added to a disk with an empty file, and is there when it is opened again.
fn takes_hi(alloc: Global, disk: &mut CrashDisk) -> Result<bool, JournalFault> {
    let ends = added(alloc, disk)?;
    let image = disk.image();
    Ok(ends == (64, 71, false) && image == HI.as_slice() && has_hi(alloc, image)?)
}

#[test]
fn a_record_stands_behind_the_front(rt: HostRuntime) -> Result<(), Fail> {
    assert!(rt; begun(rt.alloc()) == Ok((65, 7)));
    let mut disk = disk_of(rt.alloc(), b"")?;
    assert!(rt; takes_hi(rt.alloc(), &mut disk) == Ok(true));
    Ok(())
}

// Whether a journal on a file ends after the only record `hi`, or at its front with no record.
fn has_hi_or_none(alloc: Global, image: &[u8]) -> Result<bool, JournalFault> {
    let (end, records) = opened(alloc, image)?;
    Ok(end == 71 && is_hi(records.as_slice()) || end == 64 && records.len() == 0)
}

// Whether a stop within the adding of `hi` leaves it whole or not at all.
fn is_whole(
    alloc: Global,
    disk: &CrashDisk,
    moment: u32,
    choice: u64,
) -> Result<bool, JournalFault> {
    let image = crashed(alloc, disk, moment, choice)?;
    has_hi_or_none(alloc, image.as_slice())
}

// The first call and choice whose stop leaves something else.
fn first_torn(alloc: Global, disk: &CrashDisk) -> Result<Option<(u32, u64)>, JournalFault> {
    for moment in 8..12 {
        for choice in 0..64 {
            if !is_whole(alloc, disk, moment, choice)? {
                return Ok(Some((moment, choice)));
            }
        }
    }
    Ok(None)
}

// Whether `hi` is added, and each stop within its adding leaves it whole or not at all.
fn is_never_torn(alloc: Global, disk: &mut CrashDisk) -> bool {
    added(alloc, disk) == Ok((64, 71, false))
        && disk.calls() == 11
        && first_torn(alloc, disk) == Ok(None)
}

#[test]
fn a_stop_leaves_a_record_whole_or_not_at_all(rt: HostRuntime) -> Result<(), Fail> {
    let mut disk = disk_of(rt.alloc(), b"")?;
    assert!(rt; is_never_torn(rt.alloc(), &mut disk));
    Ok(())
}

// A front with another byte at one place, and what stands after it.
fn image(alloc: Global, place: u8, byte: u8, behind: &[u8]) -> Result<Bytes, Memory> {
    let mut front = FRONT;
    front[place as usize % 64] = byte;
    let mut image = Bytes::from_slice(alloc, &front)?;
    image.extend_from_slice(behind)?;
    Ok(image)
}

// Where the journal in such a file ends, or why there is none.
fn told(alloc: Global, place: u8, byte: u8, behind: &[u8]) -> Result<u64, JournalFault> {
    let image = image(alloc, place, byte, behind)?;
    let (end, _) = counted(alloc, image.as_slice())?;
    Ok(end)
}

// A place in the front, another byte there, what stands after the front, and where the journal ends, or where the file breaks.
const FRONTS: &[(u8, u8, &[u8], Result<u64, JournalFault>)] = &[
    (0, b'O', b"", Err(JournalFault::NotOurs(0))),
    (0, b'O', b"\0", Ok(64)),
    // any mark but 0
    (0, 1, b"\0", Ok(64)),
    (0, 0, b"\x01\0\0\0\x09hi\0", Ok(64)),
    (7, b'2', b"\0", Err(JournalFault::NotOurs(0))),
    (9, 1, b"\0", Err(JournalFault::NotOurs(0))),
    (63, 1, b"\0", Err(JournalFault::NotOurs(0))),
    // a start in the front, and one past the file
    (23, 63, b"\0", Err(JournalFault::NotOurs(0))),
    (23, 65, b"\0", Err(JournalFault::NotOurs(0))),
    // the second start
    (8, 1, b"\0", Err(JournalFault::NotOurs(0))),
    (8, 1, b"\x01\0", Ok(65)),
    (8, 3, b"\0\x01\0\0\0\x02hi\x02", Ok(72)),
];

#[test]
fn a_front_has_its_marks_zeros_and_start(rt: HostRuntime) {
    for (place, byte, behind, wanted) in FRONTS {
        assert!(rt; told(rt.alloc(), *place, *byte, behind) == *wanted);
    }
}

// What stands after the front, and where the journal ends, or where the file breaks.
const RECORDS: &[(&[u8], Result<u64, JournalFault>)] = &[
    // an open gate with no length, with one past the file, and with no gate after its payload
    (b"\x01", Err(JournalFault::NotOurs(64))),
    (b"\x01\0\0\0\x03hi\0", Err(JournalFault::NotOurs(64))),
    (b"\x01\xff\xff\xff\xffhi\0", Err(JournalFault::NotOurs(64))),
    (b"\x01\0\0\0\x02hi", Err(JournalFault::NotOurs(64))),
    (
        b"\x01\0\0\0\x02hi\x01\0\0\0\x02yo",
        Err(JournalFault::NotOurs(71)),
    ),
    // what lies after a closed gate has no meaning
    (b"\0\0\0\0\x02hi\x01\x01", Ok(64)),
];

#[test]
fn a_record_lies_within_its_file(rt: HostRuntime) {
    for (behind, wanted) in RECORDS {
        assert!(rt; told(rt.alloc(), 0, b'O', behind) == *wanted);
    }
}

const SMALL: &[&[u8]] = &[b"", b"\0", b"x"];

#[test]
fn a_small_file_is_made_anew(rt: HostRuntime) {
    for small in SMALL {
        assert!(rt; counted(rt.alloc(), small) == Ok((64, 0)));
    }
}

// A file of so many bytes whose byte at 0 is 0.
fn blank_file(alloc: Global, size: usize) -> Result<Bytes, Memory> {
    let mut bytes = vec![in alloc; 7u8; size]?;
    if let Some(first) = bytes.first_mut() {
        *first = 0;
    }
    Ok(Bytes::from_vec(bytes))
}

// Whether a file of this size is a store without records, after which stand bytes of 7.
fn is_made(image: &[u8], size: usize) -> bool {
    let Some((front, behind)) = image.split_at_checked(65) else {
        return false;
    };
    let (start, gate) = front.split_at(64);
    image.len() == size
        && start == &HI[..64]
        && gate == b"\0".as_slice()
        && behind.iter().all(|byte| *byte == 7)
}

// Whether opening such a file makes it a store of that size.
fn makes(alloc: Global, size: usize, wanted: usize) -> Result<bool, JournalFault> {
    let file = blank_file(alloc, size)?;
    let mut disk = disk_of(alloc, file.as_slice())?;
    let (end, records) = opened_on(alloc, &mut disk)?;
    Ok(end == 64 && records.len() == 0 && is_made(disk.image(), wanted))
}

// Sizes of files, and of the stores that they are made.
const NEW: &[(usize, usize)] = &[(0, 65), (1, 65), (64, 65), (65, 65), (66, 66), (200, 200)];

#[test]
fn a_new_store_keeps_what_lies_behind_its_front(rt: HostRuntime) {
    for (size, wanted) in NEW {
        assert!(rt; makes(rt.alloc(), *size, *wanted) == Ok(true));
    }
}
