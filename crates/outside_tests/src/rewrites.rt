// Rewrites of a journal: the bytes of its file, stops within each call, and calls that fail.
use super::disks::crashed;
use super::journals::{disk_of, opened};
use object_values::{Bytes, Memory, Seq};
use odin_fakes::{CrashDisk, FailDisk, MemDisk};
use odin_journal::{Journal, JournalFault};
use odin_outside::Disk;
use std::alloc::Global;
use std::test::Fail;

fn one_record(alloc: Global, record: &[u8]) -> Result<Seq<Bytes>, Memory> {
    let mut records = Seq::new(alloc);
    records.push(Bytes::from_slice(alloc, record)?)?;
    Ok(records)
}

// The ends of a new journal with `hi`, once `yo` is in its place, and once `ok` is.
fn replaced<D: Disk>(alloc: Global, disk: &mut D) -> Result<(u64, u64), JournalFault> {
    let yo = one_record(alloc, b"yo")?;
    let ok = one_record(alloc, b"ok")?;
    let (mut journal, _) = Journal::open(alloc, disk)?;
    journal.append(alloc, disk, b"hi")?;
    if !journal.rewrite(alloc, disk, yo.as_slice())? {
        return Ok((0, 0));
    }
    let first = journal.end();
    if !journal.rewrite(alloc, disk, ok.as_slice())? {
        return Ok((first, 0));
    }
    Ok((first, journal.end()))
}

// The same, but for `ok`.
fn replaced_once<D: Disk>(alloc: Global, disk: &mut D) -> Result<u64, JournalFault> {
    let yo = one_record(alloc, b"yo")?;
    let (mut journal, _) = Journal::open(alloc, disk)?;
    journal.append(alloc, disk, b"hi")?;
    if !journal.rewrite(alloc, disk, yo.as_slice())? {
        return Ok(0);
    }
    Ok(journal.end())
}

// Whether a file has one record, and it is one of these two.
fn has_either(alloc: Global, image: &[u8], one: &[u8], other: &[u8]) -> Result<bool, JournalFault> {
    let (_, records) = opened(alloc, image)?;
    Ok(match records.as_slice() {
        [record] => record.as_slice() == one || record.as_slice() == other,
        _ => false,
    })
}

// A copy after the journal: the second start leads to it and is in use.
const YO: &[u8; 80] =
    b"ODINSTO1\x01\0\0\0\0\0\0\0\0\0\0\0\0\0\0\x40\0\0\0\0\0\0\0\x48\0\0\0\0\0\0\0\0\0\0\0\0\0\0\0\0\0\0\0\0\0\0\0\0\0\0\0\0\0\0\0\0\x01\0\0\0\x02hi\0\x01\0\0\0\x02yo\0";

// A copy at 64, with nothing after it: the first start is in use again.
const OK: &[u8; 72] =
    b"ODINSTO1\0\0\0\0\0\0\0\0\0\0\0\0\0\0\0\x40\0\0\0\0\0\0\0\x48\0\0\0\0\0\0\0\0\0\0\0\0\0\0\0\0\0\0\0\0\0\0\0\0\0\0\0\0\0\0\0\0\x01\0\0\0\x02ok\0";

// Whether the copies of both rewrites stand where they are to, and each is read again.
fn stands(alloc: Global) -> Result<bool, JournalFault> {
    let mut once = disk_of(alloc, b"")?;
    let mut twice = disk_of(alloc, b"")?;
    let ends = (
        replaced_once(alloc, &mut once)?,
        replaced(alloc, &mut twice)?,
    );
    Ok(
        ends == (79, (79, 71))
            && once.image() == YO.as_slice()
            && twice.image() == OK.as_slice()
            && has_either(alloc, once.image(), b"yo", b"yo")?
            && has_either(alloc, twice.image(), b"ok", b"ok")?,
    )
}

#[test]
fn a_copy_stands_behind_the_journal_or_at_64(rt: HostRuntime) -> Result<(), Fail> {
    assert!(rt; stands(rt.alloc()) == Ok(true));
    Ok(())
}

// The records before and after the rewrite that a call belongs to, the first call of the second one being the 18th.
fn around(call: u32) -> (&'static [u8], &'static [u8]) {
    if call < 18 {
        (b"hi", b"yo")
    } else {
        (b"yo", b"ok")
    }
}

// Whether a stop within a call of a rewrite leaves the old record or the new one.
fn is_either(
    alloc: Global,
    disk: &CrashDisk,
    moment: u32,
    choice: u64,
) -> Result<bool, JournalFault> {
    let image = crashed(alloc, disk, moment, choice)?;
    let (before, after) = around(moment);
    has_either(alloc, image.as_slice(), before, after)
}

// The first call and choice whose stop leaves something else.
fn first_lost(alloc: Global, disk: &CrashDisk) -> Result<Option<(u32, u64)>, JournalFault> {
    for moment in 12..26 {
        for choice in 0..64 {
            if !is_either(alloc, disk, moment, choice)? {
                return Ok(Some((moment, choice)));
            }
        }
    }
    Ok(None)
}

// Whether both rewrites are done, and each stop within one of their 14 calls leaves the old record or the new one.
fn is_never_lost(alloc: Global, disk: &mut CrashDisk) -> bool {
    replaced(alloc, disk) == Ok((79, 71))
        && disk.calls() == 25
        && first_lost(alloc, disk) == Ok(None)
}

#[test]
fn a_stop_leaves_the_old_records_or_the_new_ones(rt: HostRuntime) -> Result<(), Fail> {
    let mut disk = disk_of(rt.alloc(), b"")?;
    assert!(rt; is_never_lost(rt.alloc(), &mut disk));
    Ok(())
}

// A disk with an empty file whose call of this number fails.
fn failing_disk(alloc: Global, call: u32) -> Result<FailDisk, Memory> {
    let mut fails = Seq::new(alloc);
    fails.push(call)?;
    let disk = MemDisk::new(alloc, Bytes::new(alloc), 200, 30)?;
    Ok(FailDisk::new(disk, fails))
}

// Whether a call of a rewrite that fails is told, and leaves the old record or the new one.
fn is_told(alloc: Global, call: u32) -> Result<bool, JournalFault> {
    let mut disk = failing_disk(alloc, call)?;
    let told = replaced(alloc, &mut disk);
    let (before, after) = around(call);
    Ok(told == Err(JournalFault::Disk) && has_either(alloc, disk.inner().image(), before, after)?)
}

#[test]
fn a_call_that_fails_leaves_the_old_records_or_the_new_ones(rt: HostRuntime) {
    for call in 12..26 {
        assert!(rt; is_told(rt.alloc(), call) == Ok(true));
    }
}
