// The replacing of all records: a copy beside them, and then the byte that says where the records start.
ghost use Rattle.std.specs.Prelude.{◌≡◌, ◌<◌, ◌≤◌, ◌+◌, ◌^◌, length, IfOk, IfSome, IfNone, OnOk};
ghost use Rattle.odin_outside.specs.Causes.{HasCause};
ghost use Rattle.meaning_records.specs.Front.{file_limit, front_size};
ghost use Rattle.odin_journal.specs.Moments.{Works};
ghost use Rattle.odin_journal.specs.Rewrites.{copy_of, copy_size, start_field, use_byte, Copies, FitsNowhere, IsCopyPlace, LeavesCopied, LeavesEither, LeavesShortened, LeavesSwitched, PutsCopy, ReplacesBy, Shortens, Switches, WritesCopy, WritesStart};

use crate::front::FRONT_SIZE;
use crate::start::Start;
use crate::writes::{cut_synced, write_synced};
use object_values::{Bytes, Memory, STORE_LIMIT};
use odin_bytes::{put_bytes, put_u8};
use odin_outside::{Disk, Failed};
use std::alloc::Global;

/// The size of a copy of records, where a file may be so long.
pub fn size_of_copy(records: &[Bytes]) -> Option<u64>
    ensures some { IfSome result (λ size. size ≡ copy_size records.now) }
    ensures fits { IfSome result (λ size. size ≤ file_limit) }
    ensures none { IfNone result (file_limit < copy_size records.now) }
{
    let mut size = 1;
    for record in records {
        let more = record.len() as u64;
        if more > STORE_LIMIT - 5 || size > STORE_LIMIT - 5 - more {
            return None;
        }
        size += more + 5;
    }
    Some(size)
}

/// Where a copy of this size is put, beside records from a start to a closed gate.
pub fn place_for(start: u64, end: u64, size: u64) -> Option<u64>
    requires behind_front { front_size ≤ start }
    requires within { end < file_limit }
    ensures some { IfSome result (IsCopyPlace start end size) }
    ensures none { IfNone result (FitsNowhere start end size) }
{
    if size <= start - FRONT_SIZE {
        Some(FRONT_SIZE)
    } else if size < STORE_LIMIT - end {
        Some(end + 1)
    } else {
        None
    }
}

/// The bytes of a copy of records.
pub fn copy_records(alloc: Global, records: &[Bytes], size: u64) -> Result<Bytes, Memory>
    requires whole { size ≡ copy_size records.now }
    requires short { size ≤ file_limit }
    ensures { IfOk result (λ copy. copy ≡ copy_of records.now) }
{
    let mut copy = Bytes::new(alloc);
    copy.reserve_exact(size as usize)?;
    for record in records {
        put_u8(&mut copy, 1)?;
        put_bytes(&mut copy, record.as_slice())?;
    }
    put_u8(&mut copy, 0)?;
    Ok(copy)
}

/// Puts a copy where a start leads that isn't in use, and brings that start into use.
pub fn replace<D: Disk>(disk: &mut D, start: Start, copy: &[u8]) -> Result<(), Failed>
    requires place { (front_size ≤ start.place) × (start.place ≤ D.size_of disk.old) }
    requires room { start.place + length copy.now ≤ 2 ^ 30 }
    ensures ok { OnOk result (ReplacesBy start copy.now (D.told disk.old) (D.told disk.new)) }
    ensures any_moment { LeavesEither start copy.now (D.told disk.old) (D.told disk.new) }
    ensures bytes { OnOk result (WritesCopy start copy.now (D.told disk.old) (D.told disk.new)) }
    ensures size { OnOk result (start.place + length copy.now ≤ D.size_of disk.new) }
    ensures works { Works (length copy.now + 9) 8 (D.told disk.old) (D.told disk.new) }
    ensures cause { HasCause (D.faults disk.old) (D.faults disk.new) result }
{
    put_copy(disk, start, copy)?;
    switch_start(disk, start)?;
    shorten(disk, start.place, copy.len() as u64)
}

// Puts a copy where a start leads that isn't in use.
fn put_copy<D: Disk>(disk: &mut D, start: Start, copy: &[u8]) -> Result<(), Failed>
    requires place { start.place ≤ D.size_of disk.old }
    requires room { start.place + length copy.now ≤ 2 ^ 30 }
    ensures ok { OnOk result (Copies start copy.now (D.told disk.old) (D.told disk.new)) }
    ensures any_moment { LeavesCopied start copy.now (D.told disk.old) (D.told disk.new) }
    ensures written { OnOk result (PutsCopy start copy.now (D.told disk.old) (D.told disk.new)) }
    ensures size { OnOk result (start.place + length copy.now ≤ D.size_of disk.new) }
    ensures works { Works (length copy.now) 2 (D.told disk.old) (D.told disk.new) }
    ensures cause { HasCause (D.faults disk.old) (D.faults disk.new) result }
{
    write_synced(disk, start.place, copy)
}

// Writes where a start leads, and then the byte that says that it is in use.
fn switch_start<D: Disk>(disk: &mut D, start: Start) -> Result<(), Failed>
    requires { front_size ≤ D.size_of disk.old }
    ensures ok { OnOk result (Switches start (D.told disk.old) (D.told disk.new)) }
    ensures any_moment { LeavesSwitched start (D.told disk.old) (D.told disk.new) }
    ensures bytes { OnOk result (WritesStart start (D.told disk.old) (D.told disk.new)) }
    ensures size { OnOk result (D.size_of disk.new ≡ D.size_of disk.old) }
    ensures works { Works 9 4 (D.told disk.old) (D.told disk.new) }
    ensures cause { HasCause (D.faults disk.old) (D.faults disk.new) result }
{
    let field = start.place.to_be_bytes();
    write_synced(disk, field_of(start.is_first), &field)?;
    write_synced(disk, 8, &[byte_of(start.is_first)])
}

// Where the front holds the first start, or the second.
fn field_of(is_first: bool) -> u64
    ensures { result ≡ start_field is_first }
{
    if is_first { 16 } else { 24 }
}

// The byte at 8 that says that the first start is in use, or the second.
fn byte_of(is_first: bool) -> u8
    ensures { result ≡ use_byte is_first }
{
    if is_first { 0 } else { 1 }
}

// Cuts the file after a copy of this size that stands at 64.
fn shorten<D: Disk>(disk: &mut D, place: u64, size: u64) -> Result<(), Failed>
    requires inside { place + size ≤ D.size_of disk.old }
    requires room { place + size ≤ 2 ^ 30 }
    ensures ok { OnOk result (Shortens place size (D.told disk.old) (D.told disk.new)) }
    ensures any_moment { LeavesShortened place size (D.told disk.old) (D.told disk.new) }
    ensures size { OnOk result (place + size ≤ D.size_of disk.new) }
    ensures works { Works 0 2 (D.told disk.old) (D.told disk.new) }
    ensures cause { HasCause (D.faults disk.old) (D.faults disk.new) result }
{
    if place != FRONT_SIZE {
        return Ok(());
    }
    cut_synced(disk, place + size)
}
