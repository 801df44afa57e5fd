// The reading of an existing store file.
ghost use Rattle.std.specs.Prelude.{◌≡◌, ◌+◌, ◌-◌, ◌<◌, ◌≤◌, length, IfOk, IfErr, IfSome, IfNone};
ghost use Rattle.meaning_records.specs.Front.{front_size};
ghost use Rattle.odin_journal.specs.Faults.{JournalFaultIsCounted, IsReadFault, nowhere};
ghost use Rattle.odin_journal.specs.Marks.{HasMarks};
ghost use Rattle.odin_journal.specs.Moments.{IsOnlyRead, IsPlace, Works};
ghost use Rattle.odin_journal.specs.Pieces.{most_reads, FindsRecord, IsPieceAt, ReadsRecord};
ghost use Rattle.odin_journal.specs.Reads.{BreaksFrom, BreaksHere, BreaksStore, HasNoFront, HasRecords, HasStart, HasStore, IsShut, IsSpan};
ghost use Rattle.odin_journal.specs.Starts.{IsStartOf};

use crate::fault::JournalFault;
use crate::front::FRONT_SIZE;
use crate::pieces::{Piece, read_bytes};
use crate::start::Start;
use byteorder::{BigEndian, ByteOrder};
use object_values::{Seq, Text};
use odin_bytes::take_u32;
use odin_outside::Disk;
use std::alloc::Global;

/// The payload of the record at a gate, where the gate is open.
pub fn read_record<D: Disk>(
    alloc: Global,
    disk: &mut D,
    piece: &mut Piece,
    gate: u64,
    size: u64,
) -> Result<Option<Text>, JournalFault>
    requires place { IsPlace (D.size_of disk.old) size gate }
    requires piece { IsPieceAt (D.told disk.old) size gate piece.old }
    ensures some { IfOk result (λ read. IfSome read (FindsRecord (D.told disk.old) size gate)) }
    ensures none { IfOk result (λ read. IfNone read (IsShut (D.told disk.old) size gate)) }
    ensures left { IsOnlyRead (D.told disk.old) (D.told disk.new)
        (D.size_of disk.old) (D.size_of disk.new) result }
    ensures err { IfErr result (IsReadFault (BreaksHere (D.told disk.old) size gate)) }
    ensures reads { IfOk result (ReadsRecord size gate piece.old piece.new
        (D.told disk.old) (D.told disk.new)) }
    ensures cause { JournalFaultIsCounted (D.faults disk.old) (D.faults disk.new) result }
{
    let head = piece.cut(alloc, disk, gate, (size - gate).min(5), size)?;
    let bytes = head.as_slice();
    if bytes[0] != 1 {
        return Ok(None);
    }
    let Some((length, _)) = take_u32(bytes, 1) else {
        return Err(JournalFault::NotOurs(gate));
    };
    if size - gate < 6 + length as u64 {
        return Err(JournalFault::NotOurs(gate));
    }
    drop(head);
    Ok(Some(piece.cut(alloc, disk, gate + 5, length as u64, size)?))
}

/// The payloads of the whole records from a start on, and the closed gate that ends them.
pub fn read_records<D: Disk>(
    alloc: Global,
    disk: &mut D,
    start: u64,
    size: u64,
) -> Result<(u64, Seq<Text>), JournalFault>
    requires { IsPlace (D.size_of disk.old) size start }
    ensures whole { IfOk result (HasRecords (D.told disk.old) size start) }
    ensures closed { IfOk result (λ read. IsShut (D.told disk.old) size read.0) }
    ensures inside { IfOk result (λ read. (start ≤ read.0) × (read.0 < size)) }
    ensures left { IsOnlyRead (D.told disk.old) (D.told disk.new)
        (D.size_of disk.old) (D.size_of disk.new) result }
    ensures err { IfErr result (IsReadFault (BreaksFrom (D.told disk.old) size start)) }
    ensures works { IfOk result (λ read. Works 0 (most_reads (length read.1) (read.0 - start))
        (D.told disk.old) (D.told disk.new)) }
    ensures cause { JournalFaultIsCounted (D.faults disk.old) (D.faults disk.new) result }
{
    let mut piece = Piece::read(alloc, disk, start, size)?;
    let mut records = Seq::new(alloc);
    let mut gate = start;
    'gates: while let Some(payload) = read_record(alloc, disk, &mut piece, gate, size)? {
        gate += 5 + payload.len() as u64;
        records.push(payload)?;
    }
    Ok((gate, records))
}

/// Where the records of a file start that has a front.
pub fn read_start<D: Disk>(
    alloc: Global,
    disk: &mut D,
    size: u64,
) -> Result<Option<Start>, JournalFault>
    requires { size ≡ D.size_of disk.old }
    ensures some { IfOk result (λ read. IfSome read (HasStart (D.told disk.old) size)) }
    ensures inside { IfOk result (λ read. IfSome read (λ start.
        (front_size ≤ start.place) × (start.place < size))) }
    ensures none { IfOk result (λ read. IfNone read (HasNoFront (D.told disk.old) size)) }
    ensures left { IsOnlyRead (D.told disk.old) (D.told disk.new)
        (D.size_of disk.old) (D.size_of disk.new) result }
    ensures err { IfErr result (IsReadFault nowhere) }
    ensures works { Works 0 1 (D.told disk.old) (D.told disk.new) }
    ensures cause { JournalFaultIsCounted (D.faults disk.old) (D.faults disk.new) result }
{
    if size <= FRONT_SIZE {
        return Ok(None);
    }
    let front = read_bytes(alloc, disk, 0, FRONT_SIZE)?;
    let Some(start) = start_in(front.as_slice()) else {
        return Ok(None);
    };
    if start.place < FRONT_SIZE || start.place >= size {
        return Ok(None);
    }
    Ok(Some(start))
}

// The start in use that a front tells, where its marks are those of a store.
fn start_in(front: &[u8]) -> Option<Start>
    requires { length front.now ≡ front_size }
    ensures some { IfSome result (λ start. HasMarks front.now) }
    ensures start { IfSome result (IsStartOf front.now) }
    ensures none { IfNone result (HasMarks front.now → ⊥) }
{
    let named = &front[1..8] == b"DINSTO1".as_slice();
    let blank = &front[9..16] == [0; 7].as_slice() && &front[32..64] == [0; 32].as_slice();
    if !named || !blank {
        return None;
    }
    if front[8] % 2 == 0 {
        Some(Start {
            place: BigEndian::read_u64(&front[16..24]),
            is_first: true,
        })
    } else {
        Some(Start {
            place: BigEndian::read_u64(&front[24..32]),
            is_first: false,
        })
    }
}

/// Where the records of a file start that doesn't count as new, the closed gate that ends them, and the payloads of the whole ones.
pub fn read_store<D: Disk>(
    alloc: Global,
    disk: &mut D,
    size: u64,
) -> Result<(Start, (u64, Seq<Text>)), JournalFault>
    requires { size ≡ D.size_of disk.old }
    ensures start { IfOk result (λ read. HasStart (D.told disk.old) size read.0) }
    ensures store { IfOk result (λ read. HasStore (D.told disk.old) size read.1) }
    ensures inside { IfOk result (λ read. IsSpan size read.0.place read.1.0) }
    ensures left { IsOnlyRead (D.told disk.old) (D.told disk.new)
        (D.size_of disk.old) (D.size_of disk.new) result }
    ensures err { IfErr result (IsReadFault (BreaksStore (D.told disk.old) size)) }
    ensures works { IfOk result (λ read.
        Works 0 (1 + most_reads (length read.1.1) (read.1.0 - read.0.place))
        (D.told disk.old) (D.told disk.new)) }
    ensures cause { JournalFaultIsCounted (D.faults disk.old) (D.faults disk.new) result }
{
    let Some(start) = read_start(alloc, disk, size)? else {
        return Err(JournalFault::NotOurs(0));
    };
    let read = read_records(alloc, disk, start.place, size)?;
    Ok((start, read))
}
