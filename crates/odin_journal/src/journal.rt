// The journal: an open gate, a length and a payload for each record, and a closed gate after the last.
ghost use Rattle.std.specs.Prelude.{◌≡◌, ◌↔◌, ◌<◌, ◌≤◌, ◌+◌, ◌-◌, ◌^◌, length, IsTrue, IfOk, IfErr, OnOk};
ghost use Rattle.odin_outside.specs.Causes.{HasCause};
ghost use Rattle.meaning_records.specs.Front.{file_limit};
ghost use Rattle.odin_journal.specs.Faults.{JournalFaultIsCounted, FullIsExact, IsOpenFault, IsRefused};
ghost use Rattle.odin_journal.specs.Moments.{Works};
ghost use Rattle.odin_journal.specs.Pieces.{most_reads};
ghost use Rattle.odin_journal.specs.Rest.{AddsBytes, AddsTo, IsAddedTo, JournalAfter, IsReady, KeepsOrAddsBytes, KeepsRecords, LeavesAdded, OnlyReads, OpensEmptyFile, OpensGate, OpensStarted};
ghost use Rattle.odin_journal.specs.Rewrites.{copy_size, IsFit, IsLetBe, LeavesReplaced, ReplacesWhere};

use crate::fault::JournalFault;
use crate::front::{FRONT_SIZE, look, make_new};
use crate::reads::read_store;
use crate::rewrite::{copy_records, place_for, replace, size_of_copy};
use crate::start::Start;
use crate::writes::write_synced;
use framed_payloads::FramedPayload;
use object_values::{Bytes, STORE_LIMIT, Seq, Text};
use odin_outside::{Disk, Failed};
use std::alloc::Global;

// Where the records of a new store start.
const FIRST_START: Start = Start {
    place: FRONT_SIZE,
    is_first: true,
};

/// Records on a disk. After a fault of the disk it is spent.
#[derive(Debug, Drop)]
pub struct Journal {
    end: u64,
    start: Start,
    spent: bool,
}

impl Journal {
    /// Opens the journal in a file and gives its whole records, which share the buffers into which it was read. It makes a file that counts as new a store, and repairs nothing else.
    pub fn open<D: Disk>(alloc: Global, disk: &mut D) -> Result<(Journal, Seq<Text>), JournalFault>
        ensures opened { IfOk result (OpensStarted (D.told disk.old) (D.told disk.new)) }
        // A file that doesn't count as new is only read, whatever the answer.
        ensures untouched { OnlyReads (D.told disk.old) (D.told disk.new) }
        ensures any_moment { KeepsRecords (D.told disk.old) (D.told disk.new) }
        ensures refused { IfErr result (IsOpenFault (D.told disk.old) (D.told disk.new)) }
        ensures ready { IfOk result (λ opened. IsReady opened.0 (D.size_of disk.new)) }
        ensures empty { D.size_of disk.old ≡ 0
            → OpensEmptyFile (D.told disk.old) (D.told disk.new) result }
        ensures reads { IfOk result (λ opened. Works 66
            (14 + most_reads (length opened.1) (opened.0.end - opened.0.start.place))
            (D.told disk.old) (D.told disk.new)) }
        ensures cause { JournalFaultIsCounted (D.faults disk.old) (D.faults disk.new) result }
    {
        let looked = look(disk)?;
        if looked.is_new {
            make_new(disk, looked.size)?;
            let journal = Journal {
                end: FRONT_SIZE,
                start: FIRST_START,
                spent: false,
            };
            return Ok((journal, Seq::new(alloc)));
        }
        let (start, (end, records)) = read_store(alloc, disk, looked.size)?;
        let journal = Journal {
            end,
            start,
            spent: false,
        };
        Ok((journal, records))
    }

    /// Where the closed gate stands that ends the records.
    pub fn end(&self) -> u64
        ensures { result ≡ self.now.end }
    {
        self.end
    }

    pub fn spent(&self) -> bool
        ensures { result ≡ self.now.spent }
    {
        self.spent
    }

    /// Adds a record. At `Ok` each crash leaves it. A long payload is better made in its frame (`append_framed`), since this one is copied into one.
    pub fn append<D: Disk>(
        &mut self,
        alloc: Global,
        disk: &mut D,
        payload: &[u8],
    ) -> Result<(), JournalFault>
        requires { IsReady self.old (D.size_of disk.old) }
        ensures added { OnOk result
            (AddsTo self.old self.new payload.now (D.told disk.old) (D.told disk.new)) }
        ensures any_moment { LeavesAdded self.old payload.now (D.told disk.old) (D.told disk.new) }
        ensures full { FullIsExact self.old.end (length payload.now) result }
        ensures same { IsRefused result → (disk.new ≡ disk.old) × (self.new ≡ self.old) }
        ensures state { IsAddedTo self.old self.new payload.now
            (D.told disk.old) (D.told disk.new) (D.size_of disk.new) result }
        ensures works { Works (length payload.now + 6) 4 (D.told disk.old) (D.told disk.new) }
        ensures cause { JournalFaultIsCounted (D.faults disk.old) (D.faults disk.new) result }
    {
        let length = payload.len() as u64;
        if !self.has_room(length) {
            return Err(JournalFault::Full(self.end, length));
        }
        let framed = FramedPayload::of(alloc, payload)?;
        self.append_framed(disk, &framed)
    }

    /// Adds a record out of the buffer in which its payload was made, which is written as it is. At `Ok` each crash leaves it.
    pub fn append_framed<D: Disk>(
        &mut self,
        disk: &mut D,
        payload: &FramedPayload,
    ) -> Result<(), JournalFault>
        requires { IsReady self.old (D.size_of disk.old) }
        ensures added { OnOk result
            (AddsTo self.old self.new payload.now (D.told disk.old) (D.told disk.new)) }
        ensures any_moment { LeavesAdded self.old payload.now (D.told disk.old) (D.told disk.new) }
        ensures full { FullIsExact self.old.end (length payload.now) result }
        ensures same { IsRefused result → (disk.new ≡ disk.old) × (self.new ≡ self.old) }
        ensures state { IsAddedTo self.old self.new payload.now
            (D.told disk.old) (D.told disk.new) (D.size_of disk.new) result }
        ensures works { Works (length payload.now + 6) 4 (D.told disk.old) (D.told disk.new) }
        ensures cause { JournalFaultIsCounted (D.faults disk.old) (D.faults disk.new) result }
    {
        let length = payload.len() as u64;
        if !self.has_room(length) {
            return Err(JournalFault::Full(self.end, length));
        }
        match add(disk, self.end, payload.as_slice()) {
            Ok(()) => {
                self.end += 5 + length;
                Ok(())
            }
            Err(_) => {
                self.spent = true;
                Err(JournalFault::Disk)
            }
        }
    }

    // Whether a record with so long a payload fits after the end.
    fn has_room(&self, length: u64) -> bool
        ensures { IsTrue result ↔ (self.now.end + 6 + length ≤ file_limit) }
    {
        self.end <= STORE_LIMIT - 6 && length <= STORE_LIMIT - 6 - self.end
    }

    /// Replaces the records by these. `false` where a copy of them fits in neither place, and then nothing is changed.
    pub fn rewrite<D: Disk>(
        &mut self,
        alloc: Global,
        disk: &mut D,
        records: &[Bytes],
    ) -> Result<bool, JournalFault>
        requires { IsReady self.old (D.size_of disk.old) }
        ensures replaced { IfOk result (ReplacesWhere self.old self.new records.now
            (D.told disk.old) (D.told disk.new)) }
        ensures any_moment { LeavesReplaced self.old records.now
            (D.told disk.old) (D.told disk.new) }
        ensures fits { IsFit self.old.start.place self.old.end (copy_size records.now) result }
        ensures same { IsLetBe result → (disk.new ≡ disk.old) × (self.new ≡ self.old) }
        ensures state { JournalAfter self.new (D.size_of disk.new) result }
        ensures works { Works (copy_size records.now + 9) 8 (D.told disk.old) (D.told disk.new) }
        ensures cause { JournalFaultIsCounted (D.faults disk.old) (D.faults disk.new) result }
    {
        let Some(size) = size_of_copy(records) else {
            return Ok(false);
        };
        let Some(place) = place_for(self.start.place, self.end, size) else {
            return Ok(false);
        };
        let copy = copy_records(alloc, records, size)?;
        let start = Start {
            place,
            is_first: !self.start.is_first,
        };
        match replace(disk, start, copy.as_slice()) {
            Ok(()) => {
                self.start = start;
                self.end = place + size - 1;
                Ok(true)
            }
            Err(_) => {
                self.spent = true;
                Err(JournalFault::Disk)
            }
        }
    }
}

// Puts the bytes after the closed gate at the end, and then opens it.
fn add<D: Disk>(disk: &mut D, end: u64, bytes: &[u8]) -> Result<(), Failed>
    requires inside { end < D.size_of disk.old }
    requires room { end + 1 + length bytes.now ≤ 2 ^ 30 }
    ensures ok { OnOk result (AddsBytes end bytes.now (D.told disk.old) (D.told disk.new)) }
    ensures any_moment { KeepsOrAddsBytes end bytes.now (D.told disk.old) (D.told disk.new) }
    ensures bytes { OnOk result (OpensGate end bytes.now (D.told disk.old) (D.told disk.new)) }
    ensures inside { OnOk result (end + length bytes.now < D.size_of disk.new) }
    ensures works { Works (length bytes.now + 1) 4 (D.told disk.old) (D.told disk.new) }
    ensures cause { HasCause (D.faults disk.old) (D.faults disk.new) result }
{
    write_synced(disk, end + 1, bytes)?;
    write_synced(disk, end, &[1])
}
