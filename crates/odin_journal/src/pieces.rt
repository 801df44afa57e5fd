// Pieces of a store file: many bytes that one call reads, and of which records are cut.
ghost use Rattle.std.specs.Prelude.{◌≡◌, ◌↔◌, ◌+◌, ◌^◌, ◌<◌, ◌≤◌, IfErr, IfOk, IsTrue, OnOk};
ghost use Rattle.odin_journal.specs.Faults.{JournalFaultIsCounted, IsReadFault, nowhere};
ghost use Rattle.odin_journal.specs.Moments.{IsOnlyRead, IsPlace, Works};
ghost use Rattle.odin_journal.specs.Pieces.{GivesOn, IsCutOf, IsInPiece, IsPieceAt, IsSeenAt, IsWithin, ReadsOn};

use crate::fault::JournalFault;
use object_values::{Bytes, Memory, Text};
use odin_outside::Disk;
use std::alloc::Global;

/// How many bytes one call reads: so many that the call costs little beside them, and so few that what is cut of them keeps little else in memory.
const PIECE_SIZE: u64 = 1_048_576;

/// Bytes of a file that one call read, from an offset on. What is cut of them shares their buffer.
pub struct Piece {
    from: u64,
    bytes: Text,
}

impl Drop for Piece {
    fn drop(self) {
        let Piece { from: _, bytes } = self;
        drop(bytes);
    }
}

impl Piece {
    /// The piece from an offset on.
    pub fn read<D: Disk>(
        alloc: Global,
        disk: &mut D,
        from: u64,
        size: u64,
    ) -> Result<Piece, JournalFault>
        requires { IsPlace (D.size_of disk.old) size from }
        ensures piece { IfOk result (IsPieceAt (D.told disk.new) size from) }
        ensures from { IfOk result (λ piece. piece.from ≡ from) }
        ensures left { IsOnlyRead (D.told disk.old) (D.told disk.new)
            (D.size_of disk.old) (D.size_of disk.new) result }
        ensures err { IfErr result (IsReadFault nowhere) }
        ensures works { Works 0 1 (D.told disk.old) (D.told disk.new) }
        ensures cause { JournalFaultIsCounted (D.faults disk.old) (D.faults disk.new) result }
    {
        let count = (size - from).min(PIECE_SIZE);
        let bytes = read_bytes(alloc, disk, from, count)?;
        Ok(Piece {
            from,
            bytes: Text::of(bytes)?,
        })
    }

    /// So many bytes from an offset on: cut out of this piece or of the next one, which takes its place, or, where no piece has so many, read alone.
    pub fn cut<D: Disk>(
        &mut self,
        alloc: Global,
        disk: &mut D,
        at: u64,
        count: u64,
        size: u64,
    ) -> Result<Text, JournalFault>
        requires place { IsPlace (D.size_of disk.old) size at }
        requires inside { at + count ≤ size }
        requires piece { IsPieceAt (D.told disk.old) size at self.old }
        ensures bytes { IfOk result (IsCutOf (D.told disk.old) at count) }
        ensures left { IsOnlyRead (D.told disk.old) (D.told disk.new)
            (D.size_of disk.old) (D.size_of disk.new) result }
        ensures err { IfErr result (IsReadFault nowhere) }
        ensures reads { OnOk result (ReadsOn 1 size at count self.old self.new
            (D.told disk.old) (D.told disk.new)) }
        ensures cause { JournalFaultIsCounted (D.faults disk.old) (D.faults disk.new) result }
    {
        if count > PIECE_SIZE {
            let bytes = read_bytes(alloc, disk, at, count)?;
            return Ok(Text::of(bytes)?);
        }
        if self.has(at, count) {
            return Ok(self.part(at, count)?);
        }
        *self = Piece::read(alloc, disk, at, size)?;
        Ok(self.part(at, count)?)
    }

    // Whether it has so many bytes from an offset on.
    fn has(&self, at: u64, count: u64) -> bool
        requires { at + count < 2 ^ 64 }
        ensures { IsTrue result ↔ IsWithin self.now at count }
    {
        self.from <= at && at + count <= self.from.saturating_add(self.bytes.len() as u64)
    }

    // So many of its bytes, from an offset on.
    fn part(&self, at: u64, count: u64) -> Result<Text, Memory>
        requires fits { at + count < 2 ^ 64 }
        requires within { IsWithin self.now at count }
        ensures { IfOk result (IsInPiece self.now at count) }
    {
        let start = at - self.from;
        let end = at + count - self.from;
        self.bytes.part(start as usize, end as usize)
    }
}

/// So many bytes from `at` on, read alone.
pub fn read_bytes<D: Disk>(
    alloc: Global,
    disk: &mut D,
    at: u64,
    count: u64,
) -> Result<Bytes, JournalFault>
    requires { at + count ≤ D.size_of disk.old }
    ensures bytes { IfOk result (IsCutOf (D.told disk.old) at count) }
    ensures seen { IfOk result (IsSeenAt (D.told disk.new) at) }
    ensures gives { GivesOn (D.told disk.old) (D.told disk.new) }
    ensures left { IsOnlyRead (D.told disk.old) (D.told disk.new)
        (D.size_of disk.old) (D.size_of disk.new) result }
    ensures err { IfErr result (IsReadFault nowhere) }
    ensures works { Works 0 1 (D.told disk.old) (D.told disk.new) }
    ensures cause { JournalFaultIsCounted (D.faults disk.old) (D.faults disk.new) result }
{
    let mut bytes = vec![in alloc; 0; count as usize]?;
    disk.read(at, bytes.as_mut_slice())?;
    Ok(Bytes::from_vec(bytes))
}
