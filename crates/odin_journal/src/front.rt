// The making of a new store file.
ghost use Rattle.std.specs.Prelude.{◌≡◌, ◌≤◌, ◌<◌, IsTrue, IfOk, IfErr, OnOk};
ghost use Rattle.odin_outside.specs.Causes.{HasCause};
ghost use Rattle.meaning_records.specs.Front.{front_size};
ghost use Rattle.odin_journal.specs.Faults.{JournalFaultIsCounted, IsReadFault};
ghost use Rattle.odin_journal.specs.Moments.{HasStoreSize, IsLookAt, StaysQuiet, Works};
ghost use Rattle.odin_journal.specs.Reads.{IsLong};
ghost use Rattle.odin_journal.specs.Rest.{ClearsNew, MakesCleared, MakesNew, StaysCleared, StaysEmpty};

use crate::fault::JournalFault;
use crate::writes::write_synced;
use object_values::STORE_LIMIT;
use odin_outside::{Disk, Failed};

/// The size of a front, after which the records of a new store start.
pub const FRONT_SIZE: u64 = 64;

// After the byte at 0: the rest of the name, no second start, and a closed gate where the first one points.
const BLANK_FRONT: &[u8; 64] =
    b"DINSTO1\0\0\0\0\0\0\0\0\0\0\0\0\0\0\0\x40\0\0\0\0\0\0\0\0\0\0\0\0\0\0\0\0\0\0\0\0\0\0\0\0\0\0\0\0\0\0\0\0\0\0\0\0\0\0\0\0\0";

/// The size of a file, and whether it counts as new.
#[derive(Clone, Copy)]
pub struct Looked {
    pub size: u64,
    pub is_new: bool,
}

/// Looks at a file, which may be a store of another length than the longest.
pub fn look<D: Disk>(disk: &mut D) -> Result<Looked, JournalFault>
    ensures look { IfOk result (IsLookAt (D.told disk.old)) }
    ensures size { IfOk result (HasStoreSize (D.size_of disk.new)) }
    ensures empty { D.size_of disk.old ≡ 0 → IfOk result (λ looked. IsTrue looked.is_new) }
    ensures untouched { StaysQuiet (D.told disk.old) (D.told disk.new) }
    ensures err { IfErr result (IsReadFault (IsLong (D.told disk.old))) }
    ensures works { Works 0 2 (D.told disk.old) (D.told disk.new) }
    ensures cause { JournalFaultIsCounted (D.faults disk.old) (D.faults disk.new) result }
{
    let size = disk.size()?;
    if size > STORE_LIMIT {
        return Err(JournalFault::NotOurs(0));
    }
    if size <= 1 {
        return Ok(Looked { size, is_new: true });
    }
    let mut first = [0];
    disk.read(0, &mut first)?;
    Ok(Looked {
        size,
        is_new: first[0] == 0,
    })
}

/// Makes a file that counts as new a store without records.
pub fn make_new<D: Disk>(disk: &mut D, size: u64) -> Result<(), Failed>
    requires { size ≡ D.size_of disk.old }
    ensures ok { OnOk result (MakesNew (D.told disk.old) (D.told disk.new)) }
    ensures any_moment { StaysEmpty (D.told disk.old) (D.told disk.new) }
    ensures inside { OnOk result (front_size < D.size_of disk.new) }
    ensures works { Works 66 6 (D.told disk.old) (D.told disk.new) }
    ensures cause { HasCause (D.faults disk.old) (D.faults disk.new) result }
{
    clear_first(disk, size)?;
    write_front(disk)
}

// Makes the byte at 0 a 0, where the file has at most one byte.
fn clear_first<D: Disk>(disk: &mut D, size: u64) -> Result<(), Failed>
    requires { size ≡ D.size_of disk.old }
    ensures ok { OnOk result (ClearsNew (D.told disk.old) (D.told disk.new)) }
    ensures any_moment { StaysEmpty (D.told disk.old) (D.told disk.new) }
    ensures inside { OnOk result (1 ≤ D.size_of disk.new) }
    ensures works { Works 1 2 (D.told disk.old) (D.told disk.new) }
    ensures cause { HasCause (D.faults disk.old) (D.faults disk.new) result }
{
    if size > 1 {
        return Ok(());
    }
    write_synced(disk, 0, &[0])
}

// Writes the front of a file whose byte at 0 is 0, and then the byte that marks it as a store.
fn write_front<D: Disk>(disk: &mut D) -> Result<(), Failed>
    requires { 1 ≤ D.size_of disk.old }
    ensures ok { OnOk result (MakesCleared (D.told disk.old) (D.told disk.new)) }
    ensures any_moment { StaysCleared (D.told disk.old) (D.told disk.new) }
    ensures inside { OnOk result (front_size < D.size_of disk.new) }
    ensures works { Works 65 4 (D.told disk.old) (D.told disk.new) }
    ensures cause { HasCause (D.faults disk.old) (D.faults disk.new) result }
{
    write_synced(disk, 1, BLANK_FRONT)?;
    write_synced(disk, 0, b"O")
}
