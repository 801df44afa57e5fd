// Writes and cuts that are on the disk when they return.
ghost use Rattle.std.specs.Prelude.{◌≡◌, ◌+◌, ◌^◌, ◌≤◌, length, OnOk};
ghost use Rattle.odin_outside.specs.Causes.{HasCause};
ghost use Rattle.odin_outside.specs.Disk.{IsQuiet, SeesTaken};
ghost use Rattle.odin_journal.specs.Moments.{grown, LeavesCut, LeavesTorn, Works, WritesAt};

use odin_outside::{Disk, Failed};

/// Writes the bytes from `at` on, and syncs.
pub fn write_synced<D: Disk>(disk: &mut D, at: u64, bytes: &[u8]) -> Result<(), Failed>
    requires inside { at ≤ D.size_of disk.old }
    requires end { at + length bytes.now ≤ 2 ^ 30 }
    ensures ok { OnOk result (IsQuiet (D.told disk.old) → IsQuiet (D.told disk.new)) }
    ensures written { OnOk result (WritesAt at bytes.now (D.told disk.old) (D.told disk.new)) }
    ensures any_moment { LeavesTorn at (length bytes.now) (D.told disk.old) (D.told disk.new) }
    ensures size { OnOk result (D.size_of disk.new ≡ grown (D.size_of disk.old) at bytes.now) }
    ensures works { Works (length bytes.now) 2 (D.told disk.old) (D.told disk.new) }
    ensures cause { HasCause (D.faults disk.old) (D.faults disk.new) result }
{
    disk.write_at(at, bytes)?;
    disk.sync()
}

/// Takes the bytes from `size` on away, and syncs.
pub fn cut_synced<D: Disk>(disk: &mut D, size: u64) -> Result<(), Failed>
    requires { size ≤ D.size_of disk.old }
    ensures ok { OnOk result (IsQuiet (D.told disk.old) → IsQuiet (D.told disk.new)) }
    ensures taken { OnOk result (SeesTaken size (D.told disk.old) (D.told disk.new)) }
    ensures any_moment { LeavesCut size (D.told disk.old) (D.told disk.new) }
    ensures size { OnOk result (D.size_of disk.new ≡ size) }
    ensures works { Works 0 2 (D.told disk.old) (D.told disk.new) }
    ensures cause { HasCause (D.faults disk.old) (D.faults disk.new) result }
{
    disk.cut(size)?;
    disk.sync()
}
