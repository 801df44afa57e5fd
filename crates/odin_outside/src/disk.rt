// The file that the store is kept in, and what crashes may leave of it.
ghost use Rattle.std.specs.Prelude.{◌≡◌, ◌+◌, ◌^◌, ◌≤◌, ℕ, List, IsTrue, length, IfOk, OnOk, OnErr};
ghost use Rattle.odin_outside.specs.Causes.{HasCause};
ghost use Rattle.odin_outside.specs.Disk.{Telling, MayLeave, ChangesPending, CountsWork, wrote, cut_to, same_pending, synced_as, size_with};
ghost use Rattle.odin_outside.specs.Disk.{SeesSame, Gives, SeesWritten, SeesTorn, SeesTaken, SeesCut};

use crate::failed::Failed;

/// The file that the store is kept in. What its calls say of bytes and of crashes holds where it follows the model of a disk.
pub trait Disk {
    /// What it tells of its bytes and of what crashes leave.
    ghost told: { Self → Telling };

    /// Its size in bytes.
    ghost size_of: { Self → ℕ };

    /// How often it has failed.
    ghost faults: { Self → ℕ };

    fn size(&mut self) -> Result<u64, Failed>
        ensures size { IfOk result (λ n. n ≡ size_of self.old) }
        ensures kept { OnOk result (size_of self.new ≡ size_of self.old) }
        ensures seen { SeesSame (told self.old) (told self.new) }
        ensures goes { ChangesPending same_pending (told self.old) (told self.new) result }
        ensures works { CountsWork 0 (told self.old).work (told self.new).work result }
        ensures cause { HasCause (faults self.old) (faults self.new) result };

    /// Reads the bytes from `at` on, as many as the buffer has.
    fn read(&mut self, at: u64, into: &mut [u8]) -> Result<(), Failed>
        requires { at + length into.old ≤ size_of self.old }
        ensures bytes { OnOk result (Gives at (length into.old) (told self.old) into.new) }
        ensures kept { OnOk result (size_of self.new ≡ size_of self.old) }
        ensures seen { SeesSame (told self.old) (told self.new) }
        ensures goes { ChangesPending same_pending (told self.old) (told self.new) result }
        ensures works { CountsWork 0 (told self.old).work (told self.new).work result }
        ensures cause { HasCause (faults self.old) (faults self.new) result };

    /// Writes the bytes from `at` on, over what was there and after it.
    fn write_at(&mut self, at: u64, bytes: &[u8]) -> Result<(), Failed>
        requires inside { at ≤ size_of self.old }
        requires end { at + length bytes.now ≤ 2 ^ 30 }
        ensures written { OnOk result (SeesWritten at bytes.now (told self.old) (told self.new)) }
        ensures size { OnOk result (size_of self.new ≡ size_with (size_of self.old) at bytes.now) }
        ensures err { OnErr result (SeesTorn at bytes.now (told self.old) (told self.new)) }
        ensures goes { ChangesPending (wrote at (length bytes.now)) (told self.old)
            (told self.new) result }
        ensures works { CountsWork (length bytes.now) (told self.old).work
            (told self.new).work result }
        ensures cause { HasCause (faults self.old) (faults self.new) result };

    /// Takes the bytes from `size` on away.
    fn cut(&mut self, size: u64) -> Result<(), Failed>
        requires { size ≤ size_of self.old }
        ensures seen { OnOk result (SeesTaken size (told self.old) (told self.new)) }
        ensures size { OnOk result (size_of self.new ≡ size) }
        ensures err { OnErr result (SeesCut size (told self.old) (told self.new)) }
        ensures goes { ChangesPending (cut_to size) (told self.old) (told self.new) result }
        ensures works { CountsWork 0 (told self.old).work (told self.new).work result }
        ensures cause { HasCause (faults self.old) (faults self.new) result };

    /// Returns once what was written is there after a crash too.
    fn sync(&mut self) -> Result<(), Failed>
        ensures kept { OnOk result (size_of self.new ≡ size_of self.old) }
        ensures seen { SeesSame (told self.old) (told self.new) }
        ensures goes { ChangesPending (synced_as (told self.old)) (told self.old)
            (told self.new) result }
        ensures works { CountsWork 0 (told self.old).work (told self.new).work result }
        ensures cause { HasCause (faults self.old) (faults self.new) result };

    /// The size is that of what a read gives.
    ghost sized: { (disk : Self) → IsTrue (told disk).follows → size_of disk ≡ length (told disk).seen };

    /// What a read gives is one of the images.
    ghost reads_image: { (disk : Self) → IsTrue (told disk).follows → MayLeave (told disk) (told disk).seen };

    /// This moment is one of those since an earlier one.
    ghost counts_now: { (disk : Self) (t : ℕ) (c : List ℕ) → IsTrue (told disk).follows → t ≤ (told disk).moment → MayLeave (told disk) c → (told disk).left_since t c };

    /// Since this moment there is no other.
    ghost only_now: { (disk : Self) (c : List ℕ) → IsTrue (told disk).follows → (told disk).left_since (told disk).moment c → MayLeave (told disk) c };
}
