// What the system does with one file.
ghost use Rattle.std.specs.Prelude.{◌≡◌, ◌+◌, ◌^◌, ◌≤◌, ℕ, List, Option, IsTrue, false, length, IfOk, IfSome, OnOk, OnErr};
ghost use Rattle.std.specs.Option.{option_map};
ghost use Rattle.odin_outside.specs.Disk.{Telling, MayLeave, ChangesPending, wrote, cut_to, synced_as};
ghost use Rattle.odin_outside.specs.Disk.{SeesSame, Gives, SeesWritten, SeesTorn, SeesTaken, SeesCut};
ghost use Rattle.odin_real.specs.Hold.{Hold, LockIsOurs, after_change, after_lock, hold_after_look, after_naming, just_made, just_opened, unseen};
ghost use Rattle.odin_real.specs.Raw.{HasSize, IsInside, IsNothing, DiskStays};

use crate::lock::LockFault;
use std::io;

/// What the system does with one file that is known by a path. It may not be there yet. What is said of bytes and of crashes holds where it follows the
/// model of a disk.
pub trait RawFile {
    /// What it tells of its bytes and of what crashes leave.
    ghost told: { Self → Telling };

    /// What it tells of its lock, its size and its name.
    ghost hold: { Self → Option Hold };

    /// Opens what stands at the path, and makes nothing. `false` is said where nothing stands there.
    fn find(&mut self) -> io::Result<bool>
        ensures absent { IfOk result (λ found. found ≡ false → IsNothing (told self.new)) }
        ensures stays { DiskStays (told self.old) (told self.new) }
        ensures hold { hold self.new ≡ option_map just_opened (hold self.old) };

    /// Makes an empty file at the path, or opens what others made there meanwhile.
    fn make(&mut self) -> io::Result<()>
        ensures stays { DiskStays (told self.old) (told self.new) }
        ensures hold { hold self.new ≡ option_map just_made (hold self.old) };

    /// Takes the lock of the file, for as long as it is open. It doesn't wait.
    fn lock(&mut self) -> Result<(), LockFault>
        ensures stays { DiskStays (told self.old) (told self.new) }
        ensures hold { hold self.new ≡ option_map (after_lock result) (hold self.old) };

    /// The size of the open file. `None` is said where it is no plain file, or where another file or none stands at its path now.
    fn look(&mut self) -> io::Result<Option<u64>>
        ensures size { IfOk result (λ size. IfSome size (HasSize (told self.new))) }
        ensures stays { DiskStays (told self.old) (told self.new) }
        ensures hold { hold self.new ≡ option_map (hold_after_look result) (hold self.old) };

    fn read_at(&mut self, at: u64, into: &mut [u8]) -> io::Result<()>
        requires { LockIsOurs (hold self.old) }
        ensures bytes { OnOk result (Gives at (length into.old) (told self.old) into.new) }
        ensures stays { DiskStays (told self.old) (told self.new) }
        ensures hold { hold self.new ≡ hold self.old };

    fn write_at(&mut self, at: u64, bytes: &[u8]) -> io::Result<()>
        requires ours { LockIsOurs (hold self.old) }
        requires inside { IsInside (told self.old) at }
        requires end { at + length bytes.now ≤ 2 ^ 30 }
        ensures written { OnOk result (SeesWritten at bytes.now (told self.old) (told self.new)) }
        ensures err { OnErr result (SeesTorn at bytes.now (told self.old) (told self.new)) }
        ensures goes { ChangesPending (wrote at (length bytes.now)) (told self.old)
            (told self.new) result }
        ensures hold { hold self.new ≡ option_map after_change (hold self.old) };

    /// Takes the bytes from `size` on away.
    fn cut(&mut self, size: u64) -> io::Result<()>
        requires ours { LockIsOurs (hold self.old) }
        requires inside { IsInside (told self.old) size }
        ensures seen { OnOk result (SeesTaken size (told self.old) (told self.new)) }
        ensures err { OnErr result (SeesCut size (told self.old) (told self.new)) }
        ensures goes { ChangesPending (cut_to size) (told self.old) (told self.new) result }
        ensures hold { hold self.new ≡ option_map after_change (hold self.old) };

    /// Returns once what was written is there after a crash too.
    fn sync(&mut self) -> io::Result<()>
        requires { LockIsOurs (hold self.old) }
        ensures seen { SeesSame (told self.old) (told self.new) }
        ensures goes { ChangesPending (synced_as (told self.old)) (told self.old)
            (told self.new) result }
        ensures hold { hold self.new ≡ option_map unseen (hold self.old) };

    /// Returns once the file is found under its name after a crash too.
    fn sync_name(&mut self) -> io::Result<()>
        ensures stays { DiskStays (told self.old) (told self.new) }
        ensures hold { hold self.new ≡ option_map (after_naming result) (hold self.old) };

    /// What a read gives is one of the images.
    ghost reads_image: { (file : Self) → IsTrue (told file).follows → MayLeave (told file) (told file).seen };

    /// This moment is one of those since an earlier one.
    ghost counts_now: { (file : Self) (t : ℕ) (c : List ℕ) → IsTrue (told file).follows → t ≤ (told file).moment → MayLeave (told file) c → (told file).left_since t c };

    /// Since this moment there is no other.
    ghost only_now: { (file : Self) (c : List ℕ) → IsTrue (told file).follows → (told file).left_since (told file).moment c → MayLeave (told file) c };
}
