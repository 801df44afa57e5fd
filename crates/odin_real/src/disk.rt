// One file as a disk.
ghost use Rattle.std.specs.Prelude.{◌≡◌, ◌+◌, ◌^◌, ◌≤◌, IsTrue, length, IfOk, OnOk, OnErr};
ghost use Rattle.std.specs.Option.{ForSome};
ghost use Rattle.odin_outside.specs.Causes.{IsCounted, once_more};
ghost use Rattle.odin_outside.specs.Disk.{ChangesPending, Gives, SeesSame, SeesCut, SeesTaken, SeesTorn, SeesWritten, cut_to, same_pending, size_with, synced_as, wrote};
ghost use Rattle.odin_real.specs.Hold.{MakesNone};
ghost use Rattle.odin_real.specs.Raw.{HasSize, DiskStays, Syncs, idle, size_over};
ghost use Rattle.odin_real.specs.Standings.{Fares, FileIsHeld, FileIsReady, StaysSeen, StandingFits, WasSeen, is_gone, is_in_use};

use crate::opening::{found, made};
use crate::raw::RawFile;
use crate::standing::Standing;
use odin_outside::{Disk, Failed};

/// One file as a disk, with its size and the count of its faults. A file that isn't there yet is made by the first call that writes, cuts or syncs. Its
/// lock is held, and before each change it is looked at: it must stand under its own name and be as long as it was left. After a fault each
/// call fails, since a later one could not tell what was lost.
#[derive(Drop)]
pub struct FileDisk<F: RawFile + Drop> {
    file: F,
    size: u64,
    standing: Standing,
    faults: u64,
    ghost stands: { StandingFits standing (F.told file) (F.hold file) size },
}

// Counts a fault, and gives the file up.
fn give_up(standing: &mut Standing, faults: &mut u64) -> Failed
    ensures counted { faults.new ≡ once_more faults.old }
    ensures rose { IsCounted faults.old faults.new }
    ensures used { is_in_use standing.new ≡ is_in_use standing.old }
    ensures gone { IsTrue (is_gone standing.new) }
{
    *faults = faults.saturating_add(1);
    if *standing != Standing::InUse {
        *standing = Standing::Lost;
    }
    Failed
}

impl<F: RawFile + Drop> FileDisk<F> {
    /// A disk over a file, which is locked, looked at and synced where it is there.
    pub fn open(file: F) -> Self
        ensures faults { result.faults ≡ 0 }
        ensures syncs { Syncs (F.told file) (F.told result.file) }
        ensures opened { result.standing ≡ Standing.Open
            → FileIsHeld (F.told result.file) (F.hold result.file) result.size }
        ensures makes_none { MakesNone (F.hold file) (F.hold result.file) }
    {
        let mut file = file;
        let (standing, size) = found(&mut file);
        FileDisk {
            file,
            size,
            standing,
            faults: 0,
        }
    }

    /// Whether another program has the lock of the file.
    pub fn is_in_use(&self) -> bool
        ensures standing { result ≡ is_in_use self.now.standing }
        ensures told { ForSome (F.hold self.now.file) (λ h. h.others ≡ result) }
    {
        self.standing == Standing::InUse
    }

    // Makes the file where none stood there.
    fn make_absent(&mut self)
        ensures stays { DiskStays (F.told self.old.file) (F.told self.new.file) }
        ensures there { ¬ (self.new.standing ≡ Standing.Absent) }
        ensures gone { IsTrue (is_gone self.old.standing) → self.new.standing ≡ self.old.standing }
        ensures size { self.new.size ≡ self.old.size }
        ensures faults { self.new.faults ≡ self.old.faults }
    {
        if self.standing == Standing::Absent {
            self.standing = made(&mut self.file);
        }
    }

    // Whether the open file stands under its own name, and is as long as it was left.
    fn is_as_left(&mut self) -> bool
        ensures ready { IsTrue result → ForSome (F.hold self.new.file) (StaysSeen self.old.size) }
        ensures stays { DiskStays (F.told self.old.file) (F.told self.new.file) }
        ensures standing { self.new.standing ≡ self.old.standing }
        ensures open { IsTrue result → self.old.standing ≡ Standing.Open }
        ensures size { self.new.size ≡ self.old.size }
        ensures faults { self.new.faults ≡ self.old.faults }
        ensures makes_none { MakesNone (F.hold self.old.file) (F.hold self.new.file) }
    {
        if self.standing != Standing::Open {
            return false;
        }
        match self.file.look() {
            Ok(Some(size)) => size == self.size,
            _ => false,
        }
    }

    // Whether nothing stands there still, or the file is as it was left.
    fn is_still(&mut self) -> bool
        ensures size_told { IsTrue result → HasSize (F.told self.new.file) self.new.size }
        ensures look { IsTrue result → self.new.standing ≡ Standing.Open
            → ForSome (F.hold self.new.file) (StaysSeen self.old.size) }
        ensures stays { DiskStays (F.told self.old.file) (F.told self.new.file) }
        ensures standing { self.new.standing ≡ self.old.standing }
        ensures gone { IsTrue result → ¬ IsTrue (is_gone self.old.standing) }
        ensures size { self.new.size ≡ self.old.size }
        ensures faults { self.new.faults ≡ self.old.faults }
        ensures makes_none { MakesNone (F.hold self.old.file) (F.hold self.new.file) }
    {
        if self.standing == Standing::Absent {
            return self.is_absent();
        }
        self.is_as_left()
    }

    // Whether nothing stands there still.
    fn is_absent(&mut self) -> bool
        requires { self.old.standing ≡ Standing.Absent }
        ensures stays { DiskStays (F.told self.old.file) (F.told self.new.file) }
        ensures standing { self.new.standing ≡ self.old.standing }
        ensures size { self.new.size ≡ self.old.size }
        ensures faults { self.new.faults ≡ self.old.faults }
        ensures makes_none { MakesNone (F.hold self.old.file) (F.hold self.new.file) }
    {
        match self.file.find() {
            Ok(found) => !found,
            Err(_) => false,
        }
    }

    // Whether the file may be changed: it is made where none stood there, and looked at.
    fn is_ready(&mut self) -> bool
        ensures ready { IsTrue result
            → FileIsReady self.new.standing (F.hold self.new.file) self.new.size }
        ensures stays { DiskStays (F.told self.old.file) (F.told self.new.file) }
        ensures gone { IsTrue (is_gone self.old.standing) → ¬ IsTrue result }
        ensures size { self.new.size ≡ self.old.size }
        ensures faults { self.new.faults ≡ self.old.faults }
    {
        self.make_absent();
        self.is_as_left()
    }
}

impl<F: RawFile + Drop> Disk for FileDisk<F> {
    ghost use Rattle.std.specs.Prelude.{◌≡◌, length, if◌then◌else◌};
    ghost use Rattle.std.proofs.Common.{ap};

    ghost told = { λ d. idle (F.told d.file) };

    ghost size_of = { λ d. size_over (F.told d.file) d.size };

    ghost faults = { λ d. d.faults };

    ghost sized = { λ d follows. ap (λ b. if b then length (F.told d.file).seen else d.size) follows };

    ghost reads_image = { λ d follows. F.reads_image d.file follows };

    ghost counts_now = { λ d t c follows le left. F.counts_now d.file t c follows le left };

    ghost only_now = { λ d c follows left. F.only_now d.file c follows left };

    fn size(&mut self) -> Result<u64, Failed>
        ensures size { IfOk result (λ n. n ≡ size_over (F.told self.old.file) self.old.size) }
        ensures kept { OnOk result (size_over (F.told self.new.file) self.new.size
            ≡ size_over (F.told self.old.file) self.old.size) }
        ensures seen { SeesSame (F.told self.old.file) (F.told self.new.file) }
        ensures goes { let old = idle (F.told self.old.file) in
            ChangesPending same_pending old (idle (F.told self.new.file)) result }
        ensures look { OnOk result (self.new.standing ≡ Standing.Open
            → ForSome (F.hold self.new.file) (StaysSeen self.old.size)) }
        ensures makes_none { MakesNone (F.hold self.old.file) (F.hold self.new.file) }
        ensures fares { Fares self.old.standing self.new.standing
            self.old.faults self.new.faults result }
    {
        if !self.is_still() {
            return Err(give_up(&mut self.standing, &mut self.faults));
        }
        Ok(self.size)
    }

    fn read(&mut self, at: u64, into: &mut [u8]) -> Result<(), Failed>
        requires { at + length into.old ≤ size_over (F.told self.old.file) self.old.size }
        ensures bytes { OnOk result
            (Gives at (length into.old) (F.told self.old.file) into.new) }
        ensures kept { OnOk result (size_over (F.told self.new.file) self.new.size
            ≡ size_over (F.told self.old.file) self.old.size) }
        ensures seen { SeesSame (F.told self.old.file) (F.told self.new.file) }
        ensures goes { let old = idle (F.told self.old.file) in
            ChangesPending same_pending old (idle (F.told self.new.file)) result }
        ensures makes_none { MakesNone (F.hold self.old.file) (F.hold self.new.file) }
        ensures fares { Fares self.old.standing self.new.standing
            self.old.faults self.new.faults result }
    {
        if self.standing == Standing::Absent {
            return Ok(());
        }
        if self.standing != Standing::Open {
            return Err(give_up(&mut self.standing, &mut self.faults));
        }
        if self.file.read_at(at, into).is_err() {
            return Err(give_up(&mut self.standing, &mut self.faults));
        }
        Ok(())
    }

    fn write_at(&mut self, at: u64, bytes: &[u8]) -> Result<(), Failed>
        requires inside { at ≤ size_over (F.told self.old.file) self.old.size }
        requires end { at + length bytes.now ≤ 2 ^ 30 }
        ensures written { OnOk result
            (SeesWritten at bytes.now (F.told self.old.file) (F.told self.new.file)) }
        ensures size { OnOk result (size_over (F.told self.new.file) self.new.size
            ≡ size_with (size_over (F.told self.old.file) self.old.size) at bytes.now) }
        ensures err { OnErr result
            (SeesTorn at bytes.now (F.told self.old.file) (F.told self.new.file)) }
        ensures goes { let old = idle (F.told self.old.file) in
            ChangesPending (wrote at (length bytes.now)) old (idle (F.told self.new.file)) result }
        ensures look { OnOk result (ForSome (F.hold self.new.file) (WasSeen self.old.size)) }
        ensures fares { Fares self.old.standing self.new.standing
            self.old.faults self.new.faults result }
    {
        if !self.is_ready() {
            return Err(give_up(&mut self.standing, &mut self.faults));
        }
        if self.file.write_at(at, bytes).is_err() {
            return Err(give_up(&mut self.standing, &mut self.faults));
        }
        self.size = self.size.max(at + bytes.len() as u64);
        Ok(())
    }

    fn cut(&mut self, size: u64) -> Result<(), Failed>
        requires { size ≤ size_over (F.told self.old.file) self.old.size }
        ensures seen { OnOk result
            (SeesTaken size (F.told self.old.file) (F.told self.new.file)) }
        ensures size { OnOk result (size_over (F.told self.new.file) self.new.size ≡ size) }
        ensures err { OnErr result
            (SeesCut size (F.told self.old.file) (F.told self.new.file)) }
        ensures goes { let old = idle (F.told self.old.file) in
            ChangesPending (cut_to size) old (idle (F.told self.new.file)) result }
        ensures look { OnOk result (ForSome (F.hold self.new.file) (WasSeen self.old.size)) }
        ensures fares { Fares self.old.standing self.new.standing
            self.old.faults self.new.faults result }
    {
        if !self.is_ready() {
            return Err(give_up(&mut self.standing, &mut self.faults));
        }
        if self.file.cut(size).is_err() {
            return Err(give_up(&mut self.standing, &mut self.faults));
        }
        self.size = size;
        Ok(())
    }

    fn sync(&mut self) -> Result<(), Failed>
        ensures kept { OnOk result (size_over (F.told self.new.file) self.new.size
            ≡ size_over (F.told self.old.file) self.old.size) }
        ensures seen { SeesSame (F.told self.old.file) (F.told self.new.file) }
        ensures goes { let old = idle (F.told self.old.file) in
            ChangesPending (synced_as old) old (idle (F.told self.new.file)) result }
        ensures look { OnOk result (ForSome (F.hold self.new.file) (StaysSeen self.old.size)) }
        ensures fares { Fares self.old.standing self.new.standing
            self.old.faults self.new.faults result }
    {
        if !self.is_ready() {
            return Err(give_up(&mut self.standing, &mut self.faults));
        }
        if self.file.sync().is_err() {
            return Err(give_up(&mut self.standing, &mut self.faults));
        }
        if !self.is_as_left() {
            return Err(give_up(&mut self.standing, &mut self.faults));
        }
        Ok(())
    }
}
