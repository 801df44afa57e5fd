// The opening of a store's file, and its making.
ghost use Rattle.std.specs.Prelude.{◌≡◌, IfOk};
ghost use Rattle.odin_real.specs.Hold.{MakesNone};
ghost use Rattle.odin_real.specs.Raw.{IsNothing, DiskStays, Syncs};
ghost use Rattle.odin_real.specs.Standings.{FileIsHeld, IsLockedAs, SizedStandingFits};

use crate::lock::LockFault;
use crate::raw::RawFile;
use crate::standing::Standing;

// Locks an open file, looks at it, and syncs it with its name: its size.
pub fn hold<F: RawFile>(file: &mut F) -> Result<u64, LockFault>
    ensures ok { IfOk result (FileIsHeld (F.told file.new) (F.hold file.new)) }
    ensures used { IsLockedAs result (F.hold file.new) }
    ensures syncs { Syncs (F.told file.old) (F.told file.new) }
    ensures makes_none { MakesNone (F.hold file.old) (F.hold file.new) }
{
    file.lock()?;
    let Some(size) = file.look()? else {
        return Err(LockFault::Failed);
    };
    file.sync()?;
    file.sync_name()?;
    Ok(size)
}

// How a disk stands to an open file, and the size of that.
fn held<F: RawFile>(file: &mut F) -> (Standing, u64)
    ensures stands { SizedStandingFits result (F.told file.new) (F.hold file.new) }
    ensures syncs { Syncs (F.told file.old) (F.told file.new) }
    ensures opened { result.0 ≡ Standing.Open
        → FileIsHeld (F.told file.new) (F.hold file.new) result.1 }
    ensures makes_none { MakesNone (F.hold file.old) (F.hold file.new) }
{
    match hold(file) {
        Ok(size) => (Standing::Open, size),
        Err(LockFault::InUse) => (Standing::InUse, 0),
        Err(LockFault::Failed) => (Standing::Lost, 0),
    }
}

/// How a disk stands to a file, and the size of that. Nothing is made.
pub fn found<F: RawFile>(file: &mut F) -> (Standing, u64)
    ensures stands { SizedStandingFits result (F.told file.new) (F.hold file.new) }
    ensures syncs { Syncs (F.told file.old) (F.told file.new) }
    ensures opened { result.0 ≡ Standing.Open
        → FileIsHeld (F.told file.new) (F.hold file.new) result.1 }
    ensures makes_none { MakesNone (F.hold file.old) (F.hold file.new) }
{
    match file.find() {
        Ok(true) => held(file),
        Ok(false) => (Standing::Absent, 0),
        Err(_) => (Standing::Lost, 0),
    }
}

/// How a disk stands to a file that it makes, since none was there. Where others made one meanwhile that isn't empty, it is given up.
pub fn made<F: RawFile>(file: &mut F) -> Standing
    requires { IsNothing (F.told file.old) }
    ensures stands { SizedStandingFits (result, 0) (F.told file.new) (F.hold file.new) }
    ensures there { ¬ (result ≡ Standing.Absent) }
    ensures stays { DiskStays (F.told file.old) (F.told file.new) }
{
    if file.make().is_err() {
        return Standing::Lost;
    }
    match held(file) {
        (Standing::Open, 0) => Standing::Open,
        (Standing::InUse, _) => Standing::InUse,
        _ => Standing::Lost,
    }
}
