// The sources of an engine become just those that are wanted.
ghost use Rattle.std.specs.Prelude.{◌∷◌, [], IfErr, OnOk};
ghost use Rattle.odin_journal.specs.Faults.{JournalFaultIsCounted};
ghost use Rattle.odin_store.specs.Edited.{HasFailed};
ghost use Rattle.odin_store.specs.Going.{StopsPerforming};
ghost use Rattle.odin_store.specs.OnDisk.{StoreAfter};
ghost use Rattle.odin_engine.specs.Engaged.{GraphStays};
ghost use Rattle.fresh_build.specs.Edits.{change_of, changes_of, changes_to};
ghost use Rattle.fresh_build.specs.Sets.{FailsToMake, MakesChanges, MayMake, MaySet, SetsSources};

use crate::edits::{Edit, edits_to};
use object_values::Sources;
use odin_engine::{Engine, StoreFault};
use odin_outside::Disk;
use odin_store::laws::{changes_follow, changes_stop};
use std::alloc::Global;

/// Makes the sources just those that are wanted: drops each that isn't, and puts each that is and has another text or isn't there. A crash
/// leaves some first ones of these edits.
pub fn set_sources<D: Disk>(
    alloc: Global,
    engine: &mut Engine,
    disk: &mut D,
    wanted: &Sources,
) -> Result<(), StoreFault>
    requires { MaySet engine.old.store (D.size_of disk.old) wanted.now.texts }
    ensures ok { OnOk result (SetsSources D.told wanted.now.texts
        engine.old.store engine.new.store disk.old disk.new) }
    ensures err { let changes = changes_to wanted.now.texts engine.old.store.sources.texts in
        IfErr result (FailsToMake D.told changes
        engine.old.store engine.new.store disk.old disk.new) }
    ensures any_moment { let changes = changes_to wanted.now.texts engine.old.store.sources.texts in
        StopsPerforming D.told changes engine.old.store disk.old disk.new }
    ensures stays { GraphStays engine.old engine.new }
    ensures left { StoreAfter engine.new.store (D.size_of disk.new) result }
    ensures cause { JournalFaultIsCounted (D.faults disk.old) (D.faults disk.new) result }
{
    changes_follow::<D>();
    changes_stop::<D>();
    let edits = edits_to(alloc, engine.store().sources(), wanted)?;
    make_edits(alloc, engine, disk, edits.as_slice())
}

// Makes edits, one after another.
fn make_edits<D: Disk>(
    alloc: Global,
    engine: &mut Engine,
    disk: &mut D,
    edits: &[Edit],
) -> Result<(), StoreFault>
    requires { MayMake engine.old.store (D.size_of disk.old) edits.now }
    ensures ok { OnOk result (MakesChanges D.told (changes_of edits.now)
        engine.old.store engine.new.store disk.old disk.new) }
    ensures err { IfErr result (FailsToMake D.told (changes_of edits.now)
        engine.old.store engine.new.store disk.old disk.new) }
    ensures stays { GraphStays engine.old engine.new }
    ensures left { StoreAfter engine.new.store (D.size_of disk.new) result }
    ensures cause { JournalFaultIsCounted (D.faults disk.old) (D.faults disk.new) result }
{
    changes_follow::<D>();
    'edits: for edit in edits {
        make_edit(alloc, engine, disk, edit)?;
    }
    Ok(())
}

// Makes an edit.
fn make_edit<D: Disk>(
    alloc: Global,
    engine: &mut Engine,
    disk: &mut D,
    edit: &Edit,
) -> Result<(), StoreFault>
    requires { MayMake engine.old.store (D.size_of disk.old) (edit.now ∷ []) }
    ensures ok { OnOk result (MakesChanges D.told (change_of edit.now ∷ [])
        engine.old.store engine.new.store disk.old disk.new) }
    ensures err { IfErr result (HasFailed D.told (change_of edit.now)
        engine.old.store engine.new.store disk.old disk.new) }
    ensures stays { GraphStays engine.old engine.new }
    ensures left { StoreAfter engine.new.store (D.size_of disk.new) result }
    ensures cause { JournalFaultIsCounted (D.faults disk.old) (D.faults disk.new) result }
{
    let _ = match edit {
        Edit::Put(name, text) => engine.put(alloc, disk, name, text)?,
        Edit::Remove(name) => engine.remove(alloc, disk, name)?,
    };
    Ok(())
}
