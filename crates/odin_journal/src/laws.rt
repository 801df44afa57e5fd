//! Laws of trails. Each is the contract of a function with an empty body.
ghost use Rattle.odin_journal.specs.Trails.{Keeping};
ghost use Rattle.odin_journal.specs.Laws.{TrailsBegin, TrailsGrow, TrailsStop, WorkAdds};

use odin_outside::Disk;

/// What is kept on a disk, and how it changes.
pub trait Keeper {
    type Kept;

    type Change;

    type Store;

    ghost keeping: { Keeping Self.Kept Self.Change Self.Store };
}

/// A trail begins with an opened store.
pub fn trails_begin<K: Keeper, D: Disk>()
    ensures { TrailsBegin K.keeping D.told }
{}

/// Calls that keep changes follow each other as one, and where the last one stops, so do they.
pub fn trails_grow<K: Keeper, D: Disk>()
    ensures { TrailsGrow K.keeping D.told }
{}

/// A trail can be left at any moment.
pub fn trails_stop<K: Keeper, D: Disk>()
    ensures { TrailsStop K.keeping D.told }
{}

/// The work of calls that follow each other is the sum of theirs.
pub fn work_adds()
    ensures { WorkAdds }
{}
