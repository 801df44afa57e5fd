// The end of one call, and what comes of it.
ghost use Rattle.std.specs.Prelude.{◌≡◌, IfOk, IfErr};
ghost use Rattle.meaning_graph.specs.Graphs.{Graph};
ghost use Rattle.meaning_derive.specs.Derive.{Sources};
ghost use Rattle.derive_walk.specs.Keeping.{Keeping};
ghost use Rattle.derive_walk.specs.Settings.{world_by};
ghost use Rattle.derive_walk.specs.Walks.{IsFormed, IsRight};
ghost use Rattle.kept_derive.specs.Calls.{MayLand, Lands, FailsToLand};
ghost use Rattle.kept_derive.specs.Faults.{KeptFaultIsCounted, StoreAfterDerive};
ghost use Rattle.kept_derive.specs.Runs.{at};

use crate::fault::KeptFault;
use derive_core::Core;
use job_runner::{JobFault, Jobs};
use odin_outside::{Disk, Spawner};
use odin_store::Store;
use odin_store::laws::{changes_follow, edits_are_told};
use std::alloc::Global;

/// What came of the end of a call: it is kept and given to the walk, or its end was lost.
#[derive(Clone, Copy, PartialEq, Eq)]
pub(crate) enum Landed {
    Kept,
    Lost,
}

/// Waits for the end of a call. It is kept with its outcome before the walk is given that.
pub(crate) fn land<D: Disk, S: Spawner>(
    alloc: Global,
    core: &mut Core,
    jobs: &mut Jobs,
    store: &mut Store,
    disk: &mut D,
    tools: &mut S,
) -> Result<Landed, KeptFault>
    requires { MayLand core.old jobs.old store.old (D.size_of disk.old) (S.told tools.old) }
    ensures lands { let old = at store.old disk.old (S.told tools.old) in
        IfOk result (Lands D.told core.old jobs.old old
        core.new jobs.new (at store.new disk.new (S.told tools.new))) }
    ensures fails { let old = at store.old disk.old (S.told tools.old) in
        IfErr result (FailsToLand D.told core.old jobs.old old
        core.new jobs.new (at store.new disk.new (S.told tools.new))) }
    ensures formed { (g : Graph) (s : Sources) (keeping : Keeping) →
        IsFormed (world_by keeping g s core.old.given) core.old →
        IsFormed (world_by keeping g s core.new.given) core.new }
    ensures right { (g : Graph) (s : Sources) (keeping : Keeping) →
        IsRight (world_by keeping g s core.old.given) core.old →
        IsRight (world_by keeping g s core.new.given) core.new }
    ensures limit { jobs.new.limit ≡ jobs.old.limit }
    ensures left { StoreAfterDerive store.new (D.size_of disk.new) result }
    ensures cause { KeptFaultIsCounted (D.faults disk.old) (D.faults disk.new) result }
{
    changes_follow::<D>();
    edits_are_told::<D>();
    let (call, outcome) = match jobs.finish(alloc, tools) {
        Ok(ended) => ended,
        Err(JobFault::Spawn) => return Ok(Landed::Lost),
        Err(JobFault::Memory) => return Err(KeptFault::Memory),
    };
    match store.keep_call(alloc, disk, &call, &outcome) {
        Ok(()) => {}
        Err(fault) => return Err(KeptFault::of_change(fault)),
    }
    core.give(&call, outcome)?;
    Ok(Landed::Kept)
}
