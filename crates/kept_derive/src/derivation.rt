// Derivation of a node over what a store keeps.
ghost use Rattle.std.specs.Prelude.{IfOk, IfErr};
ghost use Rattle.kept_derive.specs.Calls.{MayDerive};
ghost use Rattle.kept_derive.specs.Faults.{KeptFaultIsCounted, StoreAfterDerive};
ghost use Rattle.kept_derive.specs.Knowing.{KnowsStore};
ghost use Rattle.kept_derive.specs.Looked.{AreLooks};
ghost use Rattle.kept_derive.specs.Rests.{ComesToRest, IsDerivable, LeavesTools};
ghost use Rattle.kept_derive.specs.Runs.{at, HasFound};
ghost use Rattle.kept_derive.specs.Stops.{IsStopped};

use crate::fault::KeptFault;
use crate::flight::{Flown, fly_out};
use crate::telling::keep_told;
use derive_core::Core;
use derive_walk::Found;
use object_values::{Copied, Node};
use odin_outside::{Disk, Spawner, Steps};
use odin_store::Store;
use odin_store::laws::changes_follow;
use path_planner::PlannedGraph;
use std::alloc::Global;
use std::sync::ledger::Ledger;

/// The view of the node, or the chain for which it is refused. Each look at a record of a node and at a kept call is a step. At most `limit` tools
/// run at once; after `Spawn` none does, and after the other faults what runs is left. For a view what the walk tells of nodes is kept, too: what is
/// found is right where what was kept of nodes was known, and all that is kept of them is known then.
pub fn derive_kept<D: Disk, S: Spawner, L: Ledger>(
    alloc: Global,
    planned: &PlannedGraph<'_>,
    store: &mut Store,
    disk: &mut D,
    node: &Node,
    limit: u32,
    tools: &mut S,
    steps: &mut Steps<L>,
) -> Result<Found, KeptFault>
    requires derivable { IsDerivable planned.now node.now }
    requires may { MayDerive planned.now store.old (D.size_of disk.old)
        limit (S.told tools.old) }
    ensures found { let old = at store.old disk.old (S.told tools.old) in
        IfOk result (HasFound D.told planned.now node.now limit
        old (at store.new disk.new (S.told tools.new))) }
    ensures stopped { let old = at store.old disk.old (S.told tools.old) in
        IfErr result (IsStopped D.told planned.now node.now limit
        old (at store.new disk.new (S.told tools.new))) }
    ensures left { StoreAfterDerive store.new (D.size_of disk.new) result }
    ensures cause { KeptFaultIsCounted (D.faults disk.old) (D.faults disk.new) result }
    ensures rest { ComesToRest LeavesTools limit (S.told tools.old) (S.told tools.new) result }
    ensures counted { let old = at store.old disk.old (S.told tools.old) in
        KnowsStore planned.now store.old →
        AreLooks D.told planned.now node.now limit old (at store.new disk.new (S.told tools.new))
        steps.old steps.new result }
{
    changes_follow::<D>();
    let mut core = Core::new(alloc, node.copy(alloc)?);
    match fly_out(alloc, planned, &mut core, store, disk, limit, tools, steps)? {
        Flown::Found => keep_told(alloc, planned, core, store, disk),
        Flown::Cut => Err(KeptFault::Spawn),
    }
}
