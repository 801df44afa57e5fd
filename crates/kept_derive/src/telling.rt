// What a walk tells is kept once something is found of its root.
ghost use Rattle.std.specs.Prelude.{◌≡◌, IfErr, IfOk, OnOk};
ghost use Rattle.meaning_records.specs.Batches.{facts_of};
ghost use Rattle.odin_journal.specs.Faults.{JournalFaultIsCounted};
ghost use Rattle.odin_store.specs.Edited.{HasFailed};
ghost use Rattle.odin_store.specs.Held.{notes};
ghost use Rattle.odin_store.specs.OnDisk.{HoldsOn, StoreAfter};
ghost use Rattle.kept_derive.specs.Faults.{KeptFaultIsCounted, StoreAfterDerive};
ghost use Rattle.kept_derive.specs.Noting.{KeepsTold, MayKeepTold, MayRenewEach, renew_records};
ghost use Rattle.kept_derive.specs.Telling.{MayTell, HasTold, FailsToTell};

use crate::fault::KeptFault;
use derive_core::Core;
use derive_walk::Found;
use derive_walk::laws::told_is_known;
use object_values::{Fresh, RenewedNode, Seq};
use odin_outside::Disk;
use odin_store::laws::{changes_follow, edits_are_told};
use odin_store::{Store, StoreFault};
use path_planner::PlannedGraph;
use std::alloc::Global;

/// What is found. For a view what the walk tells is kept before: all that is to be noted in one batch, and then what records came to, which no file has.
/// For a chain nothing is.
pub(crate) fn keep_told<D: Disk>(
    alloc: Global,
    planned: &PlannedGraph<'_>,
    core: Core,
    store: &mut Store,
    disk: &mut D,
) -> Result<Found, KeptFault>
    requires { MayTell planned.now store.old (D.size_of disk.old) core }
    ensures told { IfOk result
        (HasTold D.told planned.now core store.old store.new disk.old disk.new) }
    ensures fails { IfErr result
        (FailsToTell D.told planned.now core store.old store.new disk.old disk.new) }
    ensures left { StoreAfterDerive store.new (D.size_of disk.new) result }
    ensures cause { KeptFaultIsCounted (D.faults disk.old) (D.faults disk.new) result }
{
    told_is_known();
    changes_follow::<D>();
    store.kept().records_fit();
    let (found, fresh, renewed) = core.into_told();
    match found {
        Some(Found::Answer(view)) => match keep(alloc, store, disk, fresh.as_slice(), renewed) {
            Ok(()) => Ok(Found::Answer(view)),
            Err(fault) => Err(KeptFault::of_change(fault)),
        },
        Some(Found::Circular(chain)) => Ok(Found::Circular(chain)),
        Some(Found::Deep(chain)) => Ok(Found::Deep(chain)),
        None => Err(KeptFault::Memory),
    }
}

// Notes what is to be noted, in one batch, and then says what the other records came to.
fn keep<D: Disk>(
    alloc: Global,
    store: &mut Store,
    disk: &mut D,
    fresh: &[Fresh],
    renewed: Seq<RenewedNode>,
) -> Result<(), StoreFault>
    requires { MayKeepTold store.old (D.size_of disk.old) fresh.now renewed }
    ensures keeps { OnOk result
        (KeepsTold D.told fresh.now renewed store.old store.new disk.old disk.new) }
    ensures fails { IfErr result (HasFailed D.told (notes (facts_of fresh.now))
        store.old store.new disk.old disk.new) }
    ensures left { StoreAfter store.new (D.size_of disk.new) result }
    ensures cause { JournalFaultIsCounted (D.faults disk.old) (D.faults disk.new) result }
{
    changes_follow::<D>();
    edits_are_told::<D>();
    store.kept().records_fit();
    store.keep_nodes(alloc, disk, fresh)?;
    store.kept().records_fit();
    renew_all(store, renewed);
    Ok(())
}

// Says what records came to, of one node after another. No file has it, and it takes no memory.
fn renew_all(store: &mut Store, renewed: Seq<RenewedNode>)
    requires { MayRenewEach store.old.kept renewed }
    ensures renewed { store.new.kept.records.records
        ≡ renew_records store.old.epoch renewed store.old.kept.records.records }
    ensures same { HoldsOn store.old store.new }
{
    for one in renewed.into_vec() {
        let RenewedNode { node, present } = one;
        store.renew(&node, present);
    }
}
