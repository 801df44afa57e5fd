// Records that were checked at the present epoch: they hold as they stand.
ghost use Rattle.std.specs.Prelude.{◌≡◌, ◌⊎◌, ◌+◌, [], IfNone, IfSome, map, option_map};
ghost use Rattle.meaning_true.specs.Numbered.{is_at};
ghost use Rattle.meaning_true.specs.Knowing.{IsChecked};
ghost use Rattle.derive_walk.specs.CheckedRecords.{IsCheckedRecord, node_at};
ghost use Rattle.derive_walk.specs.Looks.{look_beyond};
ghost use Rattle.derive_walk.specs.Settings.{world_in};
ghost use Rattle.derive_walk.specs.States.{IsFormedIn};

use crate::known::Known;
use crate::setting::Setting;
use crate::walk::Walk;
use object_values::{Node, NodeRecord};
use odin_outside::Steps;
use std::sync::ledger::Ledger;

/// Whether the record was checked at this epoch.
pub(crate) fn was_checked(kept: &NodeRecord, epoch: u64) -> bool
    ensures { result ≡ is_at epoch kept.now.checked }
{
    match kept.checked {
        None => false,
        Some(other) => other == epoch,
    }
}

/// The record of the node, where it is checked. A node that wasn't looked at is, unless it is a source.
pub(crate) fn checked_record<'a, K: Known, L: Ledger>(
    setting: &Setting<'a, K>,
    walk: &Walk,
    node: &Node,
    steps: &mut Steps<L>,
) -> Option<&'a NodeRecord>
    requires { IsFormedIn (world_in K.keeps setting.now) walk.now }
    ensures some { let keeping = K.keeps setting.now.known.now in
        IfSome result (λ r. IsCheckedRecord keeping node.now r.now) }
    ensures none { let w = world_in K.keeps setting.now in
        IfNone result ((node.now.steps ≡ []) ⊎ (¬ IsChecked w.records node.now)) }
    ensures counted { steps.new ≡ steps.old + look_beyond walk.now.looked node.now }
{
    if node.steps.is_empty() {
        return None;
    }
    let place = match walk.looked.place(node) {
        Some(place) => place,
        None => setting.known.find(node, steps),
    };
    let Some(place) = place else {
        return None;
    };
    let Some(kept) = setting.known.at(place) else {
        return None;
    };
    if was_checked(kept, setting.known.epoch()) {
        return Some(kept);
    }
    None
}

/// The node of the dep that is just one lower, where one is told.
pub(crate) fn tight_node(kept: &NodeRecord) -> Option<&Node>
    ensures { let nodes = map (λ d. d.node) kept.now.deps in
        option_map (λ n. n.now) result ≡ node_at nodes kept.now.present.tight }
{
    let Some(place) = kept.present.tight else {
        return None;
    };
    match kept.deps.as_slice().get(place as usize) {
        None => None,
        Some(dep) => Some(&dep.node),
    }
}
