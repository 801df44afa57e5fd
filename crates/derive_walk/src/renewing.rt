// The closing of a node by its record.
ghost use Rattle.std.specs.Prelude.{◌≡◌, IfOk, OnOk, option_map};
ghost use Rattle.derive_walk.specs.Keeping.{IsLookedUp};
ghost use Rattle.derive_walk.specs.Looks.{LooksNoMore};
ghost use Rattle.derive_walk.specs.Paths.{IsByRecord, IsLast, IsLed, IsRecorded};
ghost use Rattle.derive_walk.specs.Settings.{IsSetting, world_in};
ghost use Rattle.derive_walk.specs.Trials.{renewed_by};
ghost use Rattle.derive_walk.specs.States.{IsFormedIn, HoldsIn, GoesOnFrom, Visited};

use crate::checked::was_checked;
use crate::done::Done;
use crate::known::Known;
use crate::setting::Setting;
use crate::trial::{Current, done_by, try_record};
use crate::walk::Walk;
use object_values::{Copied, Memory, Node, NodeRecord, Renewed, RenewedNode};
use std::alloc::Global;

/// What a node comes to by its record: as that stands, where it is checked, or as it was tried.
#[derive(Drop)]
pub(crate) enum Recorded {
    Checked(Done),
    Current(Current),
}

/// What a node comes to by its record, where that is checked, or current over the results so far.
/// What it needs isn't looked at where it is checked. A source is known by its text.
pub(crate) fn recorded_of<K: Known>(
    alloc: Global,
    setting: &Setting<'_, K>,
    walk: &Walk,
    node: &Node,
    kept: Option<&NodeRecord>,
) -> Result<Option<Recorded>, Memory>
    requires formed { IsFormedIn (world_in K.keeps setting.now) walk.now }
    requires kept { let keeping = K.keeps setting.now.known.now in
        IsLookedUp keeping node.now (option_map (λ k. k.now) kept) }
    ensures { let w = world_in K.keeps setting.now in
        IfOk result (IsRecorded w walk.now node.now) }
{
    if node.steps.is_empty() {
        return Ok(None);
    }
    let Some(kept) = kept else {
        return Ok(None);
    };
    if was_checked(kept, setting.known.epoch()) {
        let done = done_by(alloc, setting.known, kept.value, &kept.present)?;
        return Ok(Some(Recorded::Checked(done)));
    }
    match try_record(alloc, setting.known, &walk.done, kept)? {
        None => Ok(None),
        Some(current) => Ok(Some(Recorded::Current(current))),
    }
}

/// Takes the node, the last of the path, into the tables by its record.
pub(crate) fn renew<K: Known>(
    alloc: Global,
    setting: &Setting<'_, K>,
    walk: &mut Walk,
    node: Node,
    recorded: Recorded,
) -> Result<(), Memory>
    requires set { IsSetting K.keeps setting.now }
    requires last { IsLast (world_in K.keeps setting.now) walk.old node }
    requires recorded { IsByRecord (world_in K.keeps setting.now) walk.old node recorded }
    ensures on { GoesOnFrom walk.old walk.new }
    ensures formed { IsFormedIn (world_in K.keeps setting.now) walk.new }
    ensures holds { let w = world_in K.keeps setting.now in
        IsLed w walk.old → HoldsIn w walk.new }
    ensures visited { let w = world_in K.keeps setting.now in
        OnOk result (Visited w walk.old walk.new node) }
    ensures same { LooksNoMore walk.old walk.new }
{
    let _ = setting;
    match recorded {
        Recorded::Checked(done) => {
            walk.done.add(node, done)?;
            Ok(())
        }
        Recorded::Current(current) => {
            let renewed = renewed_by(alloc, &node, &current)?;
            let Current { done, tight: _ } = current;
            walk.take_renewed(node, done, renewed)?;
            Ok(())
        }
    }
}

// What the record of the node came to.
fn renewed_by(alloc: Global, node: &Node, current: &Current) -> Result<RenewedNode, Memory>
    ensures { IfOk result (λ renewed. renewed ≡ renewed_by node.now current.now) }
{
    let view = &current.done.view;
    Ok(RenewedNode {
        node: node.copy(alloc)?,
        present: Renewed {
            status: view.status,
            messages: view.messages.copy(alloc)?,
            height: current.done.height,
            tight: current.tight,
        },
    })
}
