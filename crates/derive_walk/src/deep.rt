// The chain of a root that is too deep.
ghost use Rattle.std.specs.Prelude.{◌≡◌, ◌⊎◌, ◌+◌, ◌-◌, ◌<◌, [], length, IfOk, OnOk};
ghost use Rattle.meaning_derive.specs.Chains.{IsDeep};
ghost use Rattle.meaning_tasks.specs.Nodes.{Fits};
ghost use Rattle.meaning_true.specs.Knowing.{IsChecked};
ghost use Rattle.derive_walk.specs.Founds.{AllFit};
ghost use Rattle.derive_walk.specs.Looks.{LooksDown, StepsDown, look_beyond};
ghost use Rattle.derive_walk.specs.Paths.{IsLed, IsNextByNeeds, IsNextDown, IsTall, LeadsDown};
ghost use Rattle.derive_walk.specs.Settings.{IsSetting, world_in};
ghost use Rattle.derive_walk.specs.States.{IsFormedIn};
ghost use Rattle.derive_walk.specs.Worlds.{seen_in};

use crate::checked::{checked_record, tight_node};
use crate::known::Known;
use crate::looking::at_height;
use crate::setting::Setting;
use crate::walk::Walk;
use node_tasks::Needed;
use object_values::{Copied, HEIGHT_LIMIT, Memory, Node, Seq};
use odin_outside::Steps;
use std::alloc::Global;
use std::sync::ledger::Ledger;

/// The path, and then nodes of falling heights, each a need of the one before, up to one node more
/// than the greatest height.
pub(crate) fn descend<K: Known, L: Ledger>(
    alloc: Global,
    setting: &Setting<'_, K>,
    walk: &Walk,
    steps: &mut Steps<L>,
) -> Result<Seq<Node>, Memory>
    requires set { IsSetting K.keeps setting.now }
    requires tall { IsTall (world_in K.keeps setting.now) walk.now }
    ensures fit { IfOk result (AllFit setting.now.planned.now) }
    ensures deep { let w = world_in K.keeps setting.now in
        IsLed w walk.now → IfOk result (IsDeep w.graph (seen_in w) walk.now.root) }
    ensures counted { LooksDown walk.now.looked steps.old steps.new result }
{
    let mut chain = walk.path.copy(alloc)?;
    let mut height = HEIGHT_LIMIT as u32;
    for _count in walk.path.len()..HEIGHT_LIMIT + 1 {
        if !step_down(alloc, setting, walk, &mut chain, height, steps)? {
            break;
        }
        height = height.saturating_sub(1);
    }
    Ok(chain)
}

// Puts one node more: a need of the last one, of this height. Only over records that aren't true there may be
// none.
fn step_down<K: Known, L: Ledger>(
    alloc: Global,
    setting: &Setting<'_, K>,
    walk: &Walk,
    chain: &mut Seq<Node>,
    height: u32,
    steps: &mut Steps<L>,
) -> Result<bool, Memory>
    requires set { IsSetting K.keeps setting.now }
    requires formed { IsFormedIn (world_in K.keeps setting.now) walk.now }
    requires fit { AllFit setting.now.planned.now chain.old }
    requires high { 0 < height }
    ensures fit { OnOk result (AllFit setting.now.planned.now chain.new) }
    ensures longer { LeadsDown (world_in K.keeps setting.now) walk.now chain.old height →
        OnOk result (length chain.new ≡ length chain.old + 1) }
    ensures down { let w = world_in K.keeps setting.now in
        LeadsDown w walk.now chain.old height →
        OnOk result (LeadsDown w walk.now chain.new (height - 1)) }
    ensures counted { StepsDown walk.now.looked chain.old chain.new steps.old steps.new result }
{
    let Some(last) = chain.as_slice().last() else {
        return Ok(false);
    };
    let Some(next) = next_down(alloc, setting, walk, last, height, steps)? else {
        return Ok(false);
    };
    chain.push(next)?;
    Ok(true)
}

// The next node down from this one. Where its record is checked its needs may not be in the tables: the
// record tells it.
fn next_down<K: Known, L: Ledger>(
    alloc: Global,
    setting: &Setting<'_, K>,
    walk: &Walk,
    last: &Node,
    height: u32,
    steps: &mut Steps<L>,
) -> Result<Option<Node>, Memory>
    requires formed { IsFormedIn (world_in K.keeps setting.now) walk.now }
    requires fits { Fits setting.now.planned.now last.now }
    ensures next { let w = world_in K.keeps setting.now in
        IfOk result (IsNextDown w walk.now last.now height) }
    ensures counted { steps.new ≡ steps.old + look_beyond walk.now.looked last.now }
{
    let Some(kept) = checked_record(setting, walk, last, steps) else {
        return need_at(alloc, setting, walk, last, height);
    };
    match tight_node(kept) {
        None => Ok(None),
        Some(next) => Ok(Some(next.copy(alloc)?)),
    }
}

// The first need of the node, by the results so far, that has the height.
fn need_at<K: Known>(
    alloc: Global,
    setting: &Setting<'_, K>,
    walk: &Walk,
    node: &Node,
    height: u32,
) -> Result<Option<Node>, Memory>
    requires { Fits setting.now.planned.now node.now }
    ensures { let w = world_in K.keeps setting.now in
        (node.now.steps ≡ []) ⊎ (¬ IsChecked w.records node.now) →
        IfOk result (IsNextByNeeds w walk.now node.now height) }
{
    let needed = Needed::find(alloc, setting.planned, node, &walk.done)?;
    let needs = needed.nodes(alloc, &walk.done)?;
    match at_height(&walk.done, &walk.waiting, needs.as_slice(), height) {
        None => Ok(None),
        Some(need) => Ok(Some(need.copy(alloc)?)),
    }
}
