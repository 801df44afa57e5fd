// The closing of a node whose needs were all visited.
ghost use Rattle.std.specs.Prelude.{◌+◌, OnOk, IfOk};
ghost use Rattle.derive_walk.specs.Looks.{ClosesAlone, GoesByLooks, lost, spare_at};
ghost use Rattle.derive_walk.specs.Paths.{ClosesSo, IsClosing, IsLast, IsLed, IsWholeRound};
ghost use Rattle.derive_walk.specs.Settings.{IsSetting, world_in};
ghost use Rattle.derive_walk.specs.States.{IsFormedIn, HoldsIn, GoesOnFrom, Visited, AfterVisit};

use crate::deep::descend;
use crate::done::Done;
use crate::found::Found;
use crate::known::Known;
use crate::noting::note_of;
use crate::setting::Setting;
use crate::settling::{Closed, Closing, settle_node};
use crate::survey::Survey;
use crate::walk::Walk;
use node_tasks::Needed;
use object_values::{Copied, HEIGHT_LIMIT, Memory, Node};
use odin_outside::Steps;
use std::alloc::Global;
use std::sync::ledger::Ledger;

/// Takes the node, the last of the path, into the tables, or finds a chain for which the root is
/// too deep.
pub(crate) fn close<K: Known, L: Ledger>(
    alloc: Global,
    setting: &Setting<'_, K>,
    walk: &mut Walk,
    node: Node,
    needed: &Needed,
    survey: &Survey,
    steps: &mut Steps<L>,
) -> Result<Option<Found>, Memory>
    requires set { IsSetting K.keeps setting.now }
    requires last { IsLast (world_in K.keeps setting.now) walk.old node }
    requires whole { IsWholeRound (world_in K.keeps setting.now) walk.old node
        needed.now survey.now }
    ensures on { GoesOnFrom walk.old walk.new }
    ensures formed { IsFormedIn (world_in K.keeps setting.now) walk.new }
    ensures holds { let w = world_in K.keeps setting.now in
        IsLed w walk.old → HoldsIn w walk.new }
    ensures after { let w = world_in K.keeps setting.now in
        IfOk result (AfterVisit w (IsLed w walk.old) walk.old walk.new node) }
    ensures counted { let w = world_in K.keeps setting.now in
        GoesByLooks w setting.now.given.now (IsLed w walk.old) walk.old walk.new
        steps.old steps.new (spare_at walk.new.looked result) }
{
    if survey.top >= HEIGHT_LIMIT as u32 {
        let chain = descend(alloc, setting, walk, steps)?;
        return Ok(Some(Found::Deep(chain)));
    }
    let height = survey.top + 1;
    if survey.done {
        close_seen(alloc, setting, walk, node, needed, height, steps)?;
        return Ok(None);
    }
    walk.waiting.add(node, height)?;
    Ok(None)
}

// The same of a node whose needs all have results: it has one too, or its call is wanted from now
// on.
fn close_seen<K: Known, L: Ledger>(
    alloc: Global,
    setting: &Setting<'_, K>,
    walk: &mut Walk,
    node: Node,
    needed: &Needed,
    height: u32,
    steps: &mut Steps<L>,
) -> Result<(), Memory>
    requires set { IsSetting K.keeps setting.now }
    requires last { IsLast (world_in K.keeps setting.now) walk.old node }
    requires closing { IsClosing (world_in K.keeps setting.now) walk.old node needed.now height }
    ensures on { GoesOnFrom walk.old walk.new }
    ensures formed { IsFormedIn (world_in K.keeps setting.now) walk.new }
    ensures holds { let w = world_in K.keeps setting.now in
        IsLed w walk.old → HoldsIn w walk.new }
    ensures visited { let w = world_in K.keeps setting.now in
        OnOk result (Visited w walk.old walk.new node) }
    ensures counted { let w = world_in K.keeps setting.now in
        GoesByLooks w setting.now.given.now (IsLed w walk.old) walk.old walk.new
        steps.old steps.new (lost result) }
{
    let copy = node.copy(alloc)?;
    let Closing { closed, took } = settle_node(
        alloc,
        setting,
        &walk.done,
        &walk.wanted,
        &node,
        needed,
        steps,
    )?;
    take_closed(alloc, setting, walk, node, needed, height, closed)?;
    if !took {
        return Ok(());
    }
    walk.taken.push(copy)?;
    Ok(())
}

// Takes the node by what came of it.
fn take_closed<K: Known>(
    alloc: Global,
    setting: &Setting<'_, K>,
    walk: &mut Walk,
    node: Node,
    needed: &Needed,
    height: u32,
    closed: Closed,
) -> Result<(), Memory>
    requires set { IsSetting K.keeps setting.now }
    requires last { IsLast (world_in K.keeps setting.now) walk.old node }
    requires closed { let w = world_in K.keeps setting.now in
        ClosesSo w walk.old node needed.now height closed }
    ensures on { GoesOnFrom walk.old walk.new }
    ensures formed { IsFormedIn (world_in K.keeps setting.now) walk.new }
    ensures holds { let w = world_in K.keeps setting.now in
        IsLed w walk.old → HoldsIn w walk.new }
    ensures visited { let w = world_in K.keeps setting.now in
        OnOk result (Visited w walk.old walk.new node) }
    ensures alone { ClosesAlone walk.old walk.new node closed result }
{
    match closed {
        Closed::Given(view) => {
            walk.done.add(node, Done { view, height })?;
            Ok(())
        }
        Closed::Settled(settled) => {
            let note = note_of(alloc, &walk.done, &node, needed, &settled, height)?;
            let view = settled.into_view();
            walk.take_settled(node, Done { view, height }, note)?;
            Ok(())
        }
        Closed::Stops(call) => {
            walk.wanted.add(call)?;
            walk.waiting.add(node, height)?;
            Ok(())
        }
    }
}
