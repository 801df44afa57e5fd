// The visit of a node, and of what it needs.
ghost use Rattle.std.specs.Prelude.{IfOk};
ghost use Rattle.derive_walk.specs.Looks.{GoesByLooks, spare_at};
ghost use Rattle.derive_walk.specs.Paths.{IsNext, LeadsTo};
ghost use Rattle.derive_walk.specs.Settings.{IsSetting, world_in};
ghost use Rattle.derive_walk.specs.States.{IsFormedIn, HoldsIn, GoesOnFrom, AfterVisit};

use crate::chains::chain_to;
use crate::closing::close;
use crate::found::Found;
use crate::known::Known;
use crate::looked::look;
use crate::looking::height_of;
use crate::renewing::renew;
use crate::rounds::{Round, next_round};
use crate::setting::Setting;
use crate::walk::Walk;
use node_tasks::Ahead;
use object_values::{Copied, Memory, Node};
use odin_outside::Steps;
use std::alloc::Global;
use std::sync::ledger::Ledger;

/// Visits a node that was not visited, and what it needs, in rounds. It is closed as soon as its record
/// is current: then what it needs isn't found.
pub(crate) fn visit<K: Known, L: Ledger>(
    alloc: Global,
    setting: &Setting<'_, K>,
    walk: &mut Walk,
    node: Node,
    steps: &mut Steps<L>,
) -> Result<Option<Found>, Memory>
    requires set { IsSetting K.keeps setting.now }
    requires next { IsNext (world_in K.keeps setting.now) walk.old node }
    ensures on { GoesOnFrom walk.old walk.new }
    ensures formed { IsFormedIn (world_in K.keeps setting.now) walk.new }
    ensures holds { let w = world_in K.keeps setting.now in
        LeadsTo w walk.old node → HoldsIn w walk.new }
    ensures after { let w = world_in K.keeps setting.now in
        IfOk result (AfterVisit w (LeadsTo w walk.old node) walk.old walk.new node) }
    ensures counted { let w = world_in K.keeps setting.now in
        GoesByLooks w setting.now.given.now (LeadsTo w walk.old node) walk.old walk.new
        steps.old steps.new (spare_at walk.new.looked result) }
{
    let length = walk.path.len();
    let mut ahead = Ahead::new(alloc);
    let kept = look(alloc, setting, walk, &node, steps)?;
    walk.path.push(node.copy(alloc)?)?;
    // Bounded, so that no proof of an end is owed: each round visits a node, and no memory holds so many.
    for rounds in 0..u64::MAX {
        let round = next_round(alloc, setting, walk, &node, kept, rounds, &mut ahead)?;
        let needs = match round {
            Round::Renews(current) => {
                renew(alloc, setting, walk, node, current)?;
                walk.path.truncate(length);
                return Ok(None);
            }
            Round::Visits(needs) => needs,
            Round::Closes(needed, survey) => {
                let found = close(alloc, setting, walk, node, &needed, &survey, steps)?;
                walk.path.truncate(length);
                return Ok(found);
            }
        };
        let unvisited = needs.as_slice();
        for need in unvisited {
            if height_of(&walk.done, &walk.waiting, need).is_some() {
                continue;
            }
            if let Some(found) = chain_to(alloc, &walk.path, need)? {
                return Ok(Some(found));
            }
            let need = need.copy(alloc)?;
            if let Some(found) = visit(alloc, setting, walk, need, steps)? {
                return Ok(Some(found));
            }
        }
    }
    Err(Memory)
}
