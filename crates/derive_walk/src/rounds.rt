// The rounds of a visit: which needs are visited next.
ghost use Rattle.std.specs.Prelude.{IfOk, option_map};
ghost use Rattle.object_values.specs.declared.nodes.Node.{Node as NodeValue};
ghost use Rattle.meaning_tasks.specs.Nodes.{Fits};
ghost use Rattle.node_tasks.specs.Needed.{IsNeeded};
ghost use Rattle.derive_walk.specs.Keeping.{IsLookedUp};
ghost use Rattle.derive_walk.specs.Tables.{results_of};
ghost use Rattle.derive_walk.specs.Paths.{IsAheadIn, IsRound, IsSurveyed};
ghost use Rattle.derive_walk.specs.Settings.{IsSetting, world_in};
ghost use Rattle.derive_walk.specs.States.{IsFormedIn};
ghost use Rattle.derive_walk.specs.Worlds.{World};

use crate::known::Known;
use crate::renewing::{Recorded, recorded_of};
use crate::setting::Setting;
use crate::survey::Survey;
use crate::walk::Walk;
use node_tasks::{Ahead, Needed};
use object_values::{Memory, Node, NodeRecord, Seq};
use std::alloc::Global;
use std::mem;

/// The rounds over all needs before lines are followed. In these all is visited to which no line
/// leads: the base in the first, its elements, the extras and the scan of the own source in the
/// second, and the elements of the extras in the third. What is left to visit then are needs of
/// names, and a level of these is what a round over all needs would visit, in the same order.
const WHOLE_ROUNDS: u64 = 3;

/// A round: what the node comes to by its record, the needs that are visited next, or what was found of
/// all needs once none is left.
pub(crate) enum Round {
    Renews(Recorded),
    Visits(Seq<Node>),
    Closes(Needed, Survey),
}

/// The next round of a node after so many. Where its record is checked or current, needs aren't
/// found at all. Else it goes over all needs, or, once the first rounds are over, over what comes
/// into sight as lines are followed. Then all needs are found again only for the closing.
pub(crate) fn next_round<K: Known>(
    alloc: Global,
    setting: &Setting<'_, K>,
    walk: &Walk,
    node: &Node,
    kept: Option<&NodeRecord>,
    rounds: u64,
    ahead: &mut Ahead,
) -> Result<Round, Memory>
    requires set { IsSetting K.keeps setting.now }
    requires formed { IsFormedIn (world_in K.keeps setting.now) walk.now }
    requires fits { Fits setting.now.planned.now node.now }
    requires kept { let keeping = K.keeps setting.now.known.now in
        IsLookedUp keeping node.now (option_map (λ k. k.now) kept) }
    requires ahead { IsAheadIn (world_in K.keeps setting.now) walk.now node.now ahead.old }
    ensures ahead { IsAheadIn (world_in K.keeps setting.now) walk.now node.now ahead.new }
    ensures round { let w = world_in K.keeps setting.now in
        IfOk result (IsRound w walk.now node.now) }
{
    if let Some(recorded) = recorded_of(alloc, setting, walk, node, kept)? {
        return Ok(Round::Renews(recorded));
    }
    if rounds >= WHOLE_ROUNDS {
        let level = ahead.level(alloc, setting.planned, node, &walk.done, walk)?;
        if !level.is_empty() {
            return Ok(Round::Visits(level));
        }
    }
    let needed = Needed::find(alloc, setting.planned, node, &walk.done)?;
    let mut survey = survey_needs(alloc, walk, &needed)?;
    if survey.unvisited.is_empty() {
        return Ok(Round::Closes(needed, survey));
    }
    let unvisited = mem::replace(&mut survey.unvisited, Seq::new(alloc));
    Ok(Round::Visits(unvisited))
}

// What is found of these needs.
fn survey_needs(alloc: Global, walk: &Walk, needed: &Needed) -> Result<Survey, Memory>
    ensures { (w : World) (n : NodeValue) →
        IsNeeded w.graph n (results_of walk.now.done) needed.now →
        IfOk result (IsSurveyed w walk.now n) }
{
    let names = needed.names.as_slice();
    let survey = Survey::of_needs(alloc, &walk.done, &walk.waiting, &needed.counted, names)?;
    Ok(survey)
}
