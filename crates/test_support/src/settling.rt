// What a node settles to, by what its tool leaves.
ghost use Rattle.std.specs.Prelude.{◌≡◌, ◌≢◌, [], IfOk, option_map};
ghost use Rattle.meaning_tasks.specs.Nodes.{Fits};
ghost use Rattle.meaning_calls.specs.Outcomes.{outcome_of};
ghost use Rattle.meaning_tasks.specs.Settle.{Settles, SourceLookup};
ghost use Rattle.node_tasks.specs.Needed.{IsNeeded};

use node_tasks::{Needed, Results, settle_in};
use object_values::{Call, Memory, Node, Outcome, Raw, View};
use path_planner::PlannedGraph;
use std::alloc::Global;
use tool_calls::outcome_of;

/// What a node with steps settles to, where its tool, if one is run, leaves this.
pub fn settle_after<R: Results>(
    alloc: Global,
    planned: &PlannedGraph<'_>,
    node: &Node,
    needed: &Needed,
    seen: &R,
    call: Option<&Call>,
    left: &Raw,
) -> Result<View, Memory>
    requires fits { Fits planned.now node.now }
    requires needed { IsNeeded planned.now node.now (R.results seen.now) needed.now }
    requires stepped { node.now.steps ≢ [] }
    ensures { let outcome = option_map (λ c. outcome_of c.now left.now) call.entry in
        IfOk result (λ view. (texts : SourceLookup) →
        Settles planned.now texts node.now (R.results seen.now) outcome view) }
{
    let outcome = outcome_after(alloc, call, left)?;
    settle_in(alloc, planned, node, needed, seen, outcome.as_ref())
}

fn outcome_after(alloc: Global, call: Option<&Call>, left: &Raw) -> Result<Option<Outcome>, Memory>
    ensures { IfOk result (λ outcome. outcome ≡
        option_map (λ c. outcome_of c.now left.now) call.entry) }
{
    let Some(call) = call else {
        return Ok(None);
    };
    Ok(Some(outcome_of(alloc, call, left)?))
}
