// What a node needs and calls.
ghost use Rattle.std.specs.Prelude.{◌≡◌, true, IfOk, IfSome};
ghost use Rattle.meaning_graph.specs.Grammar.{IsSpellable};
ghost use Rattle.meaning_tasks.specs.Nodes.{Fits};
ghost use Rattle.meaning_tasks.specs.Needs.{Needs};
ghost use Rattle.meaning_tasks.specs.Calls.{CallOf};
ghost use Rattle.node_tasks.specs.Needed.{IsNeeded};
ghost use Rattle.test_support.specs.Seen.{all_known};

use crate::seeing::all_seen;
use node_tasks::{Needed, Results, call_in};
use object_values::{Call, Memory, Node, Seq};
use path_planner::PlannedGraph;
use std::alloc::Global;

/// What a node needs, its needs one by one, all of which have results, and the call of its tool, if
/// one is run.
pub struct Called {
    pub needed: Needed,
    pub needs: Seq<Node>,
    pub call: Option<Call>,
}

impl Drop for Called {
    fn drop(self) {
        let Called {
            needed,
            needs,
            call,
        } = self;
        drop(needed);
        drop(needs);
        drop(call);
    }
}

impl Called {
    /// The call alone.
    pub fn into_call(self) -> Option<Call>
        ensures { result ≡ self.call }
    {
        let Called {
            needed,
            needs,
            call,
        } = self;
        drop(needed);
        drop(needs);
        call
    }
}

/// What a node needs and calls. `None` where a need has no result.
pub fn call_node<R: Results>(
    alloc: Global,
    planned: &PlannedGraph<'_>,
    node: &Node,
    seen: &R,
) -> Result<Option<Called>, Memory>
    requires spellable { IsSpellable planned.now }
    requires fits { Fits planned.now node.now }
    ensures needed { IfOk result (λ made. IfSome made (λ called.
        IsNeeded planned.now node.now (R.results seen.now) called.needed)) }
    ensures needs { IfOk result (λ made. IfSome made (λ called.
        Needs planned.now node.now (R.results seen.now) called.needs)) }
    ensures known { IfOk result (λ made. IfSome made (λ called.
        all_known (R.results seen.now) called.needs ≡ true)) }
    ensures call { IfOk result (λ made. IfSome made (λ called.
        CallOf planned.now node.now (R.results seen.now) called.call)) }
{
    let needed = Needed::find(alloc, planned, node, seen)?;
    let needs = needed.nodes(alloc, seen)?;
    if !all_seen(needs.as_slice(), seen) {
        return Ok(None);
    }
    let call = call_in(alloc, planned, node, &needed, seen)?;
    Ok(Some(Called {
        needed,
        needs,
        call,
    }))
}
