// What a node settles to.
ghost use Rattle.std.specs.Prelude.{◌≡◌, ◌≢◌, [], None, cond, IfOk, option_map};
ghost use Rattle.meaning_tasks.specs.Nodes.{Fits};
ghost use Rattle.meaning_tasks.specs.Values.{inherit};
ghost use Rattle.meaning_tasks.specs.Needs.{values_of};
ghost use Rattle.meaning_tasks.specs.Settle.{SourceLookup, settled, Settles};
ghost use Rattle.path_planner.specs.Ends.{plans_of};
ghost use Rattle.node_tasks.specs.Needed.{IsNeeded};
ghost use Rattle.node_tasks.specs.Settling.{SettlesSo};
ghost use Rattle.task_needs.specs.Counting.{nodes_in};

use crate::needed::Needed;
use crate::own::Own;
use crate::stepping::stepped_own;
use object_values::{Memory, Message, Node, Outcome, Seq, Status, Value, View};
use path_planner::{PlannedGraph, Plans};
use std::alloc::Global;
use task_needs::{Counted, Results, Taken};
use type_graph::Graph;

/// What a node settles to: its view, its own status and its own messages, and how many of its
/// needs are reached sources.
pub struct Settled {
    pub view: View,
    pub own_status: Status,
    pub own_messages: Seq<Message>,
    pub reached: u32,
}

impl Drop for Settled {
    fn drop(self) {
        let Settled {
            view,
            own_status: _,
            own_messages,
            reached: _,
        } = self;
        drop(view);
        drop(own_messages);
    }
}

impl Settled {
    /// The view alone.
    pub fn into_view(self) -> View
        ensures { result ≡ self.view }
    {
        let Settled {
            view,
            own_status: _,
            own_messages,
            reached: _,
        } = self;
        drop(own_messages);
        view
    }
}

/// All of what a node with steps settles to, from what it needs, the results of that, and the
/// outcome of its call.
pub fn settle_whole<R: Results>(
    alloc: Global,
    planned: &PlannedGraph<'_>,
    node: &Node,
    needed: &Needed,
    seen: &R,
    outcome: Option<&Outcome>,
) -> Result<Settled, Memory>
    requires fits { Fits planned.now node.now }
    requires needed { IsNeeded planned.now node.now (R.results seen.now) needed.now }
    ensures { let given = option_map (λ o. o.now) outcome.entry in
        IfOk result (SettlesSo planned.now node.now (R.results seen.now) given) }
{
    let reached = as_count(needed.names.len())?;
    let own = stepped_own(alloc, planned, node, seen, outcome)?;
    over_needs(alloc, &needed.counted, seen, own, reached)
}

/// The view of a node with steps, from the results of its needs and the outcome of its call.
pub fn settle<R: Results>(
    alloc: Global,
    graph: &Graph,
    plans: &Plans,
    node: &Node,
    needed: &Needed,
    seen: &R,
    outcome: Option<&Outcome>,
) -> Result<View, Memory>
    requires made { plans.now ≡ plans_of graph.now }
    requires fits { Fits graph.now node.now }
    requires needed { IsNeeded graph.now node.now (R.results seen.now) needed.now }
    requires stepped { node.now.steps ≢ [] }
    ensures { let given = option_map (λ o. o.now) outcome.entry in
        IfOk result (λ view. (texts : SourceLookup) →
        Settles graph.now texts node.now (R.results seen.now) given view) }
{
    let planned = PlannedGraph::new(graph, plans);
    settle_in(alloc, &planned, node, needed, seen, outcome)
}

/// The same in a graph with its plans.
pub fn settle_in<R: Results>(
    alloc: Global,
    planned: &PlannedGraph<'_>,
    node: &Node,
    needed: &Needed,
    seen: &R,
    outcome: Option<&Outcome>,
) -> Result<View, Memory>
    requires fits { Fits planned.now node.now }
    requires needed { IsNeeded planned.now node.now (R.results seen.now) needed.now }
    requires stepped { node.now.steps ≢ [] }
    ensures { let given = option_map (λ o. o.now) outcome.entry in
        IfOk result (λ view. (texts : SourceLookup) →
        Settles planned.now texts node.now (R.results seen.now) given view) }
{
    let whole = settle_whole(alloc, planned, node, needed, seen, outcome)?;
    Ok(whole.into_view())
}

// More reached names than can be counted want more memory than there is.
fn as_count(names: usize) -> Result<u32, Memory>
    ensures { IfOk result (λ count. count ≡ names) }
{
    match u32::try_from(names) {
        Ok(count) => Ok(count),
        Err(_) => Err(Memory),
    }
}

// What the node itself gives, over its needs but the reached sources.
fn over_needs<R: Results>(
    alloc: Global,
    counted: &Counted,
    seen: &R,
    own: Own,
    reached: u32,
) -> Result<Settled, Memory>
    ensures view { let nodes = nodes_in (values_of (R.results seen.now)) counted.now in
        IfOk result (λ made. made.view ≡ settled (R.results seen.now) own nodes) }
    ensures status { IfOk result (λ made. made.own_status ≡ own.status) }
    ensures messages { IfOk result (λ made. made.own_messages ≡ own.messages) }
    ensures reached { IfOk result (λ made. made.reached ≡ reached) }
{
    let mut taken = Taken::new(alloc, own.status());
    taken.take(alloc, counted, seen)?;
    over_taken(alloc, taken, own, reached)
}

// What the node itself gives, over what was taken over.
fn over_taken(alloc: Global, taken: Taken, own: Own, reached: u32) -> Result<Settled, Memory>
    ensures value { IfOk result (λ made. made.view.value ≡ cond taken.valued own.value None) }
    ensures worst { IfOk result (λ made. made.view.status ≡ taken.status) }
    ensures told { IfOk result (λ made. made.view.messages ≡
        inherit taken.messages own.messages) }
    ensures status { IfOk result (λ made. made.own_status ≡ own.status) }
    ensures messages { IfOk result (λ made. made.own_messages ≡ own.messages) }
    ensures reached { IfOk result (λ made. made.reached ≡ reached) }
{
    let valued = taken.valued;
    let status = taken.status;
    let messages = taken.into_messages(alloc, own.messages())?;
    let (value, own_status, own_messages) = own.into_parts();
    let view = View {
        value: value_where(value, valued),
        status,
        messages,
    };
    Ok(Settled {
        view,
        own_status,
        own_messages,
        reached,
    })
}

fn value_where(value: Option<Value>, valued: bool) -> Option<Value>
    ensures { result ≡ cond valued value None }
{
    if valued { value } else { None }
}
