// The settling of a node whose needs all have results.
ghost use Rattle.std.specs.Prelude.{◌≡◌, ◌≢◌, [], Some, IfOk, IsTrue};
ghost use Rattle.std.specs.FinMap as map;
ghost use Rattle.meaning_tasks.specs.Labels.{label_of as label_of_node};
ghost use Rattle.meaning_tasks.specs.Nodes.{Fits};
ghost use Rattle.meaning_tasks.specs.Values.{inherit};
ghost use Rattle.meaning_tasks.specs.Settle.{given_own};
ghost use Rattle.meaning_tasks.specs.Calls.{CallOf};
ghost use Rattle.node_tasks.specs.Needed.{IsNeeded};
ghost use Rattle.derive_walk.specs.Tables.{results_of};
ghost use Rattle.derive_walk.specs.Looked.{MayTake};
ghost use Rattle.derive_walk.specs.Looks.{LooksOnce};
ghost use Rattle.derive_walk.specs.Settings.{IsSetting, world_in};
ghost use Rattle.derive_walk.specs.Settled.{AreOutside, NodeIsClosed, view_or_call};

use crate::done::Table;
use crate::known::Known;
use crate::setting::Setting;
use crate::wanted::Wanted;
use node_tasks::{Needed, Settled, call_in, settle_whole};
use object_values::{
    Bytes, Call, Copied, Memory, Message, Node, Seq, SharedSeq, Sources, Status, Text, Value, View,
};
use odin_nodes::label_of;
use odin_outside::Steps;
use std::alloc::Global;
use std::sync::ledger::Ledger;
use type_graph::Graph;

/// What comes of a node whose needs all have results.
#[derive(Drop)]
pub(crate) enum Closed {
    /// The view of a source.
    Given(View),
    /// All of what a node with steps settles to.
    Settled(Settled),
    /// The call at which it stops.
    Stops(Call),
}

impl Closed {
    /// The view of the node, or the call at which it stops.
    pub(crate) fn into_view(self) -> Result<View, Call>
        ensures { result ≡ view_or_call self }
    {
        match self {
            Closed::Given(view) => Ok(view),
            Closed::Settled(settled) => Ok(settled.into_view()),
            Closed::Stops(call) => Err(call),
        }
    }
}

/// What comes of a node, and whether its outcome was looked for among what is kept.
#[derive(Drop)]
pub(crate) struct Closing {
    pub(crate) closed: Closed,
    pub(crate) took: bool,
}

/// Settles a node, or finds the call at which it stops. A call that is wanted has no outcome, and
/// is not looked for among what is kept.
pub(crate) fn settle_node<K: Known, L: Ledger>(
    alloc: Global,
    setting: &Setting<'_, K>,
    done: &Table,
    wanted: &Wanted,
    node: &Node,
    needed: &Needed,
    steps: &mut Steps<L>,
) -> Result<Closing, Memory>
    requires set { IsSetting K.keeps setting.now }
    requires fits { Fits setting.now.planned.now node.now }
    requires needed { IsNeeded setting.now.planned.now node.now (results_of done.now) needed.now }
    requires outside { AreOutside (world_in K.keeps setting.now) wanted.now }
    ensures closed { let w = world_in K.keeps setting.now in
        IfOk result (λ c. NodeIsClosed w node.now (results_of done.now) c.closed) }
    ensures took { let w = world_in K.keeps setting.now in let given = setting.now.given.now in
        IfOk result (λ c. IsTrue c.took →
        MayTake w.graph (results_of done.now) given wanted.now node.now) }
    ensures counted { LooksOnce steps.old steps.new (λ c. c.took) result }
{
    if node.steps.is_empty() {
        let view = source_view(alloc, setting.planned.graph(), setting.sources, node)?;
        return Ok(Closing {
            closed: Closed::Given(view),
            took: false,
        });
    }
    let Some(call) = call_in(alloc, setting.planned, node, needed, done)? else {
        let settled = settle_whole(alloc, setting.planned, node, needed, done, None)?;
        return Ok(Closing {
            closed: Closed::Settled(settled),
            took: false,
        });
    };
    settle_call(alloc, setting, done, wanted, node, needed, call, steps)
}

// The same of a node with a call.
fn settle_call<K: Known, L: Ledger>(
    alloc: Global,
    setting: &Setting<'_, K>,
    done: &Table,
    wanted: &Wanted,
    node: &Node,
    needed: &Needed,
    call: Call,
    steps: &mut Steps<L>,
) -> Result<Closing, Memory>
    requires set { IsSetting K.keeps setting.now }
    requires fits { Fits setting.now.planned.now node.now × (node.now.steps ≢ []) }
    requires needed { IsNeeded setting.now.planned.now node.now (results_of done.now) needed.now }
    requires outside { AreOutside (world_in K.keeps setting.now) wanted.now }
    requires called { CallOf setting.now.planned.now node.now (results_of done.now) (Some call) }
    ensures closed { let w = world_in K.keeps setting.now in
        IfOk result (λ c. NodeIsClosed w node.now (results_of done.now) c.closed) }
    ensures took { let w = world_in K.keeps setting.now in let given = setting.now.given.now in
        IfOk result (λ c. IsTrue c.took →
        MayTake w.graph (results_of done.now) given wanted.now node.now) }
    ensures counted { LooksOnce steps.old steps.new (λ c. c.took) result }
{
    if let Some(outcome) = setting.given.outcome(&call) {
        let settled = settle_whole(alloc, setting.planned, node, needed, done, Some(outcome))?;
        return Ok(Closing {
            closed: Closed::Settled(settled),
            took: false,
        });
    }
    if wanted.contains(&call) {
        return Ok(Closing {
            closed: Closed::Stops(call),
            took: false,
        });
    }
    let Some(outcome) = setting.known.outcome(alloc, &call, steps)? else {
        return Ok(Closing {
            closed: Closed::Stops(call),
            took: true,
        });
    };
    let settled = settle_whole(alloc, setting.planned, node, needed, done, Some(&outcome))?;
    Ok(Closing {
        closed: Closed::Settled(settled),
        took: true,
    })
}

/// The view of a source: its text, or that there is none.
#[tactic(auto, using(crate::proofs::SourceLemmas::inherit_none, crate::proofs::SourceLemmas::inherit_one))]
pub(crate) fn source_view(
    alloc: Global,
    graph: &Graph,
    sources: &Sources,
    node: &Node,
) -> Result<View, Memory>
    ensures { let label = label_of_node graph.now node.now in
        let text = map.get sources.now.texts node.now.source in
        let own = given_own label node.now.source text in
        IfOk result (λ view. view ≡
        record { value = own.value; status = own.status; messages = inherit [] own.messages }) }
{
    if let Some(text) = sources.get(node.source.as_slice()) {
        return Ok(View {
            value: Some(Value::Simple(text.copy(alloc)?)),
            status: Status::Ok,
            messages: SharedSeq::new(),
        });
    }
    let mut text = Bytes::from_slice(alloc, b"no source ")?;
    text.extend_from_slice(node.source.as_slice())?;
    let mut messages = Seq::new(alloc);
    messages.push(Message {
        label: Text::of(label_of(alloc, graph, node)?)?,
        level: Status::Abort,
        text: Text::of(text)?,
    })?;
    Ok(View {
        value: None,
        status: Status::Abort,
        messages: SharedSeq::of(messages)?,
    })
}
