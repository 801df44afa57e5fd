// The node of an expression, made step by step.
ghost use Rattle.std.specs.Prelude.{◌≡◌, ◌^◌, ◌<◌, ◌++◌, Some, length, map, IfOk, IfErr, OnOk};
ghost use Rattle.std.specs.Option.{option_copied};
ghost use Rattle.meaning_texts.specs.Expressions.{IsCanonical};
ghost use Rattle.meaning_graph.specs.Graphs.{types};
ghost use Rattle.meaning_tasks.specs.Nodes.{Fits, onward};
ghost use Rattle.meaning_tasks.specs.NodeOf.{is_node, node_of, node_or_no_path, step_on, steps_on, unknown_in};
ghost use Rattle.path_planner.specs.Ends.{plans_of};
ghost use Rattle.odin_nodes.specs.Making.{bare_source, IsTyped, IsMade};
ghost use Rattle.odin_nodes.specs.Refusals.{IsFaultOfAnswer, IsNodeRefusal};

use crate::fault::NodeFault;
use crate::picks::picked_type;
use crate::types::type_along;
use object_values::{
    Bytes, Copied, ExprStep, Expression, Memory, Node, ParamValue, Seq, ShortSeq, Step, Text,
    when_done,
};
use path_planner::{PlannedGraph, Plans};
use std::alloc::Global;
use type_graph::Graph;

/// The node of an expression, by the paths of its graph. A step to a type goes along the chosen path from the type that is reached.
pub fn node_of(
    alloc: Global,
    graph: &Graph,
    plans: &Plans,
    expression: &Expression,
) -> Result<Node, NodeFault>
    requires made { plans.now ≡ plans_of graph.now }
    requires few { length expression.now.steps < 2 ^ 32 }
    ensures ok { IfOk result (λ node. node_of graph.now expression.now ≡ is_node node) }
    ensures fits { IfOk result (λ node. IsCanonical expression.now → Fits graph.now node) }
    ensures err { IfErr result (IsNodeRefusal graph.now expression.now) }
{
    let copy = expression.copy(alloc)?;
    node_from(alloc, &PlannedGraph::new(graph, plans), copy)
}

/// The same of an expression that is given away: its name and its parameters become those of the node.
pub fn node_from(
    alloc: Global,
    planned: &PlannedGraph<'_>,
    expression: Expression,
) -> Result<Node, NodeFault>
    requires few { length expression.steps < 2 ^ 32 }
    ensures ok { IfOk result (λ node. node_of planned.now expression ≡ is_node node) }
    ensures fits { IfOk result (λ node. IsCanonical expression → Fits planned.now node) }
    ensures err { IfErr result (IsNodeRefusal planned.now expression) }
{
    let graph = planned.graph();
    if let Some(unknown) = unknown_param(graph, expression.params.as_slice()) {
        return Err(NodeFault::UnknownParam(unknown.param.copy(alloc)?));
    }
    let Expression {
        source,
        params,
        steps,
    } = expression;
    let mut reached = Reached::start(alloc, graph, source, params);
    let done = reached.add_steps(alloc, planned, steps.as_slice());
    when_done(done, reached.into_node())
}

// The first parameter that the graph doesn't declare.
fn unknown_param<'a>(graph: &Graph, params: &'a [ParamValue]) -> Option<&'a ParamValue>
    ensures { option_copied result ≡ unknown_in graph.now params.now }
{
    params
        .iter()
        .find(|param| !graph.has_param(param.param.as_slice()))
}

/// A node, and the type to which its steps lead.
struct Reached {
    node: Node,
    at: u32,
}

impl Drop for Reached {
    fn drop(self) {
        let Reached { node, at: _ } = self;
        drop(node);
    }
}

impl Reached {
    // A source with parameters, before the first step.
    fn start(alloc: Global, graph: &Graph, source: Bytes, params: Seq<ParamValue>) -> Self
        ensures node { result.node ≡ bare_source source params }
        ensures typed { IsTyped graph.now result }
    {
        let at = graph.source_type(source.as_slice());
        let steps = ShortSeq::new(alloc);
        Reached {
            node: Node {
                source,
                params,
                steps,
            },
            at,
        }
    }

    fn into_node(self) -> Node
        ensures { result ≡ self.node }
    {
        let Reached { node, at: _ } = self;
        node
    }

    // All steps, one after another.
    fn add_steps(
        &mut self,
        alloc: Global,
        planned: &PlannedGraph<'_>,
        steps: &[ExprStep],
    ) -> Result<(), NodeFault>
        requires few { length steps.now < 2 ^ 32 }
        requires typed { IsTyped planned.now self.old }
        ensures ok { let answer = steps_on planned.now 1 (is_node self.old.node) steps.now in
            OnOk result (answer ≡ is_node self.new.node) }
        ensures err { let answer = steps_on planned.now 1 (is_node self.old.node) steps.now in
            IfErr result (IsFaultOfAnswer answer) }
    {
        for (before, step) in steps.iter().enumerate() {
            self.add_step(alloc, planned, before as u32 + 1, step)?;
        }
        Ok(())
    }

    // The step of this number.
    fn add_step(
        &mut self,
        alloc: Global,
        planned: &PlannedGraph<'_>,
        number: u32,
        step: &ExprStep,
    ) -> Result<(), NodeFault>
        requires typed { IsTyped planned.now self.old }
        ensures ok { let answer = step_on planned.now self.old.node number step.now in
            OnOk result (IsMade planned.now answer self.new) }
        ensures err { let answer = step_on planned.now self.old.node number step.now in
            IfErr result (IsFaultOfAnswer answer) }
    {
        match step {
            ExprStep::To(name) => match planned.graph().type_named(name.as_slice()) {
                Some(to) => self.go_to(alloc, planned, number, to),
                None => Err(NodeFault::UnknownType(name.copy(alloc)?)),
            },
            ExprStep::Pick(key) => self.pick(alloc, planned.graph(), number, key),
        }
    }

    // Along the chosen path to a type, which mostly is one maker.
    fn go_to(
        &mut self,
        alloc: Global,
        planned: &PlannedGraph<'_>,
        number: u32,
        to: u32,
    ) -> Result<(), NodeFault>
        requires typed { IsTyped planned.now self.old }
        requires to { to < length (types planned.now) }
        ensures ok { let answer = node_or_no_path number (onward planned.now self.old.node to) in
            OnOk result (IsMade planned.now answer self.new) }
        ensures err { let answer = node_or_no_path number (onward planned.now self.old.node to) in
            IfErr result (IsFaultOfAnswer answer) }
    {
        let Some((maker, at)) = planned.direct(self.at, to) else {
            return self.go_along(alloc, planned, number, to);
        };
        self.node.steps.push(Step::Maker(maker))?;
        self.at = at;
        Ok(())
    }

    // Along the chosen path, however long it is.
    fn go_along(
        &mut self,
        alloc: Global,
        planned: &PlannedGraph<'_>,
        number: u32,
        to: u32,
    ) -> Result<(), NodeFault>
        requires typed { IsTyped planned.now self.old }
        requires to { to < length (types planned.now) }
        ensures ok { let answer = node_or_no_path number (onward planned.now self.old.node to) in
            OnOk result (IsMade planned.now answer self.new) }
        ensures err { let answer = node_or_no_path number (onward planned.now self.old.node to) in
            IfErr result (IsFaultOfAnswer answer) }
    {
        let Some(path) = planned.plan(alloc, self.at, to)? else {
            return Err(NodeFault::NoPath(number));
        };
        let Some(at) = type_along(planned, self.at, path.as_slice()) else {
            // Each maker of a path takes what the one before it makes.
            unreachable!();
        };
        put_makers(path.as_slice(), &mut self.node.steps)?;
        self.at = at;
        Ok(())
    }

    // To what a key picks.
    fn pick(
        &mut self,
        alloc: Global,
        graph: &Graph,
        number: u32,
        key: &Bytes,
    ) -> Result<(), NodeFault>
        requires typed { IsTyped graph.now self.old }
        ensures ok { let answer = step_on graph.now self.old.node number (ExprStep.Pick key.now) in
            OnOk result (IsMade graph.now answer self.new) }
        ensures err { let answer = step_on graph.now self.old.node number (ExprStep.Pick key.now) in
            IfErr result (IsFaultOfAnswer answer) }
    {
        let Some(at) = picked_type(graph, self.at, key.as_slice()) else {
            return Err(NodeFault::NoPath(number));
        };
        let key = Text::of(key.copy(alloc)?)?;
        self.node.steps.push(Step::Pick(key))?;
        self.at = at;
        Ok(())
    }
}

/// Puts the makers of a path after steps.
pub(crate) fn put_makers(path: &[u32], steps: &mut ShortSeq<Step>) -> Result<(), Memory>
    ensures { OnOk result (steps.new ≡ steps.old ++ map Step.Maker path.now) }
{
    for maker in path {
        steps.push(Step::Maker(*maker))?;
    }
    Ok(())
}
